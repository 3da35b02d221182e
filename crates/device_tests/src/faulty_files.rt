use std::alloc::Allocator;
use std::fs::{Metadata, OpenFile, OpenOptions};
use std::io::{ErrorKind, Read, Seek, SeekFrom, Write};
use std::os::unix::fs::FileExt;
use std::rt::Files;
use std::sync::atomic::AtomicU64;
use std::sync::atomic::Ordering::SeqCst;
use std::{fs, io};

/// What goes wrong with the calls on files, and how many syncs were made.
#[derive(Drop)]
pub(crate) struct Plan {
    /// The syncs of files and folders that were made.
    pub(crate) syncs: AtomicU64,
    /// The sync that fails, counted from 1.
    pub(crate) failing_sync: AtomicU64,
    /// How many of the next reads and writes are interrupted.
    pub(crate) interruptions: AtomicU64,
    /// The length to which no file can be cut.
    pub(crate) failing_length: AtomicU64,
}

impl Plan {
    /// Nothing goes wrong.
    pub(crate) fn new() -> Self {
        Plan {
            syncs: AtomicU64::new(0),
            failing_sync: AtomicU64::new(0),
            interruptions: AtomicU64::new(0),
            failing_length: AtomicU64::new(u64::MAX),
        }
    }

    fn sync(&self) -> io::Result<()> {
        let number = self.syncs.fetch_add(1, SeqCst).wrapping_add(1);
        if number == self.failing_sync.load(SeqCst) {
            return Err(ErrorKind::Other.into());
        }
        Ok(())
    }

    fn interrupt(&self) -> io::Result<()> {
        let left = self.interruptions.load(SeqCst);
        if left > 0 {
            self.interruptions.store(left - 1, SeqCst);
            return Err(ErrorKind::Interrupted.into());
        }
        Ok(())
    }
}

/// The system's files, with which things go wrong as planned. A folder named `shut` cannot be
/// opened. A read or a write takes one byte of its piece, and fails at an exclamation mark.
#[derive(Drop)]
pub(crate) struct Faulty<'a> {
    pub(crate) rt: HostRuntime,
    pub(crate) plan: &'a Plan,
}

#[derive(Drop)]
pub(crate) struct FaultyFile<'a> {
    file: fs::File,
    plan: &'a Plan,
}

impl Read for FaultyFile<'_> {
    fn read(&mut self, into: &mut [u8]) -> io::Result<usize> {
        self.file.read(into)
    }
}

impl Write for FaultyFile<'_> {
    fn write(&mut self, bytes: &[u8]) -> io::Result<usize> {
        self.plan.interrupt()?;
        if bytes.starts_with(b"!") {
            return Err(ErrorKind::Other.into());
        }
        self.file.write(&bytes[..bytes.len().min(1)])
    }

    fn flush(&mut self) -> io::Result<()> {
        Ok(())
    }
}

impl Seek for FaultyFile<'_> {
    fn seek(&mut self, to: SeekFrom) -> io::Result<u64> {
        self.file.seek(to)
    }
}

impl FileExt for FaultyFile<'_> {
    fn read_at(&self, into: &mut [u8], offset: u64) -> io::Result<usize> {
        self.plan.interrupt()?;
        let room = into.len().min(1);
        let count = self.file.read_at(&mut into[..room], offset)?;
        if into[..count].starts_with(b"!") {
            return Err(ErrorKind::Other.into());
        }
        Ok(count)
    }

    fn write_at(&self, bytes: &[u8], offset: u64) -> io::Result<usize> {
        self.file.write_at(bytes, offset)
    }
}

impl OpenFile for FaultyFile<'_> {
    fn metadata(&self) -> io::Result<Metadata> {
        self.file.metadata()
    }

    fn set_len(&self, size: u64) -> io::Result<()> {
        if size == self.plan.failing_length.load(SeqCst) {
            return Err(ErrorKind::Other.into());
        }
        self.file.set_len(size)
    }

    fn sync_all(&self) -> io::Result<()> {
        self.plan.sync()
    }

    fn sync_data(&self) -> io::Result<()> {
        self.plan.sync()
    }
}

impl<'a> Files for Faulty<'a> {
    type File = FaultyFile<'a>;

    type Dir = <HostRuntime as Files>::Dir;

    fn open_file(&self, how: &OpenOptions, path: &str) -> io::Result<FaultyFile<'a>> {
        if path == "shut" {
            return Err(ErrorKind::PermissionDenied.into());
        }
        Ok(FaultyFile {
            file: self.rt.open_file(how, path)?,
            plan: self.plan,
        })
    }

    fn open_dir(&self, path: &str) -> io::Result<Self::Dir> {
        self.rt.open_dir(path)
    }

    fn metadata(&self, path: &str) -> io::Result<Metadata> {
        self.rt.metadata(path)
    }

    fn symlink_metadata(&self, path: &str) -> io::Result<Metadata> {
        self.rt.symlink_metadata(path)
    }

    fn copy(&self, from: &str, to: &str) -> io::Result<u64> {
        self.rt.copy(from, to)
    }

    fn rename(&self, from: &str, to: &str) -> io::Result<()> {
        self.rt.rename(from, to)
    }

    fn remove_file(&self, path: &str) -> io::Result<()> {
        self.rt.remove_file(path)
    }

    fn create_dir(&self, path: &str) -> io::Result<()> {
        self.rt.create_dir(path)
    }

    fn remove_dir(&self, path: &str) -> io::Result<()> {
        self.rt.remove_dir(path)
    }

    fn remove_dir_all<B: Allocator>(&self, alloc: B, path: &str) -> io::Result<()> {
        self.rt.remove_dir_all(alloc, path)
    }
}
