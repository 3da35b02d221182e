//! A folder of files that is read, appended to, cut and flushed with few system calls.
ghost use Rattle.std.specs.Prelude.{◌≤◌, length, IfOk};

use crate::file_io::{ReaderAt, read_full, write_full};
use crate::file_names::{MAX_NAME_LEN, write_path};
use crate::open_files::{OpenFile, OpenFiles};
use crate::{EdgeFault, File};
use std::alloc::{AllocError, Global};
use std::fs::{OpenFile as SystemFile, OpenOptions};
use std::io;
use std::io::ErrorKind;
use std::os::unix::fs::FileExt;
use std::rt::Files;

/// The files of a store in a folder. Files that are used stay open, and their lengths are known, so
/// that an append or a read of an open file is one system call, and a cut to its length is none.
#[derive(Drop)]
pub(crate) struct Folder<T: Files> {
    rt: T,
    folder: String,
    /// The path of the file that was looked for last, in memory that is taken once.
    path: String,
    files: OpenFiles<T::File>,
    /// Whether the names of the files that exist are durable, as far as this run knows. A run
    /// before this one may have been killed before it flushed the folder.
    folder_is_flushed: bool,
    /// Whether a flush has failed. The system reports lost bytes to one flush and may report
    /// success to the next, so no later flush of this run may succeed.
    flush_failed: bool,
}

impl<T: Files + Drop> Folder<T>
where
    T::File: FileExt,
{
    /// Makes no system call.
    pub(crate) fn new(rt: T, alloc: Global, folder: &str) -> Result<Self, AllocError> {
        Ok(Folder {
            rt,
            folder: String::from_str(alloc, folder)?,
            path: String::with_capacity(alloc, folder.len().saturating_add(MAX_NAME_LEN))?,
            files: OpenFiles::new(alloc)?,
            folder_is_flushed: false,
            flush_failed: false,
        })
    }

    pub(crate) fn len(&mut self, file: File) -> Result<u64, EdgeFault> {
        match self.files.len_of(file) {
            Some(len) => Ok(len),
            None => Ok(self.find(file)?.unwrap_or(0)),
        }
    }

    pub(crate) fn read_at(
        &mut self,
        file: File,
        at: u64,
        into: &mut [u8],
    ) -> Result<usize, EdgeFault>
        ensures { IfOk result (λ k. k ≤ length into.new) }
    {
        let Some(open) = self.take_readable(file)? else {
            return Ok(0);
        };
        let room = open.len.saturating_sub(at).min(into.len() as u64) as usize;
        let mut reader = ReaderAt {
            handle: &open.handle,
            offset: at,
        };
        let read = read_full(&mut reader, &mut into[..room]);
        self.files.put(open);
        read.map_err(fault_of)
    }

    pub(crate) fn append(&mut self, file: File, bytes: &[u8]) -> Result<(), EdgeFault> {
        let mut open = self.take_writable(file)?;
        open.is_flushed = false;
        let written = write_full(&mut open.handle, bytes);
        open.len = open.len.saturating_add(bytes.len() as u64);
        self.put_changed(open, written)
    }

    pub(crate) fn cut(&mut self, file: File, length: u64) -> Result<(), EdgeFault> {
        // A cut past the end would make the file longer.
        if self.len(file)? <= length {
            return Ok(());
        }
        let mut open = self.take_writable(file)?;
        open.is_flushed = false;
        let cut = open.handle.set_len(length);
        open.len = length;
        self.put_changed(open, cut)
    }

    pub(crate) fn flush(&mut self, file: File) -> Result<(), EdgeFault> {
        if self.flush_failed {
            return Err(EdgeFault::Failed);
        }
        if self.files.is_flushed(file) {
            return Ok(());
        }
        let Some(mut open) = self.take_readable(file)? else {
            return Ok(());
        };
        let flushed = self.flush_open(&open.handle);
        open.is_flushed = flushed.is_ok();
        self.files.put(open);
        flushed
    }

    fn flush_open(&mut self, handle: &T::File) -> Result<(), EdgeFault> {
        let flushed = handle.sync_data();
        self.note_flush(flushed)?;
        if self.folder_is_flushed {
            return Ok(());
        }
        let mut how = OpenOptions::new();
        how.read(true);
        let folder = self
            .rt
            .open_file(&how, self.folder.as_str())
            .map_err(fault_of)?;
        self.note_flush(folder.sync_all())?;
        self.folder_is_flushed = true;
        Ok(())
    }

    fn note_flush(&mut self, flushed: io::Result<()>) -> Result<(), EdgeFault> {
        if flushed.is_err() {
            self.flush_failed = true;
        }
        flushed.map_err(fault_of)
    }

    /// Puts back a file after a change of it. If the change failed the file is closed, so that its
    /// length is looked for anew.
    fn put_changed(
        &mut self,
        open: OpenFile<T::File>,
        changed: io::Result<()>,
    ) -> Result<(), EdgeFault> {
        if changed.is_ok() {
            self.files.put(open);
        }
        changed.map_err(fault_of)
    }

    /// Takes a file that is open, or opens it for reading. Returns `None` if it does not exist.
    fn take_readable(&mut self, file: File) -> Result<Option<OpenFile<T::File>>, EdgeFault> {
        if let Some(open) = self.files.take(file) {
            return Ok(Some(open));
        }
        let Some(len) = self.find(file)? else {
            return Ok(None);
        };
        let mut how = OpenOptions::new();
        how.read(true);
        Ok(Some(self.open(file, len, &how)?))
    }

    /// Takes a file that is open for appending, or opens it so. Makes the file if it does not
    /// exist.
    fn take_writable(&mut self, file: File) -> Result<OpenFile<T::File>, EdgeFault> {
        if let Some(open) = self.files.take(file) {
            if open.is_writable {
                return Ok(open);
            }
        }
        let found = self.find(file)?;
        let mut how = OpenOptions::new();
        how.read(true).append(true).create(true);
        let open = self.open(file, found.unwrap_or(0), &how)?;
        if found.is_none() {
            self.folder_is_flushed = false;
        }
        Ok(open)
    }

    /// Opens the file that was looked for last, which has this length.
    fn open(
        &self,
        file: File,
        len: u64,
        how: &OpenOptions,
    ) -> Result<OpenFile<T::File>, EdgeFault> {
        let handle = self
            .rt
            .open_file(how, self.path.as_str())
            .map_err(fault_of)?;
        Ok(OpenFile {
            file,
            handle,
            len,
            is_writable: how.asks_append(),
            is_flushed: false,
        })
    }

    /// Looks for a file and returns its length, or `None` if it does not exist. What is not a
    /// regular file is a fault: a folder would open without an error, and the open of a pipe
    /// could wait for ever.
    fn find(&mut self, file: File) -> Result<Option<u64>, EdgeFault> {
        write_path(&mut self.path, self.folder.as_str(), file)?;
        match self.rt.metadata(self.path.as_str()) {
            Ok(found) if found.is_file() => Ok(Some(found.len())),
            Err(error) if error.kind() == ErrorKind::NotFound => Ok(None),
            _ => Err(EdgeFault::Failed),
        }
    }
}

fn fault_of(_: io::Error) -> EdgeFault {
    EdgeFault::Failed
}
