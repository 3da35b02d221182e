//! A shelf over a folder of files.
ghost use Rattle.std.specs.Prelude.{◌≡◌, ◌≤◌, None, false, length, IfOk};
ghost use Rattle.edge_traits.specs.Faults.{CountsIfFailed};

use crate::folder::Folder;
use crate::{EdgeFault, File, Shelf};
use sd_base::OutOfMemory;
use std::alloc::Global;
use std::os::unix::fs::FileExt;
use std::rt::Files;

/// The files of a store in a folder, which has to exist. It is not observable: what a folder keeps
/// is trusted, and shown by tests alone.
#[derive(Drop)]
pub struct FolderShelf<T: Files> {
    folder: Folder<T>,
    faults: u64,
}

impl<T: Files + Drop> FolderShelf<T>
where
    T::File: FileExt,
{
    ghost use Rattle.edge_traits.specs.FolderShelf.{folder_faults};

    /// A shelf over the folder with this path. Makes no system call. Fails only if memory runs out.
    pub fn new(rt: T, alloc: Global, path: &str) -> Result<Self, OutOfMemory>
        ensures { IfOk result (λ shelf. folder_faults shelf ≡ 0) }
    {
        Ok(FolderShelf {
            folder: Folder::new(rt, alloc, path)?,
            faults: 0,
        })
    }
}

impl<T: Files + Send + Drop> Shelf for FolderShelf<T>
where
    T::File: FileExt + Send,
{
    ghost use Rattle.edge_traits.specs.FolderShelf.{folder_faults};

    ghost files = { λ _. None };

    ghost loose = { λ _ _. false };

    ghost faults = { folder_faults };

    ghost faultless = { λ _. ⊥ };

    fn len(&mut self, file: File) -> Result<u64, EdgeFault>
        ensures counts { CountsIfFailed result (folder_faults self.old) (folder_faults self.new) }
    {
        let found = self.folder.len(file);
        count_failed(found, &mut self.faults)
    }

    fn read_at(&mut self, file: File, at: u64, into: &mut [u8]) -> Result<usize, EdgeFault>
        ensures bound { IfOk result (λ k. k ≤ length into.new) }
        ensures counts { CountsIfFailed result (folder_faults self.old) (folder_faults self.new) }
    {
        let read = self.folder.read_at(file, at, into);
        count_failed(read, &mut self.faults)
    }

    fn append(&mut self, file: File, bytes: &[u8]) -> Result<(), EdgeFault>
        ensures counts { CountsIfFailed result (folder_faults self.old) (folder_faults self.new) }
    {
        let appended = self.folder.append(file, bytes);
        count_failed(appended, &mut self.faults)
    }

    fn cut(&mut self, file: File, length: u64) -> Result<(), EdgeFault>
        ensures counts { CountsIfFailed result (folder_faults self.old) (folder_faults self.new) }
    {
        let cut = self.folder.cut(file, length);
        count_failed(cut, &mut self.faults)
    }

    fn flush(&mut self, file: File) -> Result<(), EdgeFault>
        ensures counts { CountsIfFailed result (folder_faults self.old) (folder_faults self.new) }
    {
        let flushed = self.folder.flush(file);
        count_failed(flushed, &mut self.faults)
    }
}

/// Counts one more fault if the call failed, and returns its result.
fn count_failed<R>(outcome: Result<R, EdgeFault>, faults: &mut u64) -> Result<R, EdgeFault>
    ensures same { result ≡ outcome }
    ensures counts { CountsIfFailed result faults.old faults.new }
{
    if matches!(&outcome, Err(EdgeFault::Failed)) {
        *faults = faults.saturating_add(1);
    }
    outcome
}
