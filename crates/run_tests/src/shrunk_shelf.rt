//! A shelf whose reads end early.
ghost use Rattle.std.specs.Prelude.{None, false};
ghost use Rattle.edge_traits.specs.MemShelf.{shelf_faults};

use edge_traits::{EdgeFault, File, MemShelf, Shelf};

/// A shelf of which one file has shrunk since its length was taken: it says the length that it had,
/// and each read of it ends at `end` at the latest. It is not observable.
#[derive(Drop)]
pub(crate) struct ShrunkShelf {
    pub(crate) shelf: MemShelf,
    pub(crate) file: File,
    pub(crate) end: u64,
}

impl Shelf for ShrunkShelf {
    ghost files = { λ _. None };

    ghost loose = { λ _ _. false };

    ghost faults = { λ shrunk. shelf_faults shrunk.shelf };

    ghost faultless = { λ _. ⊥ };

    fn len(&mut self, file: File) -> Result<u64, EdgeFault> {
        self.shelf.len(file)
    }

    fn read_at(&mut self, file: File, at: u64, into: &mut [u8]) -> Result<usize, EdgeFault> {
        let read = self.shelf.read_at(file, at, into)?;
        if file != self.file {
            return Ok(read);
        }
        Ok(read.min(self.end.saturating_sub(at) as usize))
    }

    fn append(&mut self, file: File, bytes: &[u8]) -> Result<(), EdgeFault> {
        self.shelf.append(file, bytes)
    }

    fn cut(&mut self, file: File, length: u64) -> Result<(), EdgeFault> {
        self.shelf.cut(file, length)
    }

    fn flush(&mut self, file: File) -> Result<(), EdgeFault> {
        self.shelf.flush(file)
    }
}
