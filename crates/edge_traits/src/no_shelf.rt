//! A shelf that has no files and takes none.
ghost use Rattle.std.specs.Prelude.{◌≡◌, [], Some, false};
ghost use Rattle.edge_traits.specs.Faults.{CountsFault};

use crate::{EdgeFault, File, Shelf};

/// A shelf with nothing on it: no file has bytes, and none is loose. It is observable. Each call
/// counts a fault and returns `Failed`.
#[derive(Drop)]
pub struct NoShelf {
    faults: u64,
}

impl NoShelf {
    ghost use Rattle.edge_traits.specs.NoShelf.{no_shelf_faults};

    /// A shelf that has not been called.
    pub fn new() -> Self
        ensures { no_shelf_faults result ≡ 0 }
    {
        NoShelf { faults: 0 }
    }

    fn refuse(&mut self) -> EdgeFault
        ensures fault { result ≡ EdgeFault.Failed }
        ensures counts { CountsFault (no_shelf_faults self.old) (no_shelf_faults self.new) }
    {
        self.faults = self.faults.saturating_add(1);
        EdgeFault::Failed
    }
}

impl Shelf for NoShelf {
    ghost use Rattle.edge_traits.specs.NoShelf.{no_shelf_faults};

    ghost files = { λ _. Some (λ _. []) };

    ghost loose = { λ _ _. false };

    ghost faults = { no_shelf_faults };

    ghost faultless = { λ _. ⊥ };

    fn len(&mut self, _file: File) -> Result<u64, EdgeFault>
        ensures fails { result ≡ Err EdgeFault.Failed }
        ensures counts { CountsFault (no_shelf_faults self.old) (no_shelf_faults self.new) }
    {
        Err(self.refuse())
    }

    fn read_at(&mut self, _file: File, _at: u64, _into: &mut [u8]) -> Result<usize, EdgeFault>
        ensures fails { result ≡ Err EdgeFault.Failed }
        ensures counts { CountsFault (no_shelf_faults self.old) (no_shelf_faults self.new) }
    {
        Err(self.refuse())
    }

    fn append(&mut self, _file: File, _bytes: &[u8]) -> Result<(), EdgeFault>
        ensures fails { result ≡ Err EdgeFault.Failed }
        ensures counts { CountsFault (no_shelf_faults self.old) (no_shelf_faults self.new) }
    {
        Err(self.refuse())
    }

    fn cut(&mut self, _file: File, _length: u64) -> Result<(), EdgeFault>
        ensures fails { result ≡ Err EdgeFault.Failed }
        ensures counts { CountsFault (no_shelf_faults self.old) (no_shelf_faults self.new) }
    {
        Err(self.refuse())
    }

    fn flush(&mut self, _file: File) -> Result<(), EdgeFault>
        ensures fails { result ≡ Err EdgeFault.Failed }
        ensures counts { CountsFault (no_shelf_faults self.old) (no_shelf_faults self.new) }
    {
        Err(self.refuse())
    }
}
