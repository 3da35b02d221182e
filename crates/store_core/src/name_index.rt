//! An index of the names of chunks.
ghost use Rattle.std.specs.Prelude.{◌≡◌, ◌+◌, ◌<◌, ◌∷◌, ◌++◌, [], ℕ, List, length, OnOk, OnErr};
ghost use Rattle.std.specs.List.{position};
ghost use Rattle.std.specs.Str.{bytes_eq};
ghost use Rattle.sd_base.specs.declared.limits.TheConstants.{MAX_CHUNKS};
ghost use Rattle.store_core.specs.NameIndex.{Covers};

use sd_base::OutOfMemory;
use std::alloc::Global;
use std::collections::HashMap;

/// The least number of a chunk of each name, for the first chunks of a store.
#[derive(Drop)]
pub(crate) struct NameIndex {
    first: HashMap<[u8; 32], u32>,
    chunks: u32,
}

impl NameIndex {
    /// The index of no chunks.
    pub(crate) fn new(alloc: Global) -> NameIndex
        ensures { Covers result [] }
    {
        NameIndex {
            first: HashMap::new(alloc),
            chunks: 0,
        }
    }

    /// How many chunks the index has.
    pub(crate) fn chunks(&self) -> u32
        ensures { result ≡ self.now.chunks }
    {
        self.chunks
    }

    /// Adds the name of the next chunk.
    pub(crate) fn add(&mut self, name: &[u8; 32]) -> Result<(), OutOfMemory>
        requires { self.old.chunks < MAX_CHUNKS }
        ensures count { OnOk result (self.new.chunks ≡ self.old.chunks + 1) }
        ensures added { (names : List (List ℕ)) → Covers self.old names
            → OnOk result (Covers self.new (names ++ name.now ∷ [])) }
        ensures refused { (names : List (List ℕ)) → Covers self.old names → OnErr result (Covers self.new names) }
    {
        if !self.first.contains_key(name) {
            self.first.insert(*name, self.chunks)?;
        }
        self.chunks += 1;
        Ok(())
    }

    /// The least number of a chunk of this name.
    pub(crate) fn find(&self, name: &[u8; 32]) -> Option<u32>
        ensures { (names : List (List ℕ)) → Covers self.now names → result ≡ position (bytes_eq name.now) names }
    {
        self.first.get(name).copied()
    }
}
