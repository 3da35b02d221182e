ghost use Rattle.std.specs.Prelude.{◌≡◌, ℕ, ◌+◌, ◌-◌, ◌<◌, ◌≤◌, [], ◌++◌, All, length, replicate, OnErr, OnOk};
ghost use Rattle.std.specs.List.{sum};
ghost use Rattle.sd_base.specs.References.{occurrences};
ghost use Rattle.sd_base.specs.declared.limits.TheConstants.{MAX_PLACES};
ghost use Rattle.ref_ledger.specs.Counts.{count_at};

use sd_base::OutOfMemory;
use std::alloc::Global;
use std::marker::Model;

/// A reference count for each chunk, by the number of the chunk. A clause sees it as the list of
/// the counts. Only `reserve` takes memory.
#[derive(Drop)]
pub struct Ledger {
    counts: Vec<u32>,
}

impl Model for Ledger {
    ghost use Rattle.std.specs.Prelude.{ℕ, List};

    ghost Value = { List ℕ };

    ghost view = { λ ledger. ledger.counts.items };
}

impl Ledger {
    /// A ledger that counts no chunk.
    pub fn new(alloc: Global) -> Ledger
        ensures empty { result ≡ [] }
    {
        Ledger {
            counts: Vec::new(alloc),
        }
    }

    /// Makes a count for each number below `chunks`. The new counts are 0, and the others stay. It
    /// fails only if memory runs out, and then changes nothing.
    pub fn reserve(&mut self, chunks: u32) -> Result<(), OutOfMemory>
        ensures reserved { OnOk result
            (self.new ≡ self.old ++ replicate (chunks - length self.old) 0) }
        ensures unchanged { OnErr result (self.new ≡ self.old) }
    {
        if self.counts.len() < chunks as usize {
            self.counts.resize(chunks as usize, 0)?;
        }
        Ok(())
    }

    /// Counts one more reference for each place, to the chunk that the place names.
    pub fn add(&mut self, places: &[u32])
        requires known { All (λ place. place < length self.old) places.now }
        requires room { sum self.old + length places.now ≤ MAX_PLACES }

        ensures added { (i : ℕ) → i < length self.old
            → count_at self.new i ≡ count_at self.old i + occurrences i places.now }
        ensures chunks { length self.new ≡ length self.old }
        ensures total { sum self.new ≡ sum self.old + length places.now }
    {
        for place in places {
            self.counts[*place as usize] += 1;
        }
    }

    /// Counts one reference less for each place, to the chunk that the place names. No chunk may be
    /// named more often than it is counted.
    pub fn drop_places(&mut self, places: &[u32])
        requires counted { (i : ℕ) → occurrences i places.now ≤ count_at self.old i }

        ensures dropped { (i : ℕ)
            → count_at self.new i ≡ count_at self.old i - occurrences i places.now }
        ensures chunks { length self.new ≡ length self.old }
        ensures total { sum self.new + length places.now ≡ sum self.old }
    {
        for place in places {
            self.counts[*place as usize] -= 1;
        }
    }

    /// The reference count of a chunk.
    pub fn count(&self, chunk: u32) -> u32
        requires counted { chunk < length self.now }
        ensures count { result ≡ count_at self.now chunk }
    {
        self.counts[chunk as usize]
    }
}
