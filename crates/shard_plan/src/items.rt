//! The chunks of a text with their names.
ghost use Rattle.std.specs.Prelude.{◌≡◌, ◌<◌, ◌≤◌, ◌↔◌, ◌∷◌, IsTrue, length, slice_index};
ghost use Rattle.sd_base.specs.Cutting.{RiseWithin, chunks_between};
ghost use Rattle.sd_base.specs.declared.limits.TheConstants.{MAX_INPUT};
ghost use Rattle.shard_plan.specs.Items.{AreNamed, chunk_of, name_of};

use std::marker::Model;

/// The chunks of a text and their names. Items are numbered as the chunks lie in the text. Their bytes
/// are not copied. A clause sees the list of the chunks and the list of the names. Nothing here takes
/// memory.
#[derive(Drop)]
pub struct Items<'a> {
    text: &'a [u8],
    start: u32,
    ends: &'a [u32],
    names: &'a [[u8; 32]],
}

impl<'a> Model for Items<'a> {
    ghost use Rattle.shard_plan.specs.Items.{ItemList};

    ghost Value = { ItemList };

    ghost use Rattle.shard_plan.specs.ItemFields.{AreItems, item_list};

    ghost view = { item_list };

    ghost invariant = { AreItems };
}

impl<'a> Items<'a> {
    /// Cuts a text at `ends`, from `start` on, and pairs the chunks with their names. Equal chunks
    /// need equal names. Different chunks may share one.
    pub fn new(text: &'a [u8], start: u32, ends: &'a [u32], names: &'a [[u8; 32]]) -> Items<'a>
        requires fits { length text.now ≤ MAX_INPUT }
        requires rise { RiseWithin start (length text.now) ends.now }
        requires named { AreNamed (chunks_between text.now start ends.now) names.now }

        ensures chunks { result.chunks ≡ chunks_between text.now start ends.now }
        ensures names { result.names ≡ names.now }
    {
        Items {
            text,
            start,
            ends,
            names,
        }
    }

    /// The number of items.
    #[tactic(auto, using(crate::proofs::Chunks::few_ends, crate::proofs::Chunks::one_a_cut))]
    pub fn len(&self) -> u32
        ensures len { result ≡ length self.now.chunks }
        ensures few { result ≤ MAX_INPUT }
        ensures named { AreNamed self.now.chunks self.now.names }
    {
        self.ends.len() as u32
    }

    /// The bytes of item i.
    #[tactic(auto, using(crate::proofs::Chunks::chunk_inside, crate::proofs::Chunks::chunk_is, crate::proofs::Chunks::one_a_cut))]
    pub fn chunk(&self, i: u32) -> &'a [u8]
        requires inside { i < length self.now.chunks }
        ensures chunk { result.now ≡ chunk_of self.now i }
    {
        let from = end_before(self.start, self.ends, i as usize);
        &self.text[from as usize..self.ends[i as usize] as usize]
    }

    /// The name of item i.
    #[tactic(auto, using(crate::proofs::Chunks::one_a_cut))]
    pub fn name(&self, i: u32) -> &'a [u8; 32]
        requires inside { i < length self.now.chunks }
        ensures name { result.now ≡ name_of self.now i }
    {
        &self.names[i as usize]
    }

    /// Whether two items have equal bytes. It compares the names first, since different names are
    /// those of different chunks.
    #[tactic(auto, using(crate::proofs::Chunks::one_a_cut))]
    pub fn same(&self, i: u32, j: u32) -> bool
        requires first { i < length self.now.chunks }
        requires second { j < length self.now.chunks }
        ensures same { IsTrue result ↔ (chunk_of self.now i ≡ chunk_of self.now j) }
    {
        self.names[i as usize] == self.names[j as usize] && self.chunk(i) == self.chunk(j)
    }

    // The names of all items.
    pub(crate) fn names(&self) -> &'a [[u8; 32]]
        ensures names { result.now ≡ self.now.names }
    {
        self.names
    }
}

// Where chunk i begins.
fn end_before(start: u32, ends: &[u32], i: usize) -> u32
    requires inside { i < length ends.now }
    ensures end { result ≡ slice_index (start ∷ ends.now) i }
{
    if i == 0 { start } else { ends[i - 1] }
}
