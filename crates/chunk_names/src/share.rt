//! The chunks that one worker names.
ghost use Rattle.std.specs.Prelude.{◌≡◌, ◌+◌, ◌^◌, ◌<◌, ◌∷◌, length, slice_index};
ghost use Rattle.chunk_names.specs.Shares.{HasNamesOf, chunk_at};
ghost use Rattle.sd_base.specs.Cutting.{RiseWithin};

use crate::Namer;

/// Names the chunks from number `first` on, one for each place of the share. A share may reach past
/// the last chunk.
pub(crate) fn name_share<N: Namer>(
    namer: &N,
    text: &[u8],
    start: u32,
    ends: &[u32],
    first: usize,
    share: &mut [[u8; 32]],
)
    requires rise { RiseWithin start (length text.now) ends.now }
    requires room { first + length share.old < 2 ^ 64 }
    ensures len { length share.new ≡ length share.old }
    ensures names { HasNamesOf N.name_of text.now start ends.now first share.new }
{
    for i in first..ends.len().min(first + share.len()) {
        share[i - first] = namer.name(chunk(text, start, ends, i));
    }
}

/// Chunk `i` of a text whose chunks end at `ends`, in bytes from the start of the text. The first
/// begins at `start`. It takes no memory.
#[tactic(auto, using(crate::proofs::Chunks::chunk_inside))]
pub fn chunk<'a>(text: &'a [u8], start: u32, ends: &[u32], i: usize) -> &'a [u8]
    requires rise { RiseWithin start (length text.now) ends.now }
    requires inside { i < length ends.now }
    ensures chunk { result.now ≡ chunk_at text.now start ends.now i }
{
    let from = end_before(start, ends, i);
    &text[from as usize..ends[i] as usize]
}

// Where chunk i begins.
fn end_before(start: u32, ends: &[u32], i: usize) -> u32
    requires inside { i < length ends.now }
    ensures end { result ≡ slice_index (start ∷ ends.now) i }
{
    if i == 0 { start } else { ends[i - 1] }
}
