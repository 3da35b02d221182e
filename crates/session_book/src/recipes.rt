//! The recipes of a book against its chunks.
ghost use Rattle.std.specs.Prelude.{◌≡◌, [], length, slice_index_or, nat_le, ◌≤◌};
ghost use Rattle.std.specs.List.{position};
ghost use Rattle.sd_base.specs.Books.{chunks_in, places_in, bytes_named, recipe_flaw, recipe_damage};

use sd_base::{Damage, IngestRecord, MAX_CHUNKS, MAX_PLACES, MAX_SESSIONS, NewChunk, Session};

// The first recipe that fails.
pub fn first_damage(sessions: &[Session], chunks: &[NewChunk]) -> Option<Damage>
    requires chunks { chunks.now ≡ chunks_in sessions.now }
    requires chunk_limit { length chunks.now ≤ MAX_CHUNKS }
    requires place_limit { places_in sessions.now ≤ MAX_PLACES }
    requires session_limit { length sessions.now ≤ MAX_SESSIONS }
    ensures { result ≡ recipe_damage [] 0 sessions.now }
{
    let mut count = 0;
    for (k, session) in sessions.iter().enumerate() {
        count += session.entry.fresh.as_slice().len();
        if let Some(place) = flaw_place(&chunks[..count], &session.entry) {
            return Some(Damage::Recipe {
                session: k as u32,
                place,
            });
        }
    }
    None
}

// The place at which a recipe fails.
fn flaw_place(chunks: &[NewChunk], entry: &IngestRecord) -> Option<u32>
    requires { length entry.now.recipe ≤ MAX_PLACES }
    ensures { result ≡ recipe_flaw chunks.now entry.now }
{
    let entries = entry.recipe.as_slice();
    if let Some(place) = unnamed_place(chunks, entries) {
        return Some(place as u32);
    }
    if named_len(chunks, entries) == entry.length as u64 {
        None
    } else {
        Some(entries.len() as u32)
    }
}

// The first place whose entry is no chunk's number.
fn unnamed_place(chunks: &[NewChunk], entries: &[u32]) -> Option<usize>
    ensures { result ≡ position (λ n. nat_le (length chunks.now) n) entries.now }
{
    entries.iter().position(|n| chunks.len() <= *n as usize)
}

// The sum of the lengths of the chunks that entries name.
fn named_len(chunks: &[NewChunk], entries: &[u32]) -> u64
    requires { length entries.now ≤ MAX_PLACES }
    ensures { result ≡ bytes_named chunks.now entries.now }
{
    entries.iter().map(|n| chunk_len(chunks, *n) as u64).sum()
}

// The length of the chunk of a number, or 0 if there is none.
fn chunk_len(chunks: &[NewChunk], n: u32) -> u32
    ensures { result ≡ (slice_index_or chunks.now n (record { length = 0; name = [] })).length }
{
    chunks.get(n as usize).map_or(0, |chunk| chunk.length)
}
