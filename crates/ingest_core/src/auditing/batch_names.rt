//! The names of a batch of chunks, against those that the book keeps.
ghost use Rattle.std.specs.Prelude.{◌≡◌, ◌≢◌, ◌≤◌, ◌<◌, ◌+◌, MatchBool, MatchOption, length};
ghost use Rattle.chunk_names.specs.Shares.{chunk_at};
ghost use Rattle.ingest_core.specs.AuditChunks.{AreKeptNames, IsKeptName, IsMisnamed, kept_at, names_in};
ghost use Rattle.sd_base.specs.Cutting.{RiseWithin};
ghost use Rattle.sd_base.specs.Firsts.{IsFirstFailing};
ghost use Rattle.sd_base.specs.declared.limits.TheConstants.{MAX_CHUNKS};

use chunk_names::{Namer, chunk};
use rayon::prelude::*;
use sd_base::{Damage, NewChunk};
use std::thread::Threads;

/// The first chunk of a text whose name is not the one that is kept. The chunks have their numbers
/// from `number` on, and the first begins where the text does. It takes no memory.
pub(crate) fn first_misnamed<H: Threads + Sync, N: Namer>(
    rt: &H,
    namer: &N,
    text: &[u8],
    ends: &[u32],
    kept: &[NewChunk],
    number: u32,
) -> Option<Damage>
    requires rise { RiseWithin 0 (length text.now) ends.now }
    requires one_each { length ends.now ≡ length kept.now }
    requires numbers { number + length kept.now ≤ MAX_CHUNKS }
    ensures first { MatchOption result (AreKeptNames kept.now (names_in N.name_of text.now ends.now))
        (λ damage. IsMisnamed kept.now (names_in N.name_of text.now ends.now) number damage) }
{
    let place = misnamed_place(rt, namer, text, ends, kept)?;
    Some(Damage::Chunk {
        number: number + place as u32,
        kept: kept[place].name,
        found: namer.name(chunk(text, 0, ends, place)),
    })
}

// The first place whose chunk has not the name that is kept. All chunks are named, side by side.
fn misnamed_place<H: Threads + Sync, N: Namer>(
    rt: &H,
    namer: &N,
    text: &[u8],
    ends: &[u32],
    kept: &[NewChunk],
) -> Option<usize>
    requires rise { RiseWithin 0 (length text.now) ends.now }
    requires one_each { length ends.now ≡ length kept.now }
    ensures place { MatchOption result (AreKeptNames kept.now (names_in N.name_of text.now ends.now))
        (λ place. IsFirstFailing (length kept.now)
        (IsKeptName kept.now (names_in N.name_of text.now ends.now)) place) }
{
    (0..kept.len())
        .into_par_iter()
        .with_min_len(1)
        .position_first(
            rt,
            |place: usize| -> bool
                requires { RiseWithin 0 (length text.now) ends.now × (place < length ends.now)
                    × (place < length kept.now) }
                ensures { MatchBool result
                    (N.name_of (chunk_at text.entry.now 0 ends.entry.now place) ≢ (kept_at kept.entry.now place).name)
                    (N.name_of (chunk_at text.entry.now 0 ends.entry.now place) ≡ (kept_at kept.entry.now place).name) }
            { namer.name(chunk(text, 0, ends, place)) != kept[place].name },
        )
}
