ghost use Rattle.std.specs.Prelude.{◌≡◌, ℕ, ◌<◌, ◌≤◌, true, false, List, ◌∷◌, length, All, IfOk};
ghost use Rattle.std.specs.List.Sorted.{IsStrictlyIncreasing};
ghost use Rattle.sd_base.specs.Params.{numbers_of};
ghost use Rattle.sd_base.specs.Cutting.{cuts_within};
ghost use Rattle.candidate_map.specs.Candidates.{HoldsCandidates};
ghost use Rattle.cut_walk.specs.Walk.{AreCutsOn, StopsAt, last_cut};

use crate::next_cut;
use candidate_map::PlainMap;
use sd_base::{OutOfMemory, Params};
use std::alloc::Global;

/// The cuts from `start` on, each the next from the one before it, until all that is known is cut
/// or the next cut is still open. The first `known` bytes of the input are known, and `at_end` says
/// that these are all. It fails only if memory runs out. The walk is the second stage of SS-CDC
/// (SYSTOR 2019). That it stops at an open cut is this project's own.
pub fn cuts_from(
    alloc: Global,
    map: &PlainMap,
    params: &Params,
    start: u32,
    known: u32,
    at_end: bool,
) -> Result<Vec<u32>, OutOfMemory>
    requires inside { start ≤ known }
    requires mapped { known < length map.now }

    // By the map alone.
    ensures cuts { IfOk result (λ cuts.
        AreCutsOn (numbers_of params.now) map.now known at_end start cuts.items) }
    ensures stops { IfOk result (λ cuts.
        StopsAt (numbers_of params.now) map.now known at_end (last_cut start cuts.items)) }

    ensures rising { IfOk result (λ cuts. IsStrictlyIncreasing (start ∷ cuts.items)) }
    ensures within { IfOk result (λ cuts. All (λ cut. cut ≤ known) cuts.items) }

    // If the map has the candidates of an input, which is known to its end or in part.
    ensures of_whole_input { (input : List ℕ) → HoldsCandidates (numbers_of params.now) input map.now known
        → at_end ≡ true → known ≡ length input
        → IfOk result (λ cuts. cuts.items ≡ cuts_within (length input) (numbers_of params.now) input start) }
    ensures of_longer_input { (input : List ℕ) → HoldsCandidates (numbers_of params.now) input map.now known
        → at_end ≡ false → known ≤ length input
        → IfOk result (λ cuts.
        cuts.items ≡ cuts_within (length cuts.items) (numbers_of params.now) input start) }
{
    let mut cuts = Vec::new(alloc);
    let mut from = start;
    while from < known {
        match next_cut(map, params, from, known, at_end) {
            Some(cut) => {
                cuts.push(cut)?;
                from = cut;
            }
            None => return Ok(cuts),
        }
    }
    Ok(cuts)
}
