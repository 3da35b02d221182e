ghost use Rattle.std.specs.Prelude.{◌≡◌, ℕ, ◌+◌, ◌<◌, ◌≤◌, ◌↔◌, true, false, Some, List, length, IfSome, IfNone, IsNone};
ghost use Rattle.sd_base.specs.Params.{numbers_of};
ghost use Rattle.sd_base.specs.Cutting.{next_cut};
ghost use Rattle.candidate_map.specs.Candidates.{HoldsCandidates};
ghost use Rattle.candidate_map.specs.Positions.{Has, IsFirstFrom};
ghost use Rattle.cut_walk.specs.Walk.{IsCutOn, IsUndecided};

use candidate_map::PlainMap;
use sd_base::Params;

/// The next cut from `start`. The first `known` bytes of the input are known, and `at_end` says
/// that these are all. The cut is the least position of the map at which the chunk has at least the
/// minimum and at most the maximum. If there is none, it is `start` and the maximum, or the end of
/// the input if that comes first. It returns None if that is still open. Positions count bytes. It
/// takes no memory.
///
/// The map and the walk are the second stage of SS-CDC (SYSTOR 2019). The minimum and the maximum
/// are those of LBFS (SOSP 2001, section 3.1).
pub fn next_cut(
    map: &PlainMap,
    params: &Params,
    start: u32,
    known: u32,
    at_end: bool,
) -> Option<u32>
    requires inside { start < known }
    requires mapped { known < length map.now }

    // By the map alone.
    ensures cut { IfSome result (IsCutOn (numbers_of params.now) map.now known at_end start) }
    ensures none { IsNone result
        ↔ ((at_end ≡ false) × IsUndecided (numbers_of params.now) map.now known start) }

    // If the map has the candidates of an input, which is known to its end or in part.
    ensures of_whole_input { (input : List ℕ) → HoldsCandidates (numbers_of params.now) input map.now known
        → at_end ≡ true → known ≡ length input
        → result ≡ Some (next_cut (numbers_of params.now) input start) }
    ensures of_longer_input { (input : List ℕ) → HoldsCandidates (numbers_of params.now) input map.now known
        → at_end ≡ false → known ≤ length input
        → IfSome result (λ cut. cut ≡ next_cut (numbers_of params.now) input start) }
{
    let left = known - start;
    let furthest = start + params.max.min(left);
    if let Some(candidate) = first_long_enough(map, params, start, furthest) {
        return Some(candidate);
    }
    if at_end || params.max <= left {
        Some(furthest)
    } else {
        None
    }
}

/// The first position of the map at which a chunk from `start` is long enough, if it is not past
/// `furthest`.
fn first_long_enough(map: &PlainMap, params: &Params, start: u32, furthest: u32) -> Option<u32>
    ensures first { IfSome result (IsFirstFrom map.now (start + params.now.min)) }
    ensures within { IfSome result (λ p. p ≤ furthest) }
    ensures none { IfNone result ((p : ℕ) → start + params.now.min ≤ p → p ≤ furthest → ¬ Has map.now p) }
{
    // If the sum passes `u32`, there is no such position.
    let earliest = start.checked_add(params.min)?;
    map.next_within(earliest, furthest)
}
