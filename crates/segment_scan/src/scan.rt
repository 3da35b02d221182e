ghost use Rattle.std.specs.Prelude.{◌≡◌, ℕ, ◌+◌, ◌-◌, ◌%◌, ◌^◌, ◌<◌, ◌≤◌, ◌==◌, ◌&&◌, ◌||◌, ◌++◌, false, List, length, replicate};
ghost use Rattle.candidate_map.specs.Candidates.{HoldsCandidates};
ghost use Rattle.candidate_map.specs.Positions.{has};
ghost use Rattle.sd_base.specs.Params.{numbers_of};
ghost use Rattle.segment_scan.specs.Scan.{AddsCandidates};

use crate::low_bits::LowBits;
use candidate_map::PlainMap;
use rabin_window::Tables;
use sd_base::{Params, WINDOW};

// Bytes of a window, as a distance in a slice.
const WINDOW_SIZE: usize = WINDOW as usize;

/// Adds to the map exactly the candidates of the text above position `from` and up to and including
/// position `to`. A window that reaches back before `from` is read whole, so no candidate at the
/// edge of a range is lost. Positions count bytes. It takes no memory. The first stage of SS-CDC
/// (SYSTOR 2019).
pub fn scan_range(
    tables: &Tables,
    params: &Params,
    text: &[u8],
    from: u32,
    to: u32,
    map: &mut PlainMap,
)
    requires same_polynomial { tables.now.polynomial ≡ params.now.polynomial }
    requires ordered { from ≤ to }
    requires inside { to ≤ length text.now }
    requires mapped { length map.old ≡ length text.now + 1 }
    ensures added { AddsCandidates (numbers_of params.now) text.now from to map.old map.new }

    // A map that was empty has, up to `to`, the candidates of the text and of every longer one.
    ensures from_empty { (bits : ℕ) (rest : List ℕ) → map.old ≡ replicate bits false → from ≡ 0
        → HoldsCandidates (numbers_of params.now) (text.now ++ rest) map.new to }
{
    scan_text(tables, params, text, from, to, map);
}

// The same, without the clause on an empty map.
fn scan_text(tables: &Tables, params: &Params, text: &[u8], from: u32, to: u32, map: &mut PlainMap)
    requires same_polynomial { tables.now.polynomial ≡ params.now.polynomial }
    requires ordered { from ≤ to }
    requires inside { to ≤ length text.now }
    requires mapped { length map.old ≡ length text.now + 1 }
    ensures { AddsCandidates (numbers_of params.now) text.now from to map.old map.new }
{
    if from >= to || to < WINDOW {
        return;
    }
    let first = (from + 1).max(WINDOW);
    scan_side_by_side(tables, params, text, first, to, map);
}

// Adds the candidates from position `first` up to and including position `to`. The two halves are
// scanned side by side, so that their rolls overlap: a roll waits only for the roll before it in
// its own half. If the number of positions is odd, the halves meet between two positions; otherwise
// they overlap. Scanning a position twice adds nothing more.
fn scan_side_by_side(
    tables: &Tables,
    params: &Params,
    text: &[u8],
    first: u32,
    to: u32,
    map: &mut PlainMap,
)
    requires same_polynomial { tables.now.polynomial ≡ params.now.polynomial }
    requires whole_window { WINDOW ≤ first }
    requires ordered { first ≤ to }
    requires inside { to ≤ length text.now }
    requires mapped { length map.old ≡ length text.now + 1 }
    ensures { AddsCandidates (numbers_of params.now) text.now (first - 1) to map.old map.new }
{
    let low_bits = LowBits::new(params);
    let half = (to - first) / 2;
    let middle = to - half;
    let mut left = tables.fingerprint(&text[first as usize - WINDOW_SIZE..first as usize]);
    let mut right = tables.fingerprint(&text[middle as usize - WINDOW_SIZE..middle as usize]);
    mark(map, low_bits, left, first);
    mark(map, low_bits, right, middle);
    for p in first..first + half {
        let q = p + (middle - first);
        left = tables.roll(left, text[p as usize - WINDOW_SIZE], text[p as usize]);
        right = tables.roll(right, text[q as usize - WINDOW_SIZE], text[q as usize]);
        mark(map, low_bits, left, p + 1);
        mark(map, low_bits, right, q + 1);
    }
}

// Adds a position if the fingerprint of its window is a match.
#[inline(always)]
fn mark(map: &mut PlainMap, low_bits: LowBits, fingerprint: u64, p: u32)
    requires { p < length map.old }
    ensures bits { length map.new ≡ length map.old }
    ensures added { (q : ℕ) → has map.new q
        ≡ (has map.old q || (q == p && fingerprint % 2 ^ low_bits.bits == low_bits.target)) }
{
    if low_bits.is_match(fingerprint) {
        map.set(p);
    }
}
