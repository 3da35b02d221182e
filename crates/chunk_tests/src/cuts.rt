use crate::maps::map_of;
use candidate_map::PlainMap;
use cut_walk::{cuts_from, next_cut};
use sd_base::Params;
use std::alloc::Global;

// Where cuts are looked for: the start, how many bytes are known, and whether these are all.
type Bounds = (u32, u32, bool);

// Whether this is the next cut in a map that has a bit for each known position, or there is no more
// to cut.
fn next_is(map: &PlainMap, params: &Params, from: Bounds, want: Option<u32>) -> bool {
    let (start, known, at_end) = from;
    if start < known && known < map.bits() {
        next_cut(map, params, start, known, at_end) == want
    } else {
        start == known && want.is_none()
    }
}

// The cuts in such a map.
fn cuts_in(alloc: Global, map: &PlainMap, params: &Params, from: Bounds) -> Option<Vec<u32>> {
    let (start, known, at_end) = from;
    if start > known || known >= map.bits() {
        return None;
    }
    cuts_from(alloc, map, params, start, known, at_end).ok()
}

// Whether these are the cuts in such a map, and the next cut is the first of them.
fn cuts_are(alloc: Global, map: &PlainMap, params: &Params, from: Bounds, want: &[u32]) -> bool {
    match cuts_in(alloc, map, params, from) {
        Some(cuts) => {
            cuts.as_slice() == want && next_is(map, params, from, want.first().copied())
        }
        None => false,
    }
}

// The same in a text of 300 bytes with these candidates and chunks of 64 to `max` bytes.
fn cuts_of_text_are(
    alloc: Global,
    max: u32,
    positions: &[u32],
    from: Bounds,
    want: &[u32],
) -> bool {
    let params = Params::new(0x8000_0000_0000_0001, 13, 1, 64, max);
    match (params, map_of(alloc, positions)) {
        (Ok(params), Some(map)) => cuts_are(alloc, &map, &params, from, want),
        _ => false,
    }
}

static CUTS: [(u32, &[u32], Bounds, &[u32]); 22] = [
    // the next candidate is past what is known, is known, or does not exist
    (256, &[100], (0, 80, false), &[]),
    (256, &[100], (0, 100, false), &[100]),
    (256, &[100], (100, 300, false), &[]),
    (256, &[100], (100, 300, true), &[300]),
    (256, &[100], (0, 300, true), &[100, 300]),
    (256, &[100], (0, 300, false), &[100]),
    (256, &[100], (300, 300, true), &[]),
    // at the minimum and one below
    (256, &[64], (0, 80, false), &[64]),
    (256, &[63], (0, 80, false), &[]),
    (256, &[63], (0, 80, true), &[80]),
    (256, &[63, 64, 164, 300], (0, 300, true), &[64, 164, 300]),
    // at the maximum and one above
    (256, &[256], (0, 300, false), &[256]),
    (256, &[257], (0, 300, false), &[256]),
    (256, &[257], (0, 256, false), &[256]),
    (256, &[257], (0, 255, false), &[]),
    (256, &[257], (0, 255, true), &[255]),
    // at the end of what is known, and past it
    (256, &[300], (100, 300, false), &[300]),
    (256, &[300], (100, 299, false), &[]),
    (256, &[300], (100, 299, true), &[299]),
    // the minimum is the maximum
    (64, &[50, 64, 100], (0, 63, false), &[]),
    (64, &[50, 64, 100], (0, 64, false), &[64]),
    (64, &[50, 64, 100], (0, 140, true), &[64, 128, 140]),
];

#[test]
fn a_cut_is_at_the_next_candidate_the_maximum_or_the_end(rt: HostRuntime) {
    for (row, &(max, positions, from, want)) in CUTS.iter().enumerate() {
        assert!(rt;
            cuts_of_text_are(rt.alloc(), max, positions, from, want),
            "row {row}"
        );
    }
}
