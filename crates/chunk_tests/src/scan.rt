use crate::maps::{has, positions_are};
use candidate_map::PlainMap;
use rabin_window::Tables;
use sd_base::Params;
use segment_scan::scan_range;
use std::alloc::Global;

// A text of 300 bytes, of which these are 1 and all others are 0.
fn text_of_ones(ones: &[usize]) -> [u8; 300] {
    let mut text = [0; 300];
    for index in ones {
        if let Some(byte) = text.get_mut(*index) {
            *byte = 1;
        }
    }
    text
}

// Scans a range of such a text. Returns whether it is one and the map has a bit for each position.
fn scan(params: &Params, text: &[u8; 300], from: u32, to: u32, map: &mut PlainMap) -> bool {
    if from <= to && to <= 300 && map.bits() == 301 {
        scan_range(&Tables::new(params), params, text, from, to, map);
        return true;
    }
    false
}

// The candidates of such a text between two positions, found in ranges of `step` positions.
//
// Modulo this polynomial the power 63 is 1, so a byte of 1 with k zero bytes after it is the power
// 8 * k modulo 63. Of the windows with one byte of 1 and otherwise zeros, only the one that ends
// with that byte has the target 1.
fn candidates(
    alloc: Global,
    target: u32,
    ones: &[usize],
    from: u32,
    to: u32,
    step: u32,
) -> Option<PlainMap> {
    let params = Params::new(0x8000_0000_0000_0001, 13, target, 64, 256).ok()?;
    let text = text_of_ones(ones);
    let mut map = PlainMap::new(alloc, 301).ok()?;
    let mut at = from;
    for _ in 0..300u32 {
        let end = at.saturating_add(step).min(to);
        if !scan(&params, &text, at, end, &mut map) {
            return None;
        }
        at = end;
    }
    Some(map)
}

// Whether these are the candidates for the target 1.
fn candidates_are(
    alloc: Global,
    ones: &[usize],
    from: u32,
    to: u32,
    step: u32,
    want: &[u32],
) -> bool {
    match candidates(alloc, 1, ones, from, to, step) {
        Some(map) => positions_are(&map, want),
        None => false,
    }
}

const SIX: &[usize] = &[47, 95, 143, 191, 239, 299];

const AFTER_SIX: &[u32] = &[48, 96, 144, 192, 240, 300];

static RANGES: [(&[usize], u32, u32, u32, &[u32]); 13] = [
    (&[99], 0, 300, 300, &[100]),
    // the first position with a whole window before it, and the end of the text
    (&[47], 0, 300, 300, &[48]),
    (&[46], 0, 300, 300, &[]),
    (&[299], 0, 300, 300, &[300]),
    // at the edges of a range, where the window reaches back before it
    (&[99], 0, 99, 300, &[]),
    (&[99], 99, 100, 300, &[100]),
    (&[99], 99, 300, 300, &[100]),
    (&[99], 100, 300, 300, &[]),
    // ranges of any length
    (SIX, 0, 300, 300, AFTER_SIX),
    (SIX, 0, 300, 1, AFTER_SIX),
    (SIX, 0, 300, 47, AFTER_SIX),
    (SIX, 0, 300, 48, AFTER_SIX),
    (SIX, 0, 300, 65, AFTER_SIX),
];

#[test]
fn a_candidate_is_found_in_the_ranges_that_hold_its_position(rt: HostRuntime) {
    for (row, &(ones, from, to, step, want)) in RANGES.iter().enumerate() {
        assert!(rt;
            candidates_are(rt.alloc(), ones, from, to, step, want),
            "row {row}"
        );
    }
}

// Whether the positions of a map are those from `first` on.
fn positions_begin_at(map: &PlainMap, first: u32) -> bool {
    for p in 0..map.bits() {
        if has(map, p) != (first <= p) {
            return false;
        }
    }
    true
}

// Whether each whole window of zeros is found with the target 0, and nothing before.
fn every_window_is_found(alloc: Global, step: u32) -> bool {
    match candidates(alloc, 0, &[], 0, 300, step) {
        Some(map) => map.bits() == 301 && positions_begin_at(&map, 48),
        None => false,
    }
}

#[test]
fn every_window_of_zeros_is_found_with_target_0(rt: HostRuntime) {
    for step in [300, 1, 47, 48, 65] {
        assert!(rt; every_window_is_found(rt.alloc(), step), "ranges of {step}");
    }
}
