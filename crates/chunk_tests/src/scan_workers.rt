use crate::drawn::draw;
use crate::gates::Watch;
use crate::maps::{has, positions_are};
use candidate_map::PlainMap;
use rabin_window::Tables;
use sd_base::{Params, Stage};
use segment_scan::{scan_all, scan_range};
use std::alloc::Global;
use std::thread::Threads;

// Modulo this polynomial the power 63 is 1, so a byte of 1 with k zero bytes after it is the power
// 8 * k modulo 63. Under the target 0 each window of zeros is a match.
const POLYNOMIAL: u64 = 0x8000_0000_0000_0001;

// Bytes of a text that has a second segment if segments have 4096 bytes.
const TEXT_SIZE: usize = 4200;

// Segments of this many positions, and this many workers.
type Shares = (u32, u32);

// Bits and target.
type Target = (u32, u32);

// The candidates that workers find in a text, if the numbers are in their ranges.
fn found_by<H: Threads + Sync>(
    rt: &H,
    alloc: Global,
    target: Target,
    text: &[u8],
    shares: Shares,
    gate: &Watch,
) -> Option<PlainMap> {
    let params = Params::new(POLYNOMIAL, target.0, target.1, 64, 256).ok()?;
    let (segment, workers) = shares;
    if text.len() > TEXT_SIZE
        || segment == 0
        || segment > 268_435_456
        || workers == 0
        || workers > 64
    {
        return None;
    }
    scan_all(rt, alloc, &params, text, segment, workers, 7, gate).ok()
}

// The candidates of a text, found in one range.
fn found_in_one(alloc: Global, target: Target, text: &[u8; TEXT_SIZE]) -> Option<PlainMap> {
    let params = Params::new(POLYNOMIAL, target.0, target.1, 64, 256).ok()?;
    let mut map = PlainMap::new(alloc, 4201).ok()?;
    scan_range(&Tables::new(&params), &params, text, 0, 4200, &mut map);
    Some(map)
}

// Whether two maps have the same bits.
fn are_same(found: &PlainMap, wanted: &PlainMap) -> bool {
    for p in 0..wanted.bits() {
        if has(found, p) != has(wanted, p) {
            return false;
        }
    }
    found.bits() == wanted.bits()
}

// Whether workers find the same candidates in a text as one range.
fn workers_find_same<H: Threads + Sync>(
    rt: &H,
    alloc: Global,
    text: &[u8; TEXT_SIZE],
    shares: Shares,
) -> bool {
    let gate = Watch::new(Stage::Scan, 0);
    match (
        found_by(rt, alloc, (1, 1), text, shares, &gate),
        found_in_one(alloc, (1, 1), text),
    ) {
        (Some(found), Some(wanted)) => are_same(&found, &wanted),
        _ => false,
    }
}

// Whether it is so in a drawn text, of which about half of the windows are candidates under one low
// bit.
fn workers_find_all<H: Threads + Sync>(rt: &H, alloc: Global, shares: Shares) -> bool {
    let mut text = [0; TEXT_SIZE];
    draw(&mut text, 1, 0xff);
    workers_find_same(rt, alloc, &text, shares)
}

#[test]
fn workers_find_the_candidates_at_every_edge(rt: HostRuntime) {
    for segment in [1, 47, 48, 49, 65, 4096, 268_435_456] {
        for workers in [1, 2, 3, 4, 64] {
            let right = workers_find_all(&rt, rt.alloc(), (segment, workers));
            assert!(rt; right, "segment {segment}, workers {workers}");
        }
    }
}

// Whether 64 workers find this first candidate in zeros, and their map has a bit for each position.
fn first_is<H: Threads + Sync>(rt: &H, alloc: Global, zeros: &[u8], want: Option<u32>) -> bool {
    match found_by(
        rt,
        alloc,
        (13, 0),
        zeros,
        (1, 64),
        &Watch::new(Stage::Scan, 0),
    ) {
        Some(map) => map.bits() as usize == zeros.len() + 1 && map.next_from(0) == want,
        None => false,
    }
}

#[test]
fn short_texts_are_scanned_to_their_end(rt: HostRuntime) {
    assert!(rt; first_is(&rt, rt.alloc(), &[], None));
    assert!(rt; first_is(&rt, rt.alloc(), &[0], None));
    assert!(rt; first_is(&rt, rt.alloc(), &[0; 47], None));
    assert!(rt; first_is(&rt, rt.alloc(), &[0; 48], Some(48)));
}

// Whether workers find position 100 alone in a text of 300 bytes, of which byte 99 is 1 and all
// others are 0, and begin these segments once each.
fn segments_are<H: Threads + Sync>(
    rt: &H,
    alloc: Global,
    shares: Shares,
    segments: u64,
    bits: u64,
) -> bool {
    let mut text = [0; 300];
    text[99] = 1;
    let gate = Watch::new(Stage::Scan, 0);
    match found_by(rt, alloc, (13, 1), &text, shares, &gate) {
        Some(map) => positions_are(&map, &[100]) && gate.has_noted(bits, segments),
        None => false,
    }
}

#[test]
fn the_gate_is_called_once_for_each_segment(rt: HostRuntime) {
    for (segment, segments, bits) in [
        (5, 60, u64::MAX >> 4),
        (65, 5, 31),
        (100, 3, 7),
        (300, 1, 1),
        (4096, 1, 1),
    ] {
        for workers in [1, 2, 3, 4, 64] {
            let right = segments_are(&rt, rt.alloc(), (segment, workers), segments, bits);
            assert!(rt; right, "segment {segment}, workers {workers}");
        }
    }
}

// Whether four workers scan four segments of zeros, each held until all four have begun.
fn four_are_held<H: Threads + Sync>(rt: &H, alloc: Global) -> bool {
    let gate = Watch::new(Stage::Scan, 15);
    match found_by(rt, alloc, (13, 0), &[0; 4096], (1024, 4), &gate) {
        Some(map) => map.next_from(0) == Some(48) && gate.has_noted(15, 4),
        None => false,
    }
}

#[test]
fn four_workers_scan_at_the_same_time(rt: HostRuntime) {
    assert!(rt; four_are_held(&rt, rt.alloc()));
}
