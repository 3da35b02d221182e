use crate::maps::{has, map_of, positions_are};
use candidate_map::PlainMap;
use std::alloc::Global;

// Whether this is the next position from one position up to another, in a map of these positions.
// If there is one position, it is a member if it is the next. If there is no end, the search
// without one finds the same.
fn next_in_is(map: &PlainMap, from: u32, last: u32, next: Option<u32>) -> bool {
    map.bits() == 301
        && map.next_within(from, last) == next
        && (last != from || has(map, from) == next.is_some())
        && (last != u32::MAX || map.next_from(from) == next)
}

fn next_is(alloc: Global, positions: &[u32], from: u32, last: u32, next: Option<u32>) -> bool {
    match map_of(alloc, positions) {
        Some(map) => next_in_is(&map, from, last, next),
        None => false,
    }
}

// Positions on both sides of the edges of words.
const EDGES: &[u32] = &[63, 64, 127, 300];

const END: u32 = u32::MAX;

static NEXT: [(&[u32], u32, u32, Option<u32>); 30] = [
    (&[], 0, END, None),
    // up to the position itself, and nothing above it
    (&[100], 0, END, Some(100)),
    (&[100], 100, END, Some(100)),
    (&[100], 101, END, None),
    (&[100], 300, END, None),
    (&[100], 301, END, None),
    (&[100], END, END, None),
    // up to the last, and no further
    (&[100], 0, 99, None),
    (&[100], 0, 100, Some(100)),
    (&[100], 100, 100, Some(100)),
    (&[100], 101, 300, None),
    (&[100], 101, 100, None),
    (&[100], END, 0, None),
    // members at the edges of words
    (EDGES, 0, 0, None),
    (EDGES, 62, 62, None),
    (EDGES, 63, 63, Some(63)),
    (EDGES, 64, 64, Some(64)),
    (EDGES, 65, 65, None),
    (EDGES, 126, 126, None),
    (EDGES, 127, 127, Some(127)),
    (EDGES, 128, 128, None),
    (EDGES, 299, 299, None),
    (EDGES, 300, 300, Some(300)),
    // found at the edges of words
    (EDGES, 0, END, Some(63)),
    (EDGES, 63, END, Some(63)),
    (EDGES, 64, END, Some(64)),
    (EDGES, 65, END, Some(127)),
    (EDGES, 128, END, Some(300)),
    (EDGES, 300, END, Some(300)),
    (EDGES, 301, END, None),
];

#[test]
fn the_next_position_is_found_up_to_the_last_and_at_the_edges_of_words(rt: HostRuntime) {
    for (row, &(positions, from, last, next)) in NEXT.iter().enumerate() {
        assert!(rt;
            next_is(rt.alloc(), positions, from, last, next),
            "row {row}"
        );
    }
}

// Adds the bits of a mask at a word that lies whole in the map.
#[tactic(auto, using(crate::proofs::WordBits::bit_below))]
fn add_word(map: &mut PlainMap, word: u32, mask: u64) {
    if word < map.bits() / 64 {
        map.or_word(word, mask);
    }
}

// Adds another map, if it has as many bits.
fn add_map(map: &mut PlainMap, other: &PlainMap) {
    if map.bits() == other.bits() {
        map.or_map(other);
    }
}

// Whether a map of two positions takes the bits of two words, and three positions of another map.
fn takes_words_and_map(map: &mut PlainMap, other: &PlainMap) -> bool {
    add_word(map, 1, 0x8000_0000_0000_0001);
    add_word(map, 3, 2);
    let has_words = positions_are(map, &[1, 64, 100, 127, 193]);
    add_map(map, other);
    has_words && positions_are(map, &[1, 64, 100, 101, 127, 193, 300])
}

// Whether it is so, and the other map keeps its positions.
fn positions_are_added(alloc: Global) -> bool {
    match (map_of(alloc, &[1, 100]), map_of(alloc, &[100, 101, 300])) {
        (Some(mut map), Some(other)) => {
            takes_words_and_map(&mut map, &other) && positions_are(&other, &[100, 101, 300])
        }
        _ => false,
    }
}

// Whether a map of no bits has no position.
fn none_is_empty(alloc: Global) -> bool {
    match PlainMap::new(alloc, 0) {
        Ok(map) => map.bits() == 0 && map.next_from(0).is_none(),
        Err(_) => false,
    }
}

#[test]
fn words_and_maps_add_their_positions_to_those_of_a_map(rt: HostRuntime) {
    assert!(rt; positions_are_added(rt.alloc()));
}

#[test]
fn a_map_of_no_bits_has_no_position(rt: HostRuntime) {
    assert!(rt; none_is_empty(rt.alloc()));
}
