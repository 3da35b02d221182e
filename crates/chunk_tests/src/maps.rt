//! Maps of positions, for the tests of maps, scans and cuts.
use candidate_map::PlainMap;
use std::alloc::Global;

/// The map of these positions in a text of 300 bytes.
pub fn map_of(alloc: Global, positions: &[u32]) -> Option<PlainMap> {
    let mut map = PlainMap::new(alloc, 301).ok()?;
    for p in positions {
        if *p >= map.bits() {
            return None;
        }
        map.set(*p);
    }
    Some(map)
}

/// Whether the map has a bit for a position, and the bit is set.
pub fn has(map: &PlainMap, p: u32) -> bool {
    p < map.bits() && map.get(p)
}

/// Whether these are the positions of a map, in rising order.
pub fn positions_are(map: &PlainMap, want: &[u32]) -> bool {
    let mut from = 0u32;
    for p in want {
        if map.next_from(from) != Some(*p) {
            return false;
        }
        from = p.saturating_add(1);
    }
    map.next_from(from).is_none()
}
