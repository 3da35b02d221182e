//! The bytes of `BulkSource`. Those that are expected were worked out by another implementation.
use edge_traits::{BulkSource, ReadFault, Source, read_all};

/// Bytes of a block.
const BLOCK: usize = 65_536;

/// The first and the last bytes of the blocks 0 to 2 from the seed 7, by their offsets.
static KNOWN: [(usize, [u8; 8]); 6] = [
    (0, [151, 40, 155, 94, 133, 29, 161, 187]),
    (65_528, [131, 41, 205, 5, 123, 149, 147, 123]),
    (65_536, [176, 14, 14, 1, 21, 149, 40, 246]),
    (131_064, [46, 195, 26, 97, 94, 21, 58, 220]),
    (131_072, [200, 243, 128, 164, 166, 12, 176, 50]),
    (196_600, [218, 92, 103, 189, 64, 148, 226, 62]),
];

/// The blocks 0 to 3 from the seed 7.
fn four_blocks(rt: HostRuntime) -> Result<Vec<u8>, ReadFault> {
    let mut source = BulkSource::new(7, 4);
    read_all(rt.alloc(), &mut source, 1 << 28)
}

fn are_known(bytes: &[u8]) -> bool {
    for (offset, known) in &KNOWN {
        if bytes.get(*offset..*offset + 8) != Some(known.as_slice()) {
            return false;
        }
    }
    true
}

/// Whether the last of four blocks repeats the first.
fn repeats(bytes: &[u8]) -> bool {
    bytes.len() == 4 * BLOCK && bytes.get(3 * BLOCK..) == bytes.get(..BLOCK)
}

fn is_generated(rt: HostRuntime) -> bool {
    match four_blocks(rt) {
        Ok(bytes) => are_known(bytes.as_slice()) && repeats(bytes.as_slice()),
        Err(_) => false,
    }
}

#[test]
fn every_fourth_block_is_the_one_three_before(rt: HostRuntime) {
    assert!(rt; is_generated(rt));
}

/// The sizes of buffers, one after another: parts of a state, and whole ones.
static SIZES: [usize; 8] = [1, 3, 6, 4099, 2, 5, 4097, 4];

/// What comes after the next bytes of a source, if these come first.
fn after_read<'a>(source: &mut BulkSource, size: usize, bytes: &'a [u8]) -> Option<&'a [u8]> {
    let mut into = [0u8; 4099];
    match source.read(into.get_mut(..size)?) {
        Ok(count) => bytes.strip_prefix(into.get(..count)?),
        Err(_) => None,
    }
}

/// Whether reads of all sizes, again and again, return the first bytes of these, past three blocks.
fn are_read_in_parts(bytes: &[u8]) -> bool {
    let mut source = BulkSource::new(7, 4);
    let mut left = bytes;
    for turn in 0..208usize {
        match after_read(&mut source, SIZES[turn % 8], left) {
            Some(later) => left = later,
            None => return false,
        }
    }
    left.len() < BLOCK
}

fn is_the_same_in_parts(rt: HostRuntime) -> bool {
    match four_blocks(rt) {
        Ok(bytes) => are_read_in_parts(bytes.as_slice()),
        Err(_) => false,
    }
}

#[test]
fn buffers_of_any_size_receive_the_same_bytes(rt: HostRuntime) {
    assert!(rt; is_the_same_in_parts(rt));
}
