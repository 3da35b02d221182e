//! Drawn bytes, for the tests of records, leaders and workers.

/// Fills bytes with the highest eight bits of the numbers of a linear congruential generator, and
/// keeps only the bits of a mask. Returns the number to go on from.
pub fn draw(bytes: &mut [u8], from: u32, mask: u8) -> u32 {
    let mut number = from;
    for byte in bytes {
        number = number.wrapping_mul(1_664_525).wrapping_add(1_013_904_223);
        *byte = (number >> 24) as u8 & mask;
    }
    number
}
