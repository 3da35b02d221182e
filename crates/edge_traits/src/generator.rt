//! The bytes that follow from a seed, as the definitions of `sd_base` have them.
ghost use Rattle.std.specs.Prelude.{◌≡◌, ◌*◌, ◌≤◌, length, take};
ghost use Rattle.std.specs.Fn.{iterate};
ghost use Rattle.sd_base.specs.Generator.{bytes_after, bytes_of_state, first_state, next_state, origin_of};

use sd_base::STATE_BYTES;

/// Bytes that a state gives.
pub(crate) const STATE_LEN: usize = STATE_BYTES as usize;

/// The multiplier of a step from a state to the next, one of the table in D. E. Knuth, The Art of
/// Computer Programming, volume 2, section 3.3.4.
const MULTIPLIER: u64 = 6_364_136_223_846_793_005;

/// What a step adds.
const INCREMENT: u64 = 1_442_695_040_888_963_407;

/// By how much the state before a block is greater than that of the origin before: the fraction of
/// the golden ratio in 64 bits.
const ORIGIN_STEP: u64 = 0x9E37_79B9_7F4A_7C15;

/// The state before the first one of a block.
pub(crate) fn state_before(seed: u64, block: u32) -> u64
    ensures { result ≡ first_state seed (origin_of block) }
{
    let origin = origin_of(block);
    seed.wrapping_add(ORIGIN_STEP.wrapping_mul(u64::from(origin) + 1))
}

// The block whose bytes this one has.
fn origin_of(block: u32) -> u32
    ensures { result ≡ origin_of block }
{
    if block % 4 == 3 { block - 3 } else { block }
}

/// The state after this one.
pub(crate) fn state_after(state: u64) -> u64
    ensures { result ≡ next_state state }
{
    state.wrapping_mul(MULTIPLIER).wrapping_add(INCREMENT)
}

/// The bytes of a state.
pub(crate) fn bytes_of(state: u64) -> [u8; STATE_LEN]
    ensures { result ≡ bytes_of_state state }
{
    ((state >> 32) as u32).to_be_bytes()
}

/// Puts the bytes of the next states into the front of the buffer, and returns the last of them.
pub(crate) fn fill(state: u64, states: usize, into: &mut [u8]) -> u64
    requires { STATE_BYTES * states ≤ length into.old }

    ensures bytes { take (STATE_BYTES * states) into.new ≡ bytes_after state states }
    ensures state { result ≡ iterate next_state states state }
    ensures same_length { length into.new ≡ length into.old }
{
    let mut last = state;
    for i in 0..states {
        last = state_after(last);
        let at = STATE_LEN * i;
        into[at..at + STATE_LEN].copy_from_slice(&bytes_of(last));
    }
    last
}
