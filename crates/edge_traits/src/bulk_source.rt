//! A source that makes its bytes.
ghost use Rattle.std.specs.Prelude.{◌≡◌, ◌+◌, ◌*◌, ◌≤◌, ◌<◌, ◌++◌, [], ⊤, Some, length, take, IfOk, IsOk};
ghost use Rattle.sd_base.specs.Commands.{AreBlocks};
ghost use Rattle.sd_base.specs.Generator.{bulk_input};
ghost use Rattle.sd_base.specs.declared.limits.TheConstants.{MAX_BLOCKS, STATE_BYTES};

use crate::copy::copy_front;
use crate::generator::{STATE_LEN, bytes_of, fill, state_after, state_before};
use crate::{EdgeFault, Source};
use sd_base::BLOCK_STATES;

/// A source of blocks that follow from a seed: the input of `bulk`. It is observable, never fails
/// and takes no memory.
#[derive(Drop)]
pub struct BulkSource {
    seed: u64,
    // The block after this one, and how many blocks are left from there on.
    next_block: u32,
    blocks_left: u32,
    // What is left of this block: the bytes of the states after `state`, without the first `used`.
    state: u64,
    states_left: u32,
    used: usize,
    ghost few: { next_block + blocks_left ≤ MAX_BLOCKS },
    ghost in_state: { used < STATE_BYTES },
    ghost in_block: { 0 < used → 0 < states_left },
}

impl BulkSource {
    ghost use Rattle.edge_traits.specs.BulkSource.{bulk_left};

    /// A source of so many blocks from this seed.
    pub fn new(seed: u64, blocks: u32) -> Self
        requires { AreBlocks blocks }
        ensures { bulk_left result ≡ bulk_input seed blocks }
    {
        BulkSource {
            seed,
            next_block: 0,
            blocks_left: blocks,
            state: 0,
            states_left: 0,
            used: 0,
        }
    }

    // Goes on to the next block.
    fn start_block(&mut self)
        requires at_end { self.old.states_left ≡ 0 }
        requires more { 0 < self.old.blocks_left }

        ensures left { bulk_left self.new ≡ bulk_left self.old }
        ensures started { 0 < self.new.states_left }
    {
        self.state = state_before(self.seed, self.next_block);
        self.states_left = BLOCK_STATES;
        self.next_block += 1;
        self.blocks_left -= 1;
    }

    // Reads from this block: whole states if there is room for one, or otherwise a part of one.
    fn read_block(&mut self, into: &mut [u8]) -> usize
        requires { 0 < self.old.states_left }

        ensures bound { result ≤ length into.new }
        ensures given { bulk_left self.old ≡ take result into.new ++ bulk_left self.new }
        ensures some { 0 < length into.new → 0 < result }
    {
        let states = (into.len() / STATE_LEN).min(self.states_left as usize);
        if self.used == 0 && states > 0 {
            self.read_states(states, into)
        } else {
            self.read_part(into)
        }
    }

    // Reads the bytes of so many states.
    fn read_states(&mut self, states: usize, into: &mut [u8]) -> usize
        requires whole { self.old.used ≡ 0 }
        requires there { states ≤ self.old.states_left }
        requires fits { STATE_BYTES * states ≤ length into.old }

        ensures count { result ≡ STATE_BYTES * states }
        ensures given { bulk_left self.old ≡ take result into.new ++ bulk_left self.new }
        ensures same_length { length into.new ≡ length into.old }
    {
        self.state = fill(self.state, states, into);
        self.states_left -= states as u32;
        STATE_LEN * states
    }

    // Reads what is left of the next state, or as much of it as fits.
    fn read_part(&mut self, into: &mut [u8]) -> usize
        requires { 0 < self.old.states_left }

        ensures bound { result ≤ length into.new }
        ensures given { bulk_left self.old ≡ take result into.new ++ bulk_left self.new }
        ensures some { 0 < length into.new → 0 < result }
    {
        let next = state_after(self.state);
        let room = into.len();
        let count = copy_front(&bytes_of(next)[self.used..], into, room);
        if self.used + count < STATE_LEN {
            self.used += count;
        } else {
            self.used = 0;
            self.state = next;
            self.states_left -= 1;
        }
        count
    }
}

impl Source for BulkSource {
    ghost use Rattle.edge_traits.specs.BulkSource.{bulk_left};

    ghost left = { λ source. Some (bulk_left source) };

    ghost faults = { λ _. 0 };

    ghost faultless = { λ _. ⊤ };

    fn read(&mut self, into: &mut [u8]) -> Result<usize, EdgeFault>
        ensures bound { IfOk result (λ k. k ≤ length into.new) }
        ensures given { IfOk result (λ k. bulk_left self.old ≡ take k into.new ++ bulk_left self.new) }
        ensures at_end { result ≡ Ok 0 → 0 < length into.new → bulk_left self.old ≡ [] }
        // No read is refused.
        ensures served { IsOk result }
    {
        if self.states_left > 0 {
            return Ok(self.read_block(into));
        }
        if self.blocks_left == 0 {
            return Ok(0);
        }
        self.start_block();
        Ok(self.read_block(into))
    }
}
