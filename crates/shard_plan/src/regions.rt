//! The shards of names and their regions of words.
ghost use Rattle.std.specs.Prelude.{◌≡◌, ◌*◌, ◌+◌, ◌^◌, ◌<◌, ◌≤◌, ℕ, IfOk, length, take, slice_index};
ghost use Rattle.std.specs.List.{sum};
ghost use Rattle.sd_base.specs.declared.limits.TheConstants.{MAX_INPUT};
ghost use Rattle.shard_plan.specs.RegionFields.{AreFirsts};
ghost use Rattle.shard_plan.specs.Shards.{AreShards, IsPlanOf, shard_of as shard_of_name, size_of};

use crate::Items;
use sd_base::OutOfMemory;
use std::alloc::Global;
use std::marker::Model;

/// Words of a region for each item of its shard: at most half of the words are taken, so that the
/// search for a free one is short.
const WORDS_PER_ITEM: u32 = 2;

/// The regions of the shards in a table of words. The shard of a name is its first four bytes, the
/// high byte first, modulo the number of shards. The regions follow one another in the order of the
/// shards, and each has twice as many words as its shard has items. A clause sees the list of the
/// numbers of items, one for each shard. Only `new` takes memory.
#[derive(Drop)]
pub struct ShardPlan {
    sizes: Vec<u32>,
    // The first word of each region.
    firsts: Vec<u32>,
    words: u32,
}

impl Model for ShardPlan {
    ghost use Rattle.std.specs.Prelude.{ℕ, List};

    ghost Value = { List ℕ };

    ghost use Rattle.shard_plan.specs.RegionFields.{IsPlan};

    ghost view = { λ plan. plan.sizes.items };

    ghost invariant = { IsPlan };
}

impl ShardPlan {
    /// The plan of these items. It fails only if memory runs out.
    pub fn new(alloc: Global, items: &Items<'_>, shards: u32) -> Result<ShardPlan, OutOfMemory>
        requires shards { AreShards shards }
        ensures shards { IfOk result (λ plan. length plan ≡ shards) }
        ensures sizes { IfOk result (λ plan. IsPlanOf plan items.now.names) }
        ensures all { IfOk result (λ plan. sum plan ≡ length items.now.chunks) }
    {
        let count = items.len();
        let sizes = sizes_of(alloc, items.names(), shards)?;
        let firsts = firsts_of(alloc, &sizes)?;
        Ok(ShardPlan {
            sizes,
            firsts,
            words: WORDS_PER_ITEM * count,
        })
    }

    /// The first word of the region of a shard, and how many words it has.
    pub fn region(&self, shard: u32) -> (u32, u32)
        requires inside { shard < length self.now }
        ensures first { result.0 ≡ 2 * sum (take shard self.now) }
        ensures words { result.1 ≡ 2 * slice_index self.now shard }
    {
        (
            self.firsts[shard as usize],
            WORDS_PER_ITEM * self.sizes[shard as usize],
        )
    }

    /// The words of all regions.
    pub fn words(&self) -> u32
        ensures words { result ≡ 2 * sum self.now }
    {
        self.words
    }

    /// The shard of a name.
    pub fn shard_of(&self, name: &[u8; 32]) -> u32
        ensures shard { result ≡ shard_of_name (length self.now) name.now }
        ensures inside { result < length self.now }
    {
        shard_of(self.sizes.len() as u32, name)
    }
}

// How many names each shard has.
fn sizes_of(alloc: Global, names: &[[u8; 32]], shards: u32) -> Result<Vec<u32>, OutOfMemory>
    requires some { 0 < shards }
    requires few { length names.now ≤ MAX_INPUT }
    ensures len { IfOk result (λ sizes. length sizes.items ≡ shards) }
    ensures sizes { IfOk result (λ sizes. (s : ℕ) → s < shards
        → slice_index sizes.items s ≡ size_of shards names.now s) }
    ensures all { IfOk result (λ sizes. sum sizes.items ≡ length names.now) }
{
    let mut sizes = vec![in alloc; 0; shards as usize]?;
    for name in names {
        sizes[shard_of(shards, name) as usize] += 1;
    }
    Ok(sizes)
}

// The first words of regions of these sizes.
fn firsts_of(alloc: Global, sizes: &[u32]) -> Result<Vec<u32>, OutOfMemory>
    requires few { 2 * sum sizes.now < 2 ^ 32 }
    ensures firsts { IfOk result (λ firsts. AreFirsts sizes.now firsts.items) }
{
    let mut firsts = Vec::with_capacity(alloc, sizes.len())?;
    let mut next = 0;
    for size in sizes {
        firsts.push(next)?;
        next += WORDS_PER_ITEM * *size;
    }
    Ok(firsts)
}

// The shard of a name.
fn shard_of(shards: u32, name: &[u8; 32]) -> u32
    requires some { 0 < shards }
    ensures shard { result ≡ shard_of_name shards name.now }
    ensures inside { result < shards }
{
    let [b0, b1, b2, b3, ..] = *name;
    u32::from_be_bytes([b0, b1, b2, b3]) % shards
}
