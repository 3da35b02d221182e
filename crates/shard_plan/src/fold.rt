//! The leader of each item, by a parallel sort of keys that are read out of the names.
ghost use Rattle.std.specs.Prelude.{◌≡◌, ◌≢◌, ◌⊎◌, ◌<◌, ◌↔◌, ℕ, [], All, Contains, IfOk, IfSome, IfNone, IsTrue, length};
ghost use Rattle.shard_plan.specs.Items.{chunk_of};
ghost use Rattle.shard_plan.specs.Leaders.{leader_of, leaders_of};
ghost use Rattle.shard_plan.specs.Runs.{AreNumbered, AreSortedPairs, BeginsRun, IsLeader, key_of as name_key};
ghost use Rattle.shard_plan.specs.Shards.{IsPlanOf};

use crate::{Items, ShardPlan};
use rayon::prelude::*;
use sd_base::OutOfMemory;
use std::alloc::Global;
use std::thread::Threads;

/// For each item the least item with the same bytes, its leader. The last eight bytes of the names
/// are sorted in several threads, each with the number of its item; no bytes of chunks are moved.
/// Items that agree in these bytes are then compared with the leaders found among them, by their
/// names and their bytes. Any namer is right. One that gives many different chunks the same last
/// eight bytes makes this slow. The plan is that of the items, and this way of finding the leaders
/// does not read it. It fails only if memory runs out.
pub fn leaders_by_fold<H: Threads + Sync>(
    rt: &H,
    alloc: Global,
    items: &Items<'_>,
    _plan: &ShardPlan,
) -> Result<Vec<u32>, OutOfMemory>
    requires made { IsPlanOf _plan.now items.now.names }
    ensures leaders { IfOk result (λ leaders. leaders.items ≡ leaders_of items.now.chunks) }
{
    let pairs = sorted_pairs(rt, alloc, items)?;
    leaders_of_pairs(alloc, items, &pairs)
}

// The key and the number of each item, sorted by the key and then by the number.
fn sorted_pairs<H: Threads + Sync>(
    rt: &H,
    alloc: Global,
    items: &Items<'_>,
) -> Result<Vec<(u64, u32)>, OutOfMemory>
    ensures pairs { IfOk result (λ pairs. AreSortedPairs items.now.names pairs.items) }
{
    let mut pairs = numbered(alloc, items)?;
    par_sort_unstable(rt, pairs.as_mut_slice());
    Ok(pairs)
}

// The key and the number of each item, in the order of the numbers.
fn numbered(alloc: Global, items: &Items<'_>) -> Result<Vec<(u64, u32)>, OutOfMemory>
    ensures numbered { IfOk result (λ pairs. AreNumbered items.now.names pairs.items) }
{
    let count = items.len();
    let mut pairs = Vec::with_capacity(alloc, count as usize)?;
    for i in 0..count {
        pairs.push((key_of(items.name(i)), i))?;
    }
    Ok(pairs)
}

// The key that a name is sorted by: its last eight bytes, the high byte first. A pair of a key and a
// number is less than half as long as one of a name and a number, and is compared faster. These are
// not the first eight bytes, because a name that is a short number with zeros before it differs
// from others at its end.
fn key_of(name: &[u8; 32]) -> u64
    ensures key { result ≡ name_key name.now }
{
    let [.., b24, b25, b26, b27, b28, b29, b30, b31] = *name;
    u64::from_be_bytes([b24, b25, b26, b27, b28, b29, b30, b31])
}

// The leaders of the items, from their sorted pairs. Items of equal bytes have equal names, so they
// have equal keys: the leader of an item is in the run of its key, and not after it.
fn leaders_of_pairs(
    alloc: Global,
    items: &Items<'_>,
    pairs: &[(u64, u32)],
) -> Result<Vec<u32>, OutOfMemory>
    requires pairs { AreSortedPairs items.now.names pairs.now }
    ensures leaders { IfOk result (λ leaders. leaders.items ≡ leaders_of items.now.chunks) }
{
    let count = items.len();
    let mut leaders = vec![in alloc; 0; count as usize]?;
    let mut run = Vec::new(alloc);
    for place in 0..pairs.len() {
        begin_run(pairs, place, &mut run);
        let item = pairs[place].1;
        leaders[item as usize] = leader_in(items, &mut run, item)?;
    }
    Ok(leaders)
}

// Empties the list of a run's leaders at the first pair of the next run.
fn begin_run(pairs: &[(u64, u32)], place: usize, run: &mut Vec<u32>)
    requires inside { place < length pairs.now }
    ensures run { (run.new.items ≡ run.old.items)
        ⊎ ((run.new.items ≡ []) × BeginsRun pairs.now place) }
    ensures emptied { BeginsRun pairs.now place → run.new.items ≡ [] }
{
    if begins_run(pairs, place) {
        run.clear();
    }
}

// Whether the pair before a place has another key, or there is none.
fn begins_run(pairs: &[(u64, u32)], place: usize) -> bool
    requires inside { place < length pairs.now }
    ensures begins { IsTrue result ↔ BeginsRun pairs.now place }
{
    place == 0 || pairs[place - 1].0 != pairs[place].0
}

// The leader of the next item of a run. If no earlier item of the run has its bytes, it is a leader
// itself, and is added to those of the run.
fn leader_in(items: &Items<'_>, run: &mut Vec<u32>, item: u32) -> Result<u32, OutOfMemory>
    requires inside { item < length items.now.chunks }
    requires leaders { All (IsLeader items.now.chunks) run.old.items }
    requires found { (leader_of items.now.chunks item ≡ item)
        ⊎ Contains run.old.items (leader_of items.now.chunks item) }

    ensures leader { IfOk result (λ leader. leader ≡ leader_of items.now.chunks item) }
    ensures leaders { IfOk result (λ leader. All (IsLeader items.now.chunks) run.new.items) }
    ensures added { IfOk result (λ leader. Contains run.new.items leader) }
    ensures kept { IfOk result (λ leader. (l : ℕ) → Contains run.old.items l
        → Contains run.new.items l) }
{
    if let Some(leader) = same_in(items, run, item) {
        return Ok(leader);
    }
    run.push(item)?;
    Ok(item)
}

// The first number of a run whose item has the bytes of this one.
fn same_in(items: &Items<'_>, run: &[u32], item: u32) -> Option<u32>
    requires inside { item < length items.now.chunks }
    requires numbers { All (IsLeader items.now.chunks) run.now }
    ensures same { IfSome result (λ l. Contains run.now l
        × (chunk_of items.now l ≡ chunk_of items.now item)) }
    ensures none { IfNone result ((l : ℕ) → Contains run.now l
        → chunk_of items.now l ≢ chunk_of items.now item) }
{
    for leader in run {
        if items.same(*leader, item) {
            return Some(*leader);
        }
    }
    None
}
