//! Repeats inside an input are found.
ghost use Rattle.std.specs.Prelude.{◌≡◌, ◌≤◌, IfOk, length};
ghost use Rattle.sd_base.specs.Cutting.{RiseWithin, chunks_between};
ghost use Rattle.sd_base.specs.declared.limits.TheConstants.{MAX_INPUT};
ghost use Rattle.shard_plan.specs.Items.{AreNamed};
ghost use Rattle.shard_plan.specs.Leaders.{leaders_of};
ghost use Rattle.shard_plan.specs.Shards.{AreShards};

use sd_base::OutOfMemory;
use shard_plan::{Items, ShardPlan, leaders_by_fold};
use std::alloc::Global;
use std::thread::Threads;

/// The leader of each chunk of an input with these ends and names: the first chunk with the same
/// bytes. The leaders are the same for every number of shards. It fails only if memory runs out.
pub(crate) fn leaders_of_text<H: Threads + Sync>(
    rt: &H,
    alloc: Global,
    text: &[u8],
    ends: &[u32],
    names: &[[u8; 32]],
    shards: u32,
) -> Result<Vec<u32>, OutOfMemory>
    requires fits { length text.now ≤ MAX_INPUT }
    requires rise { RiseWithin 0 (length text.now) ends.now }
    requires named { AreNamed (chunks_between text.now 0 ends.now) names.now }
    requires shards { AreShards shards }
    ensures leaders { IfOk result (λ leaders.
        leaders.items ≡ leaders_of (chunks_between text.now 0 ends.now)) }
{
    let items = Items::new(text, 0, ends, names);
    let plan = ShardPlan::new(alloc, &items, shards)?;
    leaders_by_fold(rt, alloc, &items, &plan)
}
