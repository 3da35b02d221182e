ghost use Rattle.std.specs.Prelude.{◌≡◌, ◌≤◌, IfOk, length};
ghost use Rattle.sd_base.specs.Commands.{AreWorkers, IsSegment};
ghost use Rattle.sd_base.specs.Cutting.{cuts_of};
ghost use Rattle.sd_base.specs.Params.{numbers_of};
ghost use Rattle.sd_base.specs.declared.limits.TheConstants.{MAX_INPUT};

use cut_walk::cuts_from;
use sd_base::{Gate, OutOfMemory, Params};
use segment_scan::scan_all;
use std::alloc::Global;
use std::thread::Threads;

/// The cuts of an input, in order, in two stages after SS-CDC (SYSTOR 2019): workers scan its
/// segments and mark the candidates in a map, and a walk over the map applies the minimum and the
/// maximum. The input is one batch of number 0. The cuts are the same for every number of workers and
/// every length of a segment. It fails only if memory runs out.
pub fn cuts_of_text<H: Threads + Sync, G: Gate>(
    rt: &H,
    alloc: Global,
    params: &Params,
    text: &[u8],
    segment: u32,
    workers: u32,
    gate: &G,
) -> Result<Vec<u32>, OutOfMemory>
    requires fits { length text.now ≤ MAX_INPUT }
    requires segment { IsSegment segment }
    requires workers { AreWorkers workers }
    ensures cuts { IfOk result (λ cuts. cuts.items ≡ cuts_of (numbers_of params.now) text.now) }
{
    let map = scan_all(rt, alloc, params, text, segment, workers, 0, gate)?;
    cuts_from(alloc, &map, params, 0, text.len() as u32, true)
}
