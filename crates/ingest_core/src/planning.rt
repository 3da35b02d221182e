//! An input is cut and its chunks are named, and nothing is kept.
ghost use Rattle.std.specs.Prelude.{◌≡◌, ◌≤◌, IfOk, length};
ghost use Rattle.ingest_core.specs.Plans.{lines_of, lines_to};
ghost use Rattle.sd_base.specs.Commands.{AreWorkers, IsSegment};
ghost use Rattle.sd_base.specs.Cutting.{RiseWithin, chunks_of};
ghost use Rattle.sd_base.specs.Params.{numbers_of};
ghost use Rattle.sd_base.specs.declared.limits.TheConstants.{MAX_INPUT};

use crate::{Line, cuts_of_text};
use chunk_names::{Namer, name_all};
use sd_base::{Gate, OutOfMemory, Params};
use std::alloc::Global;
use std::thread::Threads;

/// The chunks of an input in order: where each begins, its length and its name. Workers scan the
/// input in segments and name the chunks, as one batch of number 0. The lines are the same for every
/// number of workers and every length of a segment. It fails only if memory runs out.
pub fn plan<H: Threads + Sync, N: Namer, G: Gate>(
    rt: &H,
    alloc: Global,
    params: &Params,
    text: &[u8],
    segment: u32,
    workers: u32,
    namer: &N,
    gate: &G,
) -> Result<Vec<Line>, OutOfMemory>
    requires fits { length text.now ≤ MAX_INPUT }
    requires segment { IsSegment segment }
    requires workers { AreWorkers workers }
    ensures lines { IfOk result (λ lines.
        lines.items ≡ lines_of N.name_of 0 (chunks_of (numbers_of params.now) text.now)) }
{
    let cuts = cuts_of_text(rt, alloc, params, text, segment, workers, gate)?;
    let names = name_all(rt, alloc, namer, text, 0, &cuts, workers, 0, gate)?;
    lines_of_names(alloc, &cuts, &names)
}

// The line of each chunk, from where the chunks end and their names.
fn lines_of_names(alloc: Global, cuts: &[u32], names: &[[u8; 32]]) -> Result<Vec<Line>, OutOfMemory>
    requires rise { RiseWithin 0 MAX_INPUT cuts.now }
    requires named { length names.now ≡ length cuts.now }
    ensures lines { IfOk result (λ lines. lines.items ≡ lines_to 0 cuts.now names.now) }
{
    let mut lines = Vec::with_capacity(alloc, cuts.len())?;
    let mut offset = 0u32;
    for cut in cuts {
        lines.push(Line {
            offset,
            length: *cut - offset,
            name: names[lines.len()],
        })?;
        offset = *cut;
    }
    Ok(lines)
}
