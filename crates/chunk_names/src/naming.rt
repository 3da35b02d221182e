//! The chunks of a text are named by workers.
ghost use Rattle.std.specs.Prelude.{◌≡◌, ℕ, ◌+◌, ◌*◌, ◌≤◌, ◌<◌, ◌^◌, IfOk, length, map};
ghost use Rattle.chunk_names.specs.Shares.{HasNamesOf};
ghost use Rattle.sd_base.specs.Commands.{AreWorkers};
ghost use Rattle.sd_base.specs.Cutting.{RiseWithin, chunks_between};
ghost use Rattle.sd_base.specs.declared.limits.TheConstants.{MAX_INPUT};

use crate::Namer;
use crate::share::name_share;
use sd_base::{Gate, OutOfMemory, Stage};
use std::alloc::Global;
use std::thread::{Threads, for_each_chunk_mut};

/// Names the chunks of a text, in order. The text is cut at `ends`, and the first chunk begins at
/// `start`. Each worker has a run of neighbouring chunks. All runs are equally long, except that
/// the last ones may be shorter or empty. A worker first calls the gate, with its own number as the
/// piece. The names are the same for every number of workers. It fails only if memory runs out.
#[tactic(auto, using(crate::proofs::Chunks::few_ends))]
pub fn name_all<H: Threads + Sync, N: Namer, G: Gate>(
    rt: &H,
    alloc: Global,
    namer: &N,
    text: &[u8],
    start: u32,
    ends: &[u32],
    workers: u32,
    batch: u32,
    gate: &G,
) -> Result<Vec<[u8; 32]>, OutOfMemory>
    requires fits { length text.now ≤ MAX_INPUT }
    requires rise { RiseWithin start (length text.now) ends.now }
    requires workers { AreWorkers workers }
    ensures names { IfOk result (λ names.
        names.items ≡ map N.name_of (chunks_between text.now start ends.now)) }
{
    let share = share_of(ends.len(), workers);
    let mut names = vec![in alloc; [0; 32]; share * workers as usize]?;
    name_by_shares(
        rt,
        namer,
        text,
        start,
        ends,
        share,
        batch,
        gate,
        names.as_mut_slice(),
    );
    names.truncate(ends.len());
    Ok(names)
}

// Names the chunks, each share of them by a worker. Places after the last chunk may have any name.
fn name_by_shares<H: Threads + Sync, N: Namer, G: Gate>(
    rt: &H,
    namer: &N,
    text: &[u8],
    start: u32,
    ends: &[u32],
    share: usize,
    batch: u32,
    gate: &G,
    names: &mut [[u8; 32]],
)
    requires rise { RiseWithin start (length text.now) ends.now }
    requires some { 0 < share }
    requires fits { length names.old < 2 ^ 32 }
    ensures len { length names.new ≡ length names.old }
    ensures names { HasNamesOf N.name_of text.now start ends.now 0 names.new }
{
    for_each_chunk_mut(
        rt,
        names,
        share,
        &|first: usize, run: &mut [[u8; 32]]|
            requires { (0 < share) × RiseWithin start (length text.now) ends.now
                × (first + length run.now < 2 ^ 32) }
            ensures { (length run.exit.now ≡ length run.entry.now)
                × HasNamesOf N.name_of text.entry.now start ends.entry.now first run.exit.now }
        {
            gate.at(Stage::Name, batch, (first / share) as u32);
            name_share(namer, text, start, ends, first, run);
        },
    );
}

// The number of chunks of a worker: all chunks have a worker, no worker has more than it must, and
// each has a place in the list of names, so that it calls the gate.
fn share_of(chunks: usize, workers: u32) -> usize
    requires fits { chunks ≤ MAX_INPUT }
    requires workers { AreWorkers workers }
    ensures some { 0 < result }
    ensures enough { chunks ≤ result * workers }
    ensures least { (share : ℕ) → 0 < share → chunks ≤ share * workers → result ≤ share }
    ensures few { result * workers < 2 ^ 32 }
{
    chunks.div_ceil(workers as usize).max(1)
}
