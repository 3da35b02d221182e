ghost use Rattle.std.specs.Prelude.{◌≡◌, ℕ, ◌+◌, ◌*◌, ◌<◌, ◌≤◌, ◌++◌, false, List, length, min, replicate, IfOk};
ghost use Rattle.std.specs.Thread.{IsSync};
ghost use Rattle.candidate_map.specs.Candidates.{HoldsCandidates};
ghost use Rattle.sd_base.specs.Commands.{AreWorkers, IsSegment};
ghost use Rattle.sd_base.specs.Params.{numbers_of};
ghost use Rattle.sd_base.specs.declared.limits.TheConstants.{MAX_INPUT};
ghost use Rattle.segment_scan.specs.Scan.{AddsCandidates, HoldsShares};

use crate::scan::scan_range;
use candidate_map::PlainMap;
use rabin_window::Tables;
use sd_base::{Gate, OutOfMemory, Params, Stage};
use std::alloc::Global;
use std::thread::{Threads, join};

// What the workers of a scan share. The segments go to the workers in turn.
#[derive(Drop)]
struct Work<'a, G> {
    tables: &'a Tables,
    params: &'a Params,
    text: &'a [u8],
    segment: u32,
    workers: u32,
    batch: u32,
    gate: &'a G,
    ghost same_polynomial: { tables.now.polynomial ≡ params.now.polynomial },
    ghost short: { length text.now ≤ MAX_INPUT },
    ghost segment_in_range: { IsSegment segment },
    ghost workers_in_range: { AreWorkers workers },
}

/// Finds the candidates of a text by workers. The positions from 1 on are divided into segments of
/// `segment` positions, and the workers take the segments in turn: of three workers, the first scans
/// segments 0, 3, 6 and so on. A worker calls the gate before it scans a segment. The first windows
/// of a segment begin in the segment before it. Each worker has a map of its own, and the maps are
/// merged word by word. It fails only if memory runs out.
pub fn scan_all<H: Threads + Sync, G: Gate>(
    rt: &H,
    alloc: Global,
    params: &Params,
    text: &[u8],
    segment: u32,
    workers: u32,
    batch: u32,
    gate: &G,
) -> Result<PlainMap, OutOfMemory>
    requires short { length text.now ≤ MAX_INPUT }
    requires segment_in_range { IsSegment segment }
    requires workers_in_range { AreWorkers workers }
    ensures bits { IfOk result (λ map. length map ≡ length text.now + 1) }

    // The map has the candidates of the text, and of every longer one up to the end of this one.
    ensures candidates { IfOk result (λ map. (rest : List ℕ)
        → HoldsCandidates (numbers_of params.now) (text.now ++ rest) map (length text.now)) }
{
    let segments = (text.len() as u32).div_ceil(segment);
    let work = Work {
        tables: &Tables::new(params),
        params,
        text,
        segment,
        // A worker beyond the number of segments would have none, so it makes no map.
        workers: workers.min(segments.max(1)),
        batch,
        gate,
    };
    scan_shares(rt, alloc, &work, 0, work.workers)
}

// The map of the candidates of the workers from `low` up to but not including `high`.
fn scan_shares<H: Threads + Sync, G: Gate>(
    rt: &H,
    alloc: Global,
    work: &Work<G>,
    low: u32,
    high: u32,
) -> Result<PlainMap, OutOfMemory>
    requires some { low < high }
    requires of_the_workers { high ≤ work.now.workers }
    ensures { IfOk result (λ map. HoldsShares (numbers_of work.now.params.now) work.now.text.now
        work.now.segment work.now.workers low high map) }
{
    if high - low == 1 {
        return share(alloc, work, low);
    }
    let middle = low + (high - low) / 2;
    let front = || -> Result<PlainMap, OutOfMemory>
        requires { IsSync H.row × IsSync G.row × (low < middle) × (middle ≤ work.now.workers) }
        ensures { IfOk result (λ map. HoldsShares (numbers_of work.entry.now.params.now)
            work.entry.now.text.now work.entry.now.segment work.entry.now.workers low middle map) }
    { scan_shares(rt, alloc, work, low, middle) };
    let back = || -> Result<PlainMap, OutOfMemory>
        requires { IsSync H.row × IsSync G.row × (middle < high) × (high ≤ work.now.workers) }
        ensures { IfOk result (λ map. HoldsShares (numbers_of work.entry.now.params.now)
            work.entry.now.text.now work.entry.now.segment work.entry.now.workers middle high map) }
    { scan_shares(rt, alloc, work, middle, high) };
    let (first, second) = join(rt, front, back);
    let mut map = first?;
    map.or_map(&second?);
    Ok(map)
}

// The map of the candidates of one worker.
fn share<G: Gate>(alloc: Global, work: &Work<G>, worker: u32) -> Result<PlainMap, OutOfMemory>
    requires of_the_workers { worker < work.now.workers }
    ensures { IfOk result (λ map. HoldsShares (numbers_of work.now.params.now) work.now.text.now
        work.now.segment work.now.workers worker (worker + 1) map) }
{
    let mut map = PlainMap::new(alloc, work.text.len() as u32 + 1)?;
    scan_share(work, worker, &mut map);
    Ok(map)
}

// Adds the candidates of one worker to an empty map.
fn scan_share<G: Gate>(work: &Work<G>, worker: u32, map: &mut PlainMap)
    requires of_the_workers { worker < work.now.workers }
    requires empty { map.old ≡ replicate (length work.now.text.now + 1) false }
    ensures { HoldsShares (numbers_of work.now.params.now) work.now.text.now
        work.now.segment work.now.workers worker (worker + 1) map.new }
{
    let end = work.text.len() as u32;
    let segments = end.div_ceil(work.segment);
    let turns = segments.saturating_sub(worker).div_ceil(work.workers);
    for turn in 0..turns {
        scan_segment(work, turn * work.workers + worker, map);
    }
}

// Adds the candidates of one segment to the map, after a call of the gate.
fn scan_segment<G: Gate>(work: &Work<G>, k: u32, map: &mut PlainMap)
    requires inside { k * work.now.segment < length work.now.text.now }
    requires mapped { length map.old ≡ length work.now.text.now + 1 }
    ensures added { AddsCandidates (numbers_of work.now.params.now) work.now.text.now
        (k * work.now.segment)
        (min (k * work.now.segment + work.now.segment) (length work.now.text.now))
        map.old map.new }
{
    work.gate.at(Stage::Scan, work.batch, k);
    let from = k * work.segment;
    let to = (from + work.segment).min(work.text.len() as u32);
    scan_range(work.tables, work.params, work.text, from, to, map);
}
