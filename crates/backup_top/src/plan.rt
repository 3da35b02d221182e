ghost use Rattle.std.specs.Prelude.{◌≡◌, ◌≤◌, ◌<◌, ◌+◌, ℕ, List, IfOk, IfSome, OnOk, IsErrOf, Option, None, drop, length, option_map, string_bytes};
ghost use Rattle.edge_traits.specs.Source.{IsAtEnd, LosesAtMost};
ghost use Rattle.sd_base.specs.Commands.{AreWorkers, IsSegment};
ghost use Rattle.sd_base.specs.Cutting.{chunks_of};
ghost use Rattle.sd_base.specs.OnePass.{pass_of_plan, pass_of_valid_plan, success};
ghost use Rattle.sd_base.specs.Parameters.{bad_parameter};
ghost use Rattle.sd_base.specs.Params.{numbers_of};
ghost use Rattle.sd_base.specs.States.{State};
ghost use Rattle.sd_base.specs.Texts.{plan_text};
ghost use Rattle.ingest_core.specs.Ingests.{IsInputOf};
ghost use Rattle.backup_top.specs.Steps.{MakesPlan};
ghost use Rattle.store_core.specs.Shelves.{CountsFaults};

use crate::plan_text::text_of_plan;
use chunk_names::Sha256Namer;
use edge_traits::{ReadFault, Source, read_all};
use sd_base::{MAX_INPUT, OpenGate, OutOfMemory, Outcome, Params, RawParams};
use std::alloc::Global;
use std::thread::Threads;

/// Cuts the input by these numbers: the text is a line for each chunk. Workers scan the input in
/// segments and name its chunks. The text of an input is the same however many they are and however
/// long a segment is: no `ensures` clause speaks of either.
pub fn plan<H: Threads + Sync, R: Source>(
    rt: &H,
    alloc: Global,
    raw: &RawParams,
    segment: u32,
    workers: u32,
    source: &mut R,
) -> Result<String, Outcome>
    requires segment { IsSegment segment }
    requires workers { AreWorkers workers }
    ensures { MakesPlan (bad_parameter raw.now) (pass_of_plan (bad_parameter raw.now) raw.now) result
        R.left R.faults R.faultless source.old source.new }
{
    match Params::new(raw.polynomial, raw.bits, raw.target, raw.min, raw.max) {
        Ok(params) => plan_valid(rt, alloc, &params, segment, workers, source),
        Err(kind) => Err(Outcome::BadParams(kind)),
    }
}

// The same with parameters that are valid.
fn plan_valid<H: Threads + Sync, R: Source>(
    rt: &H,
    alloc: Global,
    params: &Params,
    segment: u32,
    workers: u32,
    source: &mut R,
) -> Result<String, Outcome>
    requires segment { IsSegment segment }
    requires workers { AreWorkers workers }
    ensures { MakesPlan None (pass_of_valid_plan (numbers_of params.now)) result
        R.left R.faults R.faultless source.old source.new }
{
    match read_plan_text(rt, alloc, params, segment, workers, source) {
        Ok(text) => Ok(text),
        Err(ReadFault::SourceFault) => Err(Outcome::SourceFault),
        Err(ReadFault::InputTooLong) => Err(Outcome::InputTooLong),
        Err(ReadFault::OutOfMemory) => Err(Outcome::OutOfMemory),
    }
}

// Reads the input, and makes the text of `plan` on it.
fn read_plan_text<H: Threads + Sync, R: Source>(
    rt: &H,
    alloc: Global,
    params: &Params,
    segment: u32,
    workers: u32,
    source: &mut R,
) -> Result<String, ReadFault>
    requires segment { IsSegment segment }
    requires workers { AreWorkers workers }

    ensures pass { IfOk result (λ text. (input : List ℕ) × IsInputOf (R.left source.old) input
        × ((state : Option State) → pass_of_valid_plan (numbers_of params.now) state input
        ≡ success state (string_bytes text))) }
    ensures at_end { OnOk result (IsAtEnd (R.left source.new)) }

    ensures counts { CountsFaults (IsErrOf result ReadFault.SourceFault) R.faults R.faultless
        source.old source.new }
    ensures too_long { IsErrOf result ReadFault.InputTooLong
        → IfSome (R.left source.old) (λ input. MAX_INPUT < length input) }
    ensures taken { IsErrOf result ReadFault.InputTooLong
        → R.left source.new ≡ option_map (λ input. drop (MAX_INPUT + 1) input) (R.left source.old) }
    ensures fits { OnOk result (IfSome (R.left source.old) (λ input. length input ≤ MAX_INPUT)) }
    ensures taken_at_most { LosesAtMost (MAX_INPUT + 1) (R.left source.old) (R.left source.new) }
{
    let input = read_all(alloc, source, MAX_INPUT)?;
    Ok(text_of_input(rt, alloc, params, segment, workers, &input)?)
}

// The text of `plan` on an input.
fn text_of_input<H: Threads + Sync>(
    rt: &H,
    alloc: Global,
    params: &Params,
    segment: u32,
    workers: u32,
    input: &[u8],
) -> Result<String, OutOfMemory>
    requires fits { length input.now ≤ MAX_INPUT }
    requires segment { IsSegment segment }
    requires workers { AreWorkers workers }
    ensures { IfOk result (λ text.
        string_bytes text ≡ plan_text (chunks_of (numbers_of params.now) input.now)) }
{
    let namer = Sha256Namer;
    let lines = ingest_core::plan(
        rt, alloc, params, input, segment, workers, &namer, &OpenGate,
    )?;
    text_of_plan(alloc, &lines)
}
