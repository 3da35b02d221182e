ghost use Rattle.std.specs.Prelude.{◌≡◌, ℕ, IfErr, IfOk, IfSome, List, Ok, string_bytes};
ghost use Rattle.ingest_core.specs.Faults.{outcome_of};
ghost use Rattle.ingest_core.specs.Ingests.{IsInputOf};
ghost use Rattle.sd_base.specs.Commands.{IsHow};
ghost use Rattle.sd_base.specs.OnePass.{in_store, pass_of_ingest};
ghost use Rattle.sd_base.specs.Opening.{OpenAs, Opened};
ghost use Rattle.sd_base.specs.Texts.{ingested_text};
ghost use Rattle.sd_base.specs.declared.words.Command.TheVariants.{Ingest};
ghost use Rattle.backup_top.specs.Steps.{MakesText, TakesByBook, TakesInput};

use crate::ingest_text::text_of_ingest;
use crate::store_outcome::outcome_of;
use chunk_names::Sha256Namer;
use edge_traits::{Shelf, Source};
use ingest_core::{IngestFault, Summary};
use sd_base::{How, Name, Outcome};
use std::alloc::Global;
use std::thread::Threads;

/// Takes the input into the store under a name: the text says what was taken in.
pub fn ingest<H: Threads + Sync, R: Source, F: Shelf>(
    rt: &H,
    alloc: Global,
    name: &Name,
    how: &How,
    source: &mut R,
    shelf: &mut F,
) -> Result<String, Outcome>
    requires { IsHow how.now }
    ensures text { (input : List ℕ) × IsInputOf (R.left source.old) input
        × MakesText (λ state. in_store (pass_of_ingest name.now input) state) (Ok (Ingest name.now how.now)) result
        F.files F.loose F.faults F.faultless shelf.old shelf.new
        × ((opened : Opened) → IfSome (F.files shelf.old) (λ files. OpenAs files opened
        → TakesByBook opened name.now input result)) }
    ensures reads { TakesInput name.now result (F.files shelf.old)
        R.left R.faults R.faultless source.old source.new }
{
    match ingest_core::ingest(rt, alloc, source, shelf, &Sha256Namer, name, how) {
        Ok(summary) => text_of_summary(alloc, name, &summary),
        Err(fault) => Err(outcome_of_ingest(fault)),
    }
}

// The text of what was taken in.
fn text_of_summary(alloc: Global, name: &Name, summary: &Summary) -> Result<String, Outcome>
    ensures text { IfOk result (λ text. string_bytes text
        ≡ ingested_text name.now summary.now.bytes summary.now.places summary.now.fresh) }
    ensures refused { IfErr result (λ outcome. outcome ≡ Outcome.OutOfMemory) }
{
    match text_of_ingest(alloc, name, summary.bytes, summary.places, summary.fresh) {
        Ok(text) => Ok(text),
        Err(_) => Err(Outcome::OutOfMemory),
    }
}

// How a run ends that takes nothing in.
fn outcome_of_ingest(fault: IngestFault) -> Outcome
    ensures { result ≡ outcome_of fault }
{
    match fault {
        IngestFault::Store(fault) => outcome_of(fault),
        IngestFault::SourceFault => Outcome::SourceFault,
        IngestFault::InputTooLong => Outcome::InputTooLong,
    }
}
