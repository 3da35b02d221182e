ghost use Rattle.std.specs.Prelude.{◌≡◌, IfOk, IfErr, Ok, string_bytes};
ghost use Rattle.ingest_core.specs.Auditing.{counts_of};
ghost use Rattle.sd_base.specs.Audits.{audit_text};
ghost use Rattle.sd_base.specs.OnePass.{in_store, pass_of_audit};
ghost use Rattle.sd_base.specs.declared.words.Command.TheVariants.{Quiet as quiet};
ghost use Rattle.sd_base.specs.declared.words.Quiet.TheVariants.{Audit as audit_store};
ghost use Rattle.backup_top.specs.Steps.{MakesText};

use crate::audit_text::text_of_audit;
use crate::store_outcome::outcome_of;
use chunk_names::Sha256Namer;
use edge_traits::Shelf;
use ingest_core::Audited;
use sd_base::Outcome;
use std::alloc::Global;
use std::thread::Threads;

/// Looks whether the files of the store hold a lawful state: the text has the counts of that state.
pub fn audit<H: Threads + Sync, F: Shelf>(
    rt: &H,
    alloc: Global,
    shelf: &mut F,
) -> Result<String, Outcome>
    ensures { MakesText (in_store pass_of_audit) (Ok (quiet audit_store)) result
        F.files F.loose F.faults F.faultless shelf.old shelf.new }
{
    match ingest_core::audit(rt, alloc, shelf, &Sha256Namer) {
        Ok(audited) => text_of_counts(alloc, &audited),
        Err(fault) => Err(outcome_of(fault)),
    }
}

// The text of what an audit counted.
fn text_of_counts(alloc: Global, audited: &Audited) -> Result<String, Outcome>
    ensures text { IfOk result (λ text. string_bytes text ≡ audit_text (counts_of audited.now)) }
    ensures refused { IfErr result (λ outcome. outcome ≡ Outcome.OutOfMemory) }
{
    match text_of_audit(alloc, audited) {
        Ok(text) => Ok(text),
        Err(_) => Err(Outcome::OutOfMemory),
    }
}
