ghost use Rattle.std.specs.Prelude.{◌≡◌, IfOk, IfErr, Ok, string_bytes};
ghost use Rattle.sd_base.specs.OnePass.{in_store, pass_of_refs};
ghost use Rattle.sd_base.specs.Rows.{reference_rows_of_book};
ghost use Rattle.sd_base.specs.Texts.{refs_text};
ghost use Rattle.sd_base.specs.declared.words.Command.TheVariants.{Quiet as quiet};
ghost use Rattle.sd_base.specs.declared.words.Quiet.TheVariants.{Refs as count_references};
ghost use Rattle.backup_top.specs.Steps.{MakesText};

use crate::opened::open_store;
use crate::refs_text::text_of_refs;
use chunk_names::Sha256Namer;
use edge_traits::Shelf;
use sd_base::Outcome;
use std::alloc::Global;
use store_core::Store;

/// Opens the store: the text is a line for each of its chunks, with its reference count.
pub fn refs<F: Shelf>(alloc: Global, shelf: &mut F) -> Result<String, Outcome>
    ensures { MakesText (in_store pass_of_refs) (Ok (quiet count_references)) result
        F.files F.loose F.faults F.faultless shelf.old shelf.new }
{
    match open_store(alloc, shelf) {
        Ok(store) => text_of_store(alloc, &store),
        Err(outcome) => Err(outcome),
    }
}

// The text of `refs` on a store that was opened.
fn text_of_store(alloc: Global, store: &Store<Sha256Namer>) -> Result<String, Outcome>
    ensures text { IfOk result (λ lines. string_bytes lines ≡ refs_text (reference_rows_of_book store.now.opened.book)) }
    ensures refused { IfErr result (λ outcome. outcome ≡ Outcome.OutOfMemory) }
{
    match text_of_refs(alloc, store) {
        Ok(text) => Ok(text),
        Err(_) => Err(Outcome::OutOfMemory),
    }
}
