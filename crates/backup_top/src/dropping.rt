ghost use Rattle.std.specs.Prelude.{◌≡◌, [], true, IsTrue, Ok};
ghost use Rattle.sd_base.specs.OnePass.{in_store, pass_of_drop};
ghost use Rattle.sd_base.specs.States.{live_session_named, sessions_in};
ghost use Rattle.sd_base.specs.declared.words.Command.TheVariants.{Quiet as quiet};
ghost use Rattle.sd_base.specs.declared.words.Quiet.TheVariants.{Drop};
ghost use Rattle.backup_top.specs.ByRecords.{places_named};
ghost use Rattle.backup_top.specs.Steps.{DropsFrom, MakesText};

use crate::drop_text::text_of_drop;
use crate::opened::open_store;
use crate::store_outcome::outcome_of;
use chunk_names::Sha256Namer;
use edge_traits::Shelf;
use sd_base::{Name, Outcome};
use session_book::Book;
use std::alloc::Global;
use store_core::Store;

/// Opens the store and drops the live session of a name: the text says how many places it had.
pub fn drop_session<F: Shelf>(alloc: Global, name: &Name, shelf: &mut F) -> Result<String, Outcome>
    ensures { MakesText
        (in_store (λ store. pass_of_drop name.now (live_session_named (sessions_in store) name.now) store))
        (Ok (quiet (Drop name.now))) result
        F.files F.loose F.faults F.faultless shelf.old shelf.new }
{
    match open_store(alloc, shelf) {
        Ok(mut store) => drop_from(alloc, &mut store, name, shelf),
        Err(outcome) => Err(outcome),
    }
}

// Drops a session of a store that was opened. The text is made first: if memory runs out for it, the
// files are as they were.
fn drop_from<F: Shelf>(
    alloc: Global,
    store: &mut Store<Sha256Namer>,
    name: &Name,
    shelf: &mut F,
) -> Result<String, Outcome>
    requires sound { IsTrue store.old.sound }
    requires nothing_offered { store.old.offered ≡ [] }
    ensures { DropsFrom store.old name.now result
        F.files F.loose F.faults F.faultless shelf.old shelf.new }
{
    let Some(places) = places_of(store.book(), name) else {
        return Err(Outcome::NoSession);
    };
    let Ok(text) = text_of_drop(alloc, name, places) else {
        return Err(Outcome::OutOfMemory);
    };
    match store.drop_session(shelf, name) {
        Ok(_) => Ok(text),
        Err(fault) => Err(outcome_of(fault)),
    }
}

// The number of places of the live session of a name.
fn places_of(book: &Book, name: &Name) -> Option<usize>
    ensures { result ≡ places_named book.now.sessions name.now }
{
    let session = book.session(book.find(name)?)?;
    Some(session.recipe.as_slice().len())
}
