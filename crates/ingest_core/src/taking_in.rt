//! An input that was read and cut is taken into a store.
ghost use Rattle.std.specs.Prelude.{◌≡◌, ◌≤◌, ◌+◌, [], IsTrue, IfErr, IfOk, IfSome, Err, length};
ghost use Rattle.edge_traits.specs.Shelf.{SameFiles, SameLoose};
ghost use Rattle.ingest_core.specs.Faults.{IsOfChunks};
ghost use Rattle.ingest_core.specs.Ingests.{IngestsInto};
ghost use Rattle.ingest_core.specs.ByBook.{IngestsByBook, IsOpenTo};
ghost use Rattle.sd_base.specs.Books.{places_in};
ghost use Rattle.sd_base.specs.Commands.{IsHow};
ghost use Rattle.sd_base.specs.Cutting.{cuts_of};
ghost use Rattle.sd_base.specs.Parameters.{IsValid};
ghost use Rattle.sd_base.specs.States.{State};
ghost use Rattle.sd_base.specs.declared.limits.TheConstants.{MAX_INPUT, MAX_PLACES};
ghost use Rattle.store_core.specs.Shelves.{CountsFaults};
ghost use Rattle.store_core.specs.StoreStates.{StandsFor};

use crate::leaders::leaders_of_text;
use crate::offering::offer_all;
use crate::{IngestFault, Summary};
use chunk_names::{Namer, name_all};
use edge_traits::Shelf;
use sd_base::{How, MAX_PLACES, Name, OpenGate};
use std::alloc::Global;
use std::thread::Threads;
use store_core::{Store, StoreFault};

/// Takes an input in, if the book has room for its places. Otherwise no chunk is offered.
pub(crate) fn take_in<H: Threads + Sync, F: Shelf, N: Namer>(
    rt: &H,
    alloc: Global,
    store: &mut Store<&N>,
    shelf: &mut F,
    namer: &N,
    name: &Name,
    input: &[u8],
    cuts: &[u32],
    how: &How,
) -> Result<Summary, IngestFault>
    requires how { IsHow how.now }
    requires sound { IsTrue store.old.sound }
    requires none { store.old.offered ≡ [] }
    requires valid { IsValid store.old.opened.head.params }
    requires cuts { cuts.now ≡ cuts_of store.old.opened.head.params input.now }
    requires open { IsOpenTo store.old.opened.book name.now }
    requires fits { length input.now ≤ MAX_INPUT }

    ensures ingests { (state : State) → IfSome (F.files shelf.old) (λ before.
        StandsFor N.name_of store.old before state []
        → IngestsInto N.name_of state name.now input.now result before (F.files shelf.new)) }
    ensures by_book { IngestsByBook store.old.opened name.now input.now result }
    ensures refused { IfErr result IsOfChunks }
    ensures unchanged { result ≡ Err (IngestFault.Store StoreFault.TooManyPlaces)
        → SameFiles (F.files shelf.old) (F.files shelf.new)
        × SameLoose (F.loose shelf.old) (F.loose shelf.new) }
    ensures counts { CountsFaults (result ≡ Err (IngestFault.Store StoreFault.ShelfFault))
        F.faults F.faultless shelf.old shelf.new }
{
    if store.book().places() as usize + cuts.len() > MAX_PLACES as usize {
        return Err(IngestFault::Store(StoreFault::TooManyPlaces));
    }
    store_session(rt, alloc, store, shelf, namer, name, input, cuts, how)
}

// Names the chunks, finds the leader of each, offers the leaders and commits the session.
fn store_session<H: Threads + Sync, F: Shelf, N: Namer>(
    rt: &H,
    alloc: Global,
    store: &mut Store<&N>,
    shelf: &mut F,
    namer: &N,
    name: &Name,
    input: &[u8],
    cuts: &[u32],
    how: &How,
) -> Result<Summary, IngestFault>
    requires how { IsHow how.now }
    requires sound { IsTrue store.old.sound }
    requires none { store.old.offered ≡ [] }
    requires valid { IsValid store.old.opened.head.params }
    requires cuts { cuts.now ≡ cuts_of store.old.opened.head.params input.now }
    requires open { IsOpenTo store.old.opened.book name.now }
    requires room { places_in store.old.opened.book.sessions + length cuts.now ≤ MAX_PLACES }
    requires fits { length input.now ≤ MAX_INPUT }

    ensures ingests { (state : State) → IfSome (F.files shelf.old) (λ before.
        StandsFor N.name_of store.old before state []
        → IngestsInto N.name_of state name.now input.now result before (F.files shelf.new)) }
    ensures numbers { IfOk result (λ summary. (summary.session ≡ length store.old.opened.book.sessions)
        × (summary.bytes ≡ length input.now) × (summary.places ≡ length cuts.now)) }
    ensures refused { IfErr result IsOfChunks }
    ensures places { result ≡ Err (IngestFault.Store StoreFault.TooManyPlaces) → ⊥ }
    ensures counts { CountsFaults (result ≡ Err (IngestFault.Store StoreFault.ShelfFault))
        F.faults F.faultless shelf.old shelf.new }
{
    let known = store.book().chunks().len();
    let names = name_all(rt, alloc, namer, input, 0, cuts, how.workers, 0, &OpenGate)?;
    let leaders = leaders_of_text(rt, alloc, input, cuts, &names, how.shards)?;
    let recipe = offer_all(alloc, store, shelf, &names, input, cuts, &leaders)?;
    let session = store.commit(shelf, name, input.len() as u32, &recipe)?;
    Ok(Summary {
        session,
        bytes: input.len() as u64,
        places: recipe.len() as u32,
        fresh: (store.book().chunks().len() - known) as u32,
    })
}
