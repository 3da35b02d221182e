//! A store is opened, to take a session in.
ghost use Rattle.std.specs.Prelude.{◌≡◌, ◌⊎◌, ℕ, List, [], Err, Some, true, IfErr, IfOk, IfSome, MatchResult, OnErr, OnOk};
ghost use Rattle.ingest_core.specs.Faults.{Fails, IsOfOpenTo, IsStoreFailure, outcome_of};
ghost use Rattle.ingest_core.specs.Ingests.{IsClosedTo, OpensFirst};
ghost use Rattle.ingest_core.specs.ByBook.{IsOpenTo, refusal_by_book};
ghost use Rattle.sd_base.specs.OnePass.{refusal_of_ingest};
ghost use Rattle.sd_base.specs.Opening.{OpenAs, Opened};
ghost use Rattle.sd_base.specs.States.{IsLawful, State};
ghost use Rattle.sd_base.specs.Stores.{HoldNoStore, HoldState};
ghost use Rattle.sd_base.specs.declared.damage.Damage.{Damage};
ghost use Rattle.store_core.specs.Shelves.{OnlyReads};
ghost use Rattle.store_core.specs.StoreStates.{StandsFor};

use crate::IngestFault;
use chunk_names::Namer;
use edge_traits::Shelf;
use sd_base::{MAX_SESSIONS, Name};
use std::alloc::Global;
use store_core::{Store, StoreFault};

/// Opens the store on a shelf. It is refused if a live session has the name, or if there are as many
/// sessions as there may be. No file changes.
pub(crate) fn open_to<'a, F: Shelf, N: Namer>(
    alloc: Global,
    shelf: &mut F,
    namer: &'a N,
    name: &Name,
) -> Result<Store<&'a N>, IngestFault>
    ensures open { IfOk result (λ store. IsOpenTo store.opened.book name.now) }
    ensures fresh { IfOk result (λ store. (store.offered ≡ []) × (store.sound ≡ true)) }
    ensures refused { IfErr result IsOfOpenTo }
    ensures opened { IfOk result (λ store. IfSome (F.files shelf.old) (λ files. OpenAs files store.opened)) }
    ensures opens { OnErr result (IfSome (F.files shelf.old) (OpensFirst result)) }

    // If the files hold a state, the store stands for it. It is then opened only if the state is
    // open to a session of this name, and refused only as every ingest under this name is.
    ensures stands { (state : State) → IfSome (F.files shelf.old) (λ before. IsLawful state
        → HoldState N.name_of before state → IfOk result (λ store. IfSome (F.files shelf.new) (λ after.
        StandsFor N.name_of store after state []))) }
    ensures closed { (state : State) → IfSome (F.files shelf.old) (λ before. IsLawful state
        → HoldState N.name_of before state → IsClosedTo state name.now → OnOk result ⊥) }
    ensures stands_refused { (state : State) → IfSome (F.files shelf.old) (λ before. IsLawful state
        → HoldState N.name_of before state → IfErr result (λ fault. Fails fault
        ⊎ ((input : List ℕ) → refusal_of_ingest state name.now input ≡ Some (outcome_of fault)))) }

    // Over files that open, the store is opened with their records, or refused as they say.
    ensures by_book { (opened : Opened) → IfSome (F.files shelf.old) (λ files. OpenAs files opened
        → MatchResult result (λ store. store.opened ≡ opened) (λ fault. IsStoreFailure fault
        ⊎ ((input : List ℕ) → refusal_by_book opened name.now input ≡ Some (outcome_of fault)))) }

    ensures reads { OnlyReads (result ≡ Err (IngestFault.Store StoreFault.ShelfFault))
        F.files F.loose F.faults F.faultless shelf.old shelf.new }
{
    let store = Store::open(alloc, shelf, namer)?;
    if store.book().find(name).is_some() {
        return Err(IngestFault::Store(StoreFault::NameTaken));
    }
    if store.book().sessions() >= MAX_SESSIONS {
        return Err(IngestFault::Store(StoreFault::TooManySessions));
    }
    Ok(store)
}
