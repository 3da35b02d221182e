//! One session is taken in.
ghost use Rattle.std.specs.Prelude.{◌≡◌, ◌⊎◌, Err, IfSome};
ghost use Rattle.edge_traits.specs.Shelf.{SameFiles, SameLoose};
ghost use Rattle.ingest_core.specs.ByBook.{IsBookClosedTo};
ghost use Rattle.ingest_core.specs.Ingests.{Ingests, IsClosedTo, LeavesShelf, ReadsSource, RefusesWithCause};
ghost use Rattle.sd_base.specs.Commands.{IsHow};
ghost use Rattle.sd_base.specs.Opening.{IsOpeningDamage, OpenAs, Opened};
ghost use Rattle.sd_base.specs.States.{IsLawful, State};
ghost use Rattle.sd_base.specs.Stores.{HoldNoStore, HoldState};
ghost use Rattle.sd_base.specs.declared.damage.Damage.{Damage};
ghost use Rattle.store_core.specs.Shelves.{CountsFaults};

use crate::opening::open_to;
use crate::reading::read_cut;
use crate::taking_in::take_in;
use crate::{IngestFault, Summary};
use chunk_names::Namer;
use edge_traits::{Shelf, Source};
use sd_base::{How, Name};
use std::alloc::Global;
use std::thread::Threads;
use store_core::StoreFault;

/// Opens the store on a shelf, reads the source to its end, cuts what it read, and commits one
/// session of these chunks under a name. Repeats inside the input are found first, so the store is
/// offered each distinct chunk once. No `ensures` clause speaks of how it is carried out, or of the
/// threads of `rt`.
///
/// Over files that hold a lawful state the outcome, the numbers and the state after are those of the
/// definition, except for a fault that a device counted in this call and for running out of memory.
/// After a fault of the shelf and out of memory they hold the state or the state with the session.
/// Over files that open, lawful or not, the name, the sessions, the length of the input and the
/// places are refused as the committed records say.
///
/// A name that a live session has and too many sessions are refused before anything is read, too
/// many places after the whole input was read and before the first chunk is offered.
pub fn ingest<H: Threads + Sync, R: Source, F: Shelf, N: Namer>(
    rt: &H,
    alloc: Global,
    source: &mut R,
    shelf: &mut F,
    namer: &N,
    name: &Name,
    how: &How,
) -> Result<Summary, IngestFault>
    requires how { IsHow how.now }

    ensures ingests { Ingests N.name_of name.now (R.left source.old) result
        (F.files shelf.old) (F.files shelf.new) }

    // Whatever the result, nothing is read if the state or the records are closed to the name, if
    // there is no store, or if opening finds a damage. In the last two cases no file changes.
    ensures early { (state : State) → IfSome (F.files shelf.old) (λ files.
        IsLawful state → HoldState N.name_of files state → IsClosedTo state name.now
        → source.new ≡ source.old) }
    ensures unread { IfSome (F.files shelf.old) (λ files. HoldNoStore files
        ⊎ ((damage : Damage) × IsOpeningDamage files damage) → source.new ≡ source.old) }
    ensures unopened { IfSome (F.files shelf.old) (λ files. HoldNoStore files
        ⊎ ((damage : Damage) × IsOpeningDamage files damage)
        → SameFiles (F.files shelf.old) (F.files shelf.new)
        × SameLoose (F.loose shelf.old) (F.loose shelf.new)) }
    ensures early_by_book { (opened : Opened) → IfSome (F.files shelf.old) (λ files.
        OpenAs files opened → IsBookClosedTo opened.book name.now → source.new ≡ source.old) }

    // Whatever the devices hold.
    ensures reads { ReadsSource result R.left source.old source.new }
    ensures leaves { LeavesShelf result F.files F.loose shelf.old shelf.new }
    ensures causes { RefusesWithCause result (F.files shelf.old) }
    ensures source_counts { CountsFaults (result ≡ Err IngestFault.SourceFault) R.faults R.faultless
        source.old source.new }
    ensures shelf_counts { CountsFaults (result ≡ Err (IngestFault.Store StoreFault.ShelfFault))
        F.faults F.faultless shelf.old shelf.new }
{
    let mut store = open_to(alloc, shelf, namer, name)?;
    let (input, cuts) = read_cut(rt, alloc, store.params(), source, how)?;
    take_in(
        rt, alloc, &mut store, shelf, namer, name, &input, &cuts, how,
    )
}
