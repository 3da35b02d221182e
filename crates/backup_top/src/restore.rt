ghost use Rattle.std.specs.Prelude.{Ok};
ghost use Rattle.sd_base.specs.OnePass.{in_store, pass_of_restore};
ghost use Rattle.sd_base.specs.States.{live_session_named, sessions_in};
ghost use Rattle.sd_base.specs.declared.words.Command.TheVariants.{Quiet as quiet};
ghost use Rattle.sd_base.specs.declared.words.Quiet.TheVariants.{Restore};
ghost use Rattle.backup_top.specs.Run.{IsCarriedOut};

use crate::opened::open_store;
use crate::store_outcome::outcome_of;
use edge_traits::{Shelf, Sink};
use sd_base::{Name, Outcome};
use std::alloc::Global;

/// Opens the store, and writes the bytes of the live session of a name, piece after piece.
pub fn restore<K: Sink, F: Shelf>(
    alloc: Global,
    name: &Name,
    sink: &mut K,
    shelf: &mut F,
) -> Outcome
    ensures { IsCarriedOut
        (in_store (λ store. pass_of_restore (live_session_named (sessions_in store) name.now) store))
        (Ok (quiet (Restore name.now))) result
        K.written K.faults K.faultless sink.old sink.new
        F.files F.loose F.faults F.faultless shelf.old shelf.new }
{
    match open_store(alloc, shelf) {
        Ok(store) => match store.restore(shelf, sink, name) {
            Ok(()) => Outcome::Done,
            Err(fault) => outcome_of(fault),
        },
        Err(outcome) => outcome,
    }
}
