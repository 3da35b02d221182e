ghost use Rattle.backup_top.specs.Steps.{OpensStore};

use crate::store_outcome::outcome_of;
use chunk_names::Sha256Namer;
use edge_traits::Shelf;
use sd_base::Outcome;
use std::alloc::Global;
use store_core::Store;

/// Opens the store on a shelf, and writes nothing.
pub fn open_store<F: Shelf>(alloc: Global, shelf: &mut F) -> Result<Store<Sha256Namer>, Outcome>
    ensures { OpensStore result F.files F.loose F.faults F.faultless shelf.old shelf.new }
{
    match Store::open(alloc, shelf, Sha256Namer) {
        Ok(store) => Ok(store),
        Err(fault) => Err(outcome_of(fault)),
    }
}
