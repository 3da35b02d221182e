ghost use Rattle.std.specs.Prelude.{◌≡◌};
ghost use Rattle.store_core.specs.Faults.{stays_sound, store_fault_of, store_fault_of_book};
ghost use Rattle.store_core.specs.declared.fault.StoreFault.TheVariants.{OutOfMemory as out_of_memory};

use edge_traits::EdgeFault;
use sd_base::{Damage, OutOfMemory};
use session_book::BookFault;
use std::alloc::{AllocError, AllocFailed};

/// Why a call of the store was refused. What it left is said at the call.
#[derive(Clone, Copy, Debug, PartialEq, Eq)]
pub enum StoreFault {
    /// There is no store: the head has fewer than 33 bytes.
    NoStore,
    /// There is a store already: the head has at least 33 bytes.
    StoreThere,
    /// The files are not those of a store, or no longer.
    Damaged(Damage),
    /// A live session has the name.
    NameTaken,
    /// No live session has the name.
    NoSession,
    /// The book has as many sessions as it may have.
    TooManySessions,
    /// The book would have more places than it may have.
    TooManyPlaces,
    /// The book would have more chunks than it may have.
    TooManyChunks,
    /// The shelf failed. Its count of faults rose in the call.
    ShelfFault,
    /// The sink failed. Its count of faults rose in the call.
    SinkFault,
    /// Memory ran out.
    OutOfMemory,
}

// A device of which a call over a shelf alone speaks is the shelf.
impl From<EdgeFault> for StoreFault {
    ghost from_gives = { λ fault answer. answer ≡ store_fault_of fault };

    fn from(fault: EdgeFault) -> Self {
        match fault {
            EdgeFault::Failed => StoreFault::ShelfFault,
            EdgeFault::OutOfMemory => StoreFault::OutOfMemory,
        }
    }
}

impl From<OutOfMemory> for StoreFault {
    ghost from_gives = { λ _ answer. answer ≡ out_of_memory };

    fn from(_: OutOfMemory) -> Self {
        StoreFault::OutOfMemory
    }
}

impl From<AllocError> for StoreFault {
    ghost from_gives = { λ _ answer. answer ≡ out_of_memory };

    fn from(_: AllocError) -> Self {
        StoreFault::OutOfMemory
    }
}

impl<T: Drop> From<AllocFailed<T>> for StoreFault {
    ghost from_gives = { λ _ answer. answer ≡ out_of_memory };

    fn from(_: AllocFailed<T>) -> Self {
        StoreFault::OutOfMemory
    }
}

impl From<BookFault> for StoreFault {
    ghost from_gives = { λ fault answer. answer ≡ store_fault_of_book fault };

    fn from(fault: BookFault) -> Self {
        match fault {
            BookFault::Damaged(damage) => StoreFault::Damaged(damage),
            BookFault::OutOfMemory => StoreFault::OutOfMemory,
        }
    }
}

/// Whether chunks may be offered to a store, and whether it may be written to, after a call that
/// returned this.
pub(crate) fn stays_sound<T>(outcome: &Result<T, StoreFault>) -> bool
    ensures { result ≡ stays_sound outcome.now }
{
    !matches!(
        outcome,
        Err(StoreFault::Damaged(_) | StoreFault::ShelfFault | StoreFault::OutOfMemory)
    )
}
