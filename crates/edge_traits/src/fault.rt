//! Why a call at the edge was refused.
ghost use Rattle.std.specs.Prelude.{◌≡◌};
ghost use Rattle.edge_traits.specs.declared.fault.EdgeFault.TheVariants.{OutOfMemory as out_of_memory};

use sd_base::OutOfMemory;
use std::alloc::{AllocError, AllocFailed};

/// Why a source, a sink or a shelf refused a call. Each call says what it leaves after a refusal.
#[derive(Clone, Copy, Debug, PartialEq, Eq)]
pub enum EdgeFault {
    /// The device failed. Its count of faults rose in the call.
    Failed,
    /// Memory ran out in the call.
    OutOfMemory,
}

impl From<AllocError> for EdgeFault {
    ghost from_gives = { λ _ fault. fault ≡ out_of_memory };

    fn from(_: AllocError) -> Self {
        EdgeFault::OutOfMemory
    }
}

impl<T: Drop> From<AllocFailed<T>> for EdgeFault {
    ghost from_gives = { λ _ fault. fault ≡ out_of_memory };

    fn from(_: AllocFailed<T>) -> Self {
        EdgeFault::OutOfMemory
    }
}

impl From<OutOfMemory> for EdgeFault {
    ghost from_gives = { λ _ fault. fault ≡ out_of_memory };

    fn from(_: OutOfMemory) -> Self {
        EdgeFault::OutOfMemory
    }
}
