ghost use Rattle.std.specs.Prelude.{◌≡◌};
ghost use Rattle.ingest_core.specs.Faults.{ingest_fault_of};
ghost use Rattle.ingest_core.specs.declared.fault.IngestFault.TheVariants.{Store as store};
ghost use Rattle.store_core.specs.declared.fault.StoreFault.TheVariants.{OutOfMemory as out_of_memory};

use edge_traits::ReadFault;
use sd_base::OutOfMemory;
use store_core::StoreFault;

/// Why an input was not taken in. What is left is said at the call.
#[derive(Clone, Copy, Debug, PartialEq, Eq)]
pub enum IngestFault {
    /// The store refused it. This is never `StoreThere`, `NoSession` or `SinkFault`.
    Store(StoreFault),
    /// The source failed. Its count of faults rose in the call.
    SourceFault,
    /// The input has more than 2^28 bytes.
    InputTooLong,
}

impl From<StoreFault> for IngestFault {
    ghost from_gives = { λ fault answer. answer ≡ store fault };

    fn from(fault: StoreFault) -> Self {
        IngestFault::Store(fault)
    }
}

impl From<ReadFault> for IngestFault {
    ghost from_gives = { λ fault answer. answer ≡ ingest_fault_of fault };

    fn from(fault: ReadFault) -> Self {
        match fault {
            ReadFault::SourceFault => IngestFault::SourceFault,
            ReadFault::InputTooLong => IngestFault::InputTooLong,
            ReadFault::OutOfMemory => IngestFault::Store(StoreFault::OutOfMemory),
        }
    }
}

impl From<OutOfMemory> for IngestFault {
    ghost from_gives = { λ _ answer. answer ≡ store out_of_memory };

    fn from(_: OutOfMemory) -> Self {
        IngestFault::Store(StoreFault::OutOfMemory)
    }
}
