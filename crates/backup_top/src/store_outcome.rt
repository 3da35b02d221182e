ghost use Rattle.std.specs.Prelude.{◌≡◌};
ghost use Rattle.ingest_core.specs.Faults.{outcome_of_store};

use sd_base::Outcome;
use store_core::StoreFault;

/// How a run ends that the store refuses.
pub fn outcome_of(fault: StoreFault) -> Outcome
    ensures { result ≡ outcome_of_store fault }
{
    match fault {
        StoreFault::NoStore => Outcome::NoStore,
        StoreFault::StoreThere => Outcome::StoreThere,
        StoreFault::Damaged(damage) => Outcome::Damaged(damage),
        StoreFault::NameTaken => Outcome::NameTaken,
        StoreFault::NoSession => Outcome::NoSession,
        StoreFault::TooManySessions => Outcome::TooManySessions,
        StoreFault::TooManyPlaces => Outcome::TooManyPlaces,
        StoreFault::TooManyChunks => Outcome::TooManyChunks,
        StoreFault::ShelfFault => Outcome::ShelfFault,
        StoreFault::SinkFault => Outcome::SinkFault,
        StoreFault::OutOfMemory => Outcome::OutOfMemory,
    }
}
