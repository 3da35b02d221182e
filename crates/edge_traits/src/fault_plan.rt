//! Which calls of a source or a sink in memory fail.
ghost use Rattle.std.specs.Prelude.{◌≡◌, ◌<◌, ◌^◌, ◌↔◌, ◌+◌, All, Contains, IsTrue, if◌then◌else◌};
ghost use Rattle.edge_traits.specs.Faults.{counted_once_more};

use crate::tally::Tally;

/// The calls that fail, by their numbers, and the count of the calls so far.
#[derive(Drop)]
pub(crate) struct FaultPlan {
    failing: Vec<u32>,
    tally: Tally,
}

impl FaultPlan {
    /// No call has been made, and the calls with these numbers will fail.
    pub(crate) fn new(failing: Vec<u32>) -> Self
        ensures failing { result.failing.items ≡ failing.items }
        ensures calls { result.tally.calls ≡ 0 }
        ensures faults { result.tally.faults ≡ 0 }
    {
        FaultPlan {
            failing,
            tally: Tally::new(),
        }
    }

    /// Counts the next call, and returns whether it fails.
    pub(crate) fn count_call(&mut self) -> bool
        ensures fails { IsTrue result ↔ Contains self.old.failing.items self.old.tally.calls }
        ensures faults { self.new.tally.faults
            ≡ (if result then self.old.tally.faults + 1 else self.old.tally.faults) }
        ensures calls { self.new.tally.calls ≡ counted_once_more self.old.tally.calls }
        ensures failing { self.new.failing.items ≡ self.old.failing.items }
        ensures stays_past { All (λ number. number < self.old.tally.calls) self.old.failing.items →
            All (λ number. number < self.new.tally.calls) self.new.failing.items }
    {
        let fails = is_among(&self.failing, self.tally.next_number());
        self.tally.count_call(fails);
        fails
    }
}

fn is_among(failing: &[u32], number: u64) -> bool
    ensures among { IsTrue result ↔ Contains failing.now number }
    ensures small { IsTrue result → number < 2 ^ 32 }
{
    failing.iter().any(|call| u64::from(*call) == number)
}
