//! How often a device in memory was called, and how often it failed.
ghost use Rattle.std.specs.Prelude.{◌≡◌, ◌≤◌, ◌<◌, ◌^◌, ◌+◌, IsTrue, if◌then◌else◌};
ghost use Rattle.edge_traits.specs.Faults.{counted_once_more};

/// The number of calls so far, and how many of them failed. Calls are numbered from 0. A call whose
/// number passes `u32` never fails, so the count of faults stays far below the last number of 64
/// bits.
#[derive(Drop)]
pub(crate) struct Tally {
    calls: u64,
    faults: u64,
    ghost among_calls: { faults ≤ calls },
    ghost within_limit: { faults ≤ 2 ^ 32 },
}

impl Tally {
    /// No call has been made.
    pub(crate) fn new() -> Self
        ensures calls { result.calls ≡ 0 }
        ensures faults { result.faults ≡ 0 }
    {
        Tally {
            calls: 0,
            faults: 0,
        }
    }

    /// The number of the next call.
    pub(crate) fn next_number(&self) -> u64
        ensures { result ≡ self.now.calls }
    {
        self.calls
    }

    /// Counts the next call, and whether it fails.
    pub(crate) fn count_call(&mut self, fails: bool)
        requires { IsTrue fails → self.old.calls < 2 ^ 32 }
        ensures faults { self.new.faults ≡ (if fails then self.old.faults + 1 else self.old.faults) }
        ensures calls { self.new.calls ≡ counted_once_more self.old.calls }
        ensures not_fewer { self.old.calls ≤ self.new.calls }
    {
        self.calls = self.calls.saturating_add(1);
        if fails {
            self.faults += 1;
        }
    }
}
