//! Which calls of a shelf in memory fail, and what they keep.
ghost use Rattle.std.specs.Prelude.{◌≡◌, ◌<◌, ◌^◌, OnOk, OnErr, IsSome, IsNone, IsOk, IsErr, IsErrOf, ◌↔◌};
ghost use Rattle.edge_traits.specs.Faults.{counted_once_more, CountsFailed};
ghost use Rattle.edge_traits.specs.ShelfPlan.{fail_at, ArePast};

use crate::EdgeFault;
use crate::tally::Tally;
use sd_base::OutOfMemory;

/// A call of a `MemShelf` that fails: its number, counted from 0, and what it keeps. An append
/// keeps that many bytes of the piece, or all of them if there are fewer. A cut is done if `kept`
/// is not 0.
#[derive(Clone, Copy, Debug, PartialEq, Eq)]
pub struct ShelfFail {
    pub call: u32,
    pub kept: u32,
}

/// The calls that fail, and the count of the calls so far.
#[derive(Drop)]
pub(crate) struct ShelfPlan {
    failing: Vec<ShelfFail>,
    tally: Tally,
}

impl ShelfPlan {
    /// No call has been made, and these calls will fail.
    pub(crate) fn new(failing: Vec<ShelfFail>) -> Self
        ensures failing { result.failing.items ≡ failing.items }
        ensures calls { result.tally.calls ≡ 0 }
        ensures faults { result.tally.faults ≡ 0 }
    {
        ShelfPlan {
            failing,
            tally: Tally::new(),
        }
    }

    /// What the next call keeps, if it is to fail.
    pub(crate) fn kept(&self) -> Option<u32>
        ensures kept { result ≡ fail_at self.now.failing.items self.now.tally.calls }
        ensures small { IsSome result → self.now.tally.calls < 2 ^ 32 }
        ensures past { ArePast self.now.failing.items self.now.tally.calls → IsNone result }
    {
        let number = self.tally.next_number();
        for fail in &self.failing {
            if u64::from(fail.call) == number {
                return Some(fail.kept);
            }
        }
        None
    }

    /// Counts a call that needs no memory, and returns whether it fails.
    pub(crate) fn count_call(&mut self) -> Result<(), EdgeFault>
        ensures fails { IsErr result ↔ IsSome (fail_at self.old.failing.items self.old.tally.calls) }
        ensures ok { OnOk result (IsNone (fail_at self.old.failing.items self.old.tally.calls)) }
        ensures only_error { OnErr result (IsErrOf result EdgeFault.Failed) }
        ensures faults { CountsFailed result self.old.tally.faults self.new.tally.faults }
        ensures calls { self.new.tally.calls ≡ counted_once_more self.old.tally.calls }
        ensures failing { self.new.failing.items ≡ self.old.failing.items }
        ensures past { ArePast self.old.failing.items self.old.tally.calls → IsOk result }
        ensures stays_past { ArePast self.old.failing.items self.old.tally.calls →
            ArePast self.new.failing.items self.new.tally.calls }
    {
        let kept = self.kept();
        self.count_result(kept, Ok(()))
    }

    /// Counts a call, and returns its result: out of memory, or otherwise the planned failure.
    pub(crate) fn count_result(
        &mut self,
        kept: Option<u32>,
        done: Result<(), OutOfMemory>,
    ) -> Result<(), EdgeFault>
        requires { IsSome kept → self.old.tally.calls < 2 ^ 32 }

        ensures out_of_memory { OnErr done (result ≡ Err EdgeFault.OutOfMemory) }
        ensures failed { OnOk done (IsSome kept → result ≡ Err EdgeFault.Failed) }
        ensures ok { OnOk done (IsNone kept → IsOk result) }
        ensures planned { OnOk result (IsNone kept) }
        ensures fails { IsErrOf result EdgeFault.Failed → IsSome kept }
        ensures faults { CountsFailed result self.old.tally.faults self.new.tally.faults }
        ensures calls { self.new.tally.calls ≡ counted_once_more self.old.tally.calls }
        ensures failing { self.new.failing.items ≡ self.old.failing.items }
        ensures stays_past { ArePast self.old.failing.items self.old.tally.calls →
            ArePast self.new.failing.items self.new.tally.calls }
    {
        self.tally.count_call(done.is_ok() && kept.is_some());
        done?;
        match kept {
            Some(_) => Err(EdgeFault::Failed),
            None => Ok(()),
        }
    }
}
