//! A sink in memory, which fails at planned writes.
ghost use Rattle.std.specs.Prelude.{◌≡◌, ◌↔◌, ◌+◌, ◌++◌, [], Contains, Some, length, IfOk, IsErrOf, is_ok, if◌then◌else◌};
ghost use Rattle.edge_traits.specs.Faults.{counted_once_more, CountsFailed};

use crate::fault_plan::FaultPlan;
use crate::{EdgeFault, Sink};
use std::alloc::Global;

/// A sink in memory. It is observable.
#[derive(Drop)]
pub struct MemSink {
    bytes: Vec<u8>,
    plan: FaultPlan,
}

impl MemSink {
    ghost use Rattle.edge_traits.specs.MemSink.{written_of, failing_writes, write_calls, write_faults, IsFaultlessSink};

    /// A sink with nothing written to it. The writes whose numbers, counted from 0, are in
    /// `failing` return `Failed`. Each other write takes its whole piece, or returns `OutOfMemory`.
    pub fn new(alloc: Global, failing: Vec<u32>) -> Self
        ensures written { written_of result ≡ [] }
        ensures failing { failing_writes result ≡ failing.items }
        ensures calls { write_calls result ≡ 0 }
        ensures faults { write_faults result ≡ 0 }
        ensures faultless { failing.items ≡ [] → IsFaultlessSink result }
    {
        MemSink {
            bytes: Vec::new(alloc),
            plan: FaultPlan::new(failing),
        }
    }

    /// The bytes that were written.
    pub fn written(&self) -> &[u8]
        ensures { result.now ≡ written_of self.now }
    {
        &self.bytes
    }
}

impl Sink for MemSink {
    ghost use Rattle.edge_traits.specs.MemSink.{written_of, failing_writes, write_calls, write_faults, IsFaultlessSink};

    ghost written = { λ sink. Some (written_of sink) };

    ghost faults = { write_faults };

    ghost faultless = { IsFaultlessSink };

    fn write(&mut self, bytes: &[u8]) -> Result<usize, EdgeFault>
        ensures whole { IfOk result (λ k. k ≡ length bytes.now) }
        ensures written { written_of self.new
            ≡ (if is_ok result then written_of self.old ++ bytes.now else written_of self.old) }

        // Exactly the planned calls fail.
        ensures fails { IsErrOf result EdgeFault.Failed ↔
            Contains (failing_writes self.old) (write_calls self.old) }
        ensures faults { CountsFailed result (write_faults self.old) (write_faults self.new) }
        ensures calls { write_calls self.new ≡ counted_once_more (write_calls self.old) }
        ensures failing { failing_writes self.new ≡ failing_writes self.old }
        ensures stays_faultless { IsFaultlessSink self.old → IsFaultlessSink self.new }
    {
        if self.plan.count_call() {
            return Err(EdgeFault::Failed);
        }
        self.bytes.extend_from_slice(bytes)?;
        Ok(bytes.len())
    }
}
