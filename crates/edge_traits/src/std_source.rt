//! Standard input.
ghost use Rattle.std.specs.Prelude.{◌≡◌, ◌≤◌, None, length, IfOk, OnErr, IsErrOf, OnOk};
ghost use Rattle.edge_traits.specs.Faults.{CountsFault};

use crate::retry::read_retrying;
use crate::{EdgeFault, Source};

/// Standard input as a source. It is not observable. A read uses a reader of std, which makes two
/// system calls: an `lseek`, and a read of as much as fits, with no buffer between. A read that a
/// signal interrupts is made again, at most 64 times. `Failed` comes if the system refuses it.
#[derive(Drop)]
pub struct StdSource<T> {
    rt: T,
    faults: u64,
}

impl<T: Input + Send + Drop> StdSource<T> {
    ghost use Rattle.edge_traits.specs.Std.{std_source_faults};

    /// Standard input, as the runtime has it.
    pub fn new(rt: T) -> Self
        ensures { std_source_faults result ≡ 0 }
    {
        StdSource { rt, faults: 0 }
    }
}

impl<T: Input + Send + Drop> Source for StdSource<T> {
    ghost use Rattle.edge_traits.specs.Std.{std_source_faults};

    ghost left = { λ _. None };

    ghost faults = { std_source_faults };

    ghost faultless = { λ _. ⊥ };

    fn read(&mut self, into: &mut [u8]) -> Result<usize, EdgeFault>
        ensures bound { IfOk result (λ k. k ≤ length into.new) }
        ensures only_error { OnErr result (IsErrOf result EdgeFault.Failed) }
        ensures counts { OnErr result
            (CountsFault (std_source_faults self.old) (std_source_faults self.new)) }
        ensures no_fault { OnOk result (std_source_faults self.new ≡ std_source_faults self.old) }
    {
        match read_retrying(&mut self.rt.reader(), into) {
            Ok(count) => Ok(count),
            Err(_) => {
                self.faults = self.faults.saturating_add(1);
                Err(EdgeFault::Failed)
            }
        }
    }
}
