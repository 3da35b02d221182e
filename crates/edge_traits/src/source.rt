//! Where bytes come from.
ghost use Rattle.std.specs.Prelude.{◌≡◌, ◌≤◌, ◌<◌, ℕ, List, Option, length, take, IfOk, OnErr, IsErrOf};
ghost use Rattle.edge_traits.specs.Faults.{Rose};
ghost use Rattle.edge_traits.specs.Source.{Consumes, IsAtEnd};

use crate::EdgeFault;

/// A stream of bytes that is read once, from its front. A source is observable if the bytes that it
/// has left are known to the contract.
pub trait Source: Send {
    /// The bytes still to come, if the source is observable.
    ghost left: { Self → Option (List ℕ) };

    /// How often the source has failed. The count never falls.
    ghost faults: { Self → ℕ };

    /// The device will never fail again.
    ghost faultless: { Self → Type 0 };

    /// Puts the next bytes into the front of `into` and returns how many. 0 for an `into` that is
    /// not empty means that nothing is left. `Failed` comes only if the device's count of faults
    /// rose in the call. A refused call takes no byte.
    fn read(&mut self, into: &mut [u8]) -> Result<usize, EdgeFault>
        ensures bound { IfOk result (λ k. k ≤ length into.new) }
        ensures given { IfOk result (λ k. Consumes (left self.old) (left self.new) (take k into.new)) }
        ensures at_end { result ≡ Ok 0 → 0 < length into.new → IsAtEnd (left self.old) }

        ensures failed { IsErrOf result EdgeFault.Failed → Rose (faults self.old) (faults self.new) }
        ensures never_falls { faults self.old ≤ faults self.new }
        ensures unchanged { OnErr result (left self.new ≡ left self.old) }

        ensures faultless_serves { faultless self.old → IsErrOf result EdgeFault.Failed → ⊥ }
        ensures faultless_counts_none { faultless self.old → faults self.new ≡ faults self.old }
        ensures stays_faultless { faultless self.old → faultless self.new };
}
