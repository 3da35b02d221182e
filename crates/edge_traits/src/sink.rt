//! Where bytes go to.
ghost use Rattle.std.specs.Prelude.{◌≡◌, ◌≤◌, ◌<◌, ℕ, List, Option, length, take, IfOk, OnErr, IsErrOf};
ghost use Rattle.edge_traits.specs.Faults.{Rose};
ghost use Rattle.edge_traits.specs.Sink.{Appends};

use crate::EdgeFault;

/// A stream of bytes that is written once, at its end. A sink is observable if the bytes that were
/// written to it are known to the contract.
pub trait Sink: Send {
    /// The bytes that were written, if the sink is observable.
    ghost written: { Self → Option (List ℕ) };

    /// How often the sink has failed. The count never falls.
    ghost faults: { Self → ℕ };

    /// The device will never fail again.
    ghost faultless: { Self → Type 0 };

    /// Takes some bytes from the front of the piece and returns how many: at least one of a piece
    /// that is not empty. `Failed` comes only if the device's count of faults rose in the call.
    /// After a refusal `written` is as it was.
    fn write(&mut self, bytes: &[u8]) -> Result<usize, EdgeFault>
        ensures bound { IfOk result (λ k. k ≤ length bytes.now) }
        ensures progress { IfOk result (λ k. 0 < length bytes.now → 1 ≤ k) }
        ensures appended { IfOk result (λ k.
            Appends (written self.old) (written self.new) (take k bytes.now)) }

        ensures failed { IsErrOf result EdgeFault.Failed → Rose (faults self.old) (faults self.new) }
        ensures never_falls { faults self.old ≤ faults self.new }
        ensures unchanged { OnErr result (written self.new ≡ written self.old) }

        ensures faultless_serves { faultless self.old → IsErrOf result EdgeFault.Failed → ⊥ }
        ensures faultless_counts_none { faultless self.old → faults self.new ≡ faults self.old }
        ensures stays_faultless { faultless self.old → faultless self.new };
}
