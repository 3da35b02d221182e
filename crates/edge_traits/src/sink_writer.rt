//! Writing a whole piece.
ghost use Rattle.std.specs.Prelude.{◌≡◌, ◌≤◌, length, OnOk, OnErr, IsErrOf};
ghost use Rattle.edge_traits.specs.Faults.{Rose};
ghost use Rattle.edge_traits.specs.Sink.{Appends, AppendsPrefix};

use crate::{EdgeFault, Sink};

/// Writes a whole piece, in as many calls as the sink needs; an empty piece needs none. After a
/// refusal a prefix of the piece was written. `Failed` comes only if the sink's count of faults
/// rose.
pub fn write_all<K: Sink>(sink: &mut K, bytes: &[u8]) -> Result<(), EdgeFault>
    ensures written { OnOk result (Appends (K.written sink.old) (K.written sink.new) bytes.now) }
    ensures prefix { OnErr result (AppendsPrefix (K.written sink.old) (K.written sink.new) bytes.now) }
    ensures no_call { length bytes.now ≡ 0 → sink.new ≡ sink.old }

    ensures failed { IsErrOf result EdgeFault.Failed → Rose (K.faults sink.old) (K.faults sink.new) }
    ensures never_falls { K.faults sink.old ≤ K.faults sink.new }

    ensures faultless_serves { K.faultless sink.old → IsErrOf result EdgeFault.Failed → ⊥ }
    ensures faultless_counts_none { K.faultless sink.old → K.faults sink.new ≡ K.faults sink.old }
    ensures stays_faultless { K.faultless sink.old → K.faultless sink.new }
{
    let mut done = 0;
    while done < bytes.len() {
        done += sink.write(&bytes[done..])?;
    }
    Ok(())
}
