//! Standard output.
ghost use Rattle.std.specs.Prelude.{◌≡◌, ◌≤◌, ◌<◌, None, length, take, IfOk, OnErr, IsErrOf, OnOk};
ghost use Rattle.std.specs.Io.KnownBytes.{Appends};
ghost use Rattle.edge_traits.specs.Faults.{CountsFault};

use crate::retry::write_retrying;
use crate::{EdgeFault, Sink};
use std::io;
use std::io::Write;

/// Standard output as a sink. It is not observable. Each write is flushed. A write that a signal
/// interrupts is made again, at most 64 times. `Failed` comes if the system refuses the write, or
/// takes nothing of a piece that is not empty.
#[derive(Drop)]
pub struct StdSink<T> {
    rt: T,
    faults: u64,
}

impl<T: Print + Send + Drop> StdSink<T> {
    ghost use Rattle.edge_traits.specs.Std.{std_sink_faults};

    /// Standard output, as the runtime has it.
    pub fn new(rt: T) -> Self
        ensures { std_sink_faults result ≡ 0 }
    {
        StdSink { rt, faults: 0 }
    }
}

impl<T: Print + Send + Drop> Sink for StdSink<T> {
    ghost use Rattle.edge_traits.specs.Std.{std_sink_faults};

    ghost written = { λ _. None };

    ghost faults = { std_sink_faults };

    ghost faultless = { λ _. ⊥ };

    fn write(&mut self, bytes: &[u8]) -> Result<usize, EdgeFault>
        ensures bound { IfOk result (λ k. k ≤ length bytes.now) }
        ensures progress { IfOk result (λ k. 0 < length bytes.now → 1 ≤ k) }
        ensures only_error { OnErr result (IsErrOf result EdgeFault.Failed) }
        ensures counts { OnErr result (CountsFault (std_sink_faults self.old) (std_sink_faults self.new)) }
        ensures no_fault { OnOk result (std_sink_faults self.new ≡ std_sink_faults self.old) }
    {
        match write_flushed(&mut io::writer(&self.rt), bytes) {
            Ok(count) if count > 0 || bytes.is_empty() => Ok(count),
            _ => {
                self.faults = self.faults.saturating_add(1);
                Err(EdgeFault::Failed)
            }
        }
    }
}

/// Writes to the writer once and flushes it, and returns how many bytes the writer took.
pub(crate) fn write_flushed<W: Write>(writer: &mut W, bytes: &[u8]) -> io::Result<usize>
    ensures bound { IfOk result (λ k. k ≤ length bytes.now) }
    ensures bytes { IfOk result (λ k.
        Appends (W.contents writer.old) (W.contents writer.new) (take k bytes.now)) }
{
    let count = write_retrying(writer, bytes)?;
    writer.flush()?;
    Ok(count)
}
