ghost use Rattle.std.specs.Prelude.{◌≡◌, [], string_bytes};
ghost use Rattle.backup_top.specs.Outcomes.{Writes};
ghost use Rattle.backup_top.specs.Steps.{IsOfWrite, WritesMade};
ghost use Rattle.store_core.specs.Shelves.{CountsFaults};

use edge_traits::{EdgeFault, Sink, write_all};
use sd_base::Outcome;

/// Writes the text that a command made, if it made one, and returns how the command ended. The text
/// is whole before its first byte is written.
pub fn write_made<K: Sink>(sink: &mut K, made: &Result<String, Outcome>) -> Outcome
    ensures { WritesMade made.now result K.written K.faults K.faultless sink.old sink.new }
{
    match made {
        Ok(text) => write_text(sink, text.as_str()),
        Err(outcome) => *outcome,
    }
}

// Writes the whole text of a command that has done its work.
fn write_text<K: Sink>(sink: &mut K, text: &str) -> Outcome
    ensures ends { IsOfWrite result }
    ensures written { Writes result text.now (K.written sink.old) (K.written sink.new) }
    ensures nothing_to_write { text.now ≡ [] → sink.new ≡ sink.old }
    ensures counts { CountsFaults (result ≡ Outcome.SinkFault) K.faults K.faultless sink.old sink.new }
{
    match write_all(sink, text.as_bytes()) {
        Ok(()) => Outcome::Done,
        Err(EdgeFault::Failed) => Outcome::SinkFault,
        Err(EdgeFault::OutOfMemory) => Outcome::OutOfMemory,
    }
}
