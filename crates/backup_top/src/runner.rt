ghost use Rattle.std.specs.Prelude.{Ok};
ghost use Rattle.sd_base.specs.Commands.{HasNumbersInRange};
ghost use Rattle.sd_base.specs.OnePass.{one_pass, pass_of_command};
ghost use Rattle.sd_base.specs.Words.{command_of};
ghost use Rattle.sd_base.specs.declared.words.Command.TheVariants.{Quiet as quiet};
ghost use Rattle.backup_top.specs.Run.{IsRun};
ghost use Rattle.backup_top.specs.Words.{texts_of};

use crate::audit::audit;
use crate::bulk::bulk;
use crate::dropping::drop_session;
use crate::ingest::ingest;
use crate::init::init;
use crate::list::list;
use crate::plan::plan;
use crate::refs::refs;
use crate::restore::restore;
use crate::words::read_words;
use crate::write_made::write_made;
use edge_traits::{Shelf, Sink, Source};
use sd_base::{Command, Outcome, Quiet};
use std::alloc::Global;
use std::thread::Threads;

/// Runs the command that the words name, reading from `source`, writing to `sink`, over the files
/// of `shelf`: the whole of the tool. The words are those of the command line after the path of the
/// store.
///
/// Whatever the words, the input, the cutting of its reads and the devices: if the files hold a
/// lawful state, or no store, then the outcome, the written bytes and the state that the files hold
/// afterwards are those of the one-pass definition, except for a fault that a device counted in this
/// call and for running out of memory. After a failed call on the store's files, and if memory runs
/// out, the files hold the state before or the state after.
///
/// Whatever the files hold, `audit` is done only if they hold a lawful state, and names a damage only
/// if they hold none.
pub fn run<H: Threads + Sync, R: Source, K: Sink, F: Shelf>(
    rt: &H,
    alloc: Global,
    words: &[String],
    source: &mut R,
    sink: &mut K,
    shelf: &mut F,
) -> Outcome
    // The headline.
    ensures run { IsRun (one_pass (texts_of words.now)) (command_of (texts_of words.now)) result
        R.left R.faults R.faultless source.old source.new
        K.written K.faults K.faultless sink.old sink.new
        F.files F.loose F.faults F.faultless shelf.old shelf.new }
{
    match read_words(words) {
        Err(bad) => Outcome::BadWords(bad),
        Ok(command) => run_command(rt, alloc, &command, source, sink, shelf),
    }
}

// Runs a command.
fn run_command<H: Threads + Sync, R: Source, K: Sink, F: Shelf>(
    rt: &H,
    alloc: Global,
    command: &Command,
    source: &mut R,
    sink: &mut K,
    shelf: &mut F,
) -> Outcome
    requires { HasNumbersInRange command.now }
    ensures run { IsRun (pass_of_command command.now) (Ok command.now) result
        R.left R.faults R.faultless source.old source.new
        K.written K.faults K.faultless sink.old sink.new
        F.files F.loose F.faults F.faultless shelf.old shelf.new }
{
    match command {
        Command::Quiet(command) => run_quiet(rt, alloc, command, source, sink, shelf),
        Command::Ingest { name, how } => {
            write_made(sink, &ingest(rt, alloc, name, how, source, shelf))
        }
        Command::Bulk { seed, blocks, how } => {
            write_made(sink, &bulk(rt, alloc, *seed, *blocks, how, shelf))
        }
    }
}

/// Runs a command that waits for nobody, as `run` does; it always returns.
pub fn run_quiet<H: Threads + Sync, R: Source, K: Sink, F: Shelf>(
    rt: &H,
    alloc: Global,
    command: &Quiet,
    source: &mut R,
    sink: &mut K,
    shelf: &mut F,
) -> Outcome
    requires { HasNumbersInRange (quiet command.now) }
    ensures run { IsRun (pass_of_command (quiet command.now)) (Ok (quiet command.now)) result
        R.left R.faults R.faultless source.old source.new
        K.written K.faults K.faultless sink.old sink.new
        F.files F.loose F.faults F.faultless shelf.old shelf.new }
{
    match command {
        Quiet::Plan {
            raw,
            workers,
            segment,
        } => write_made(sink, &plan(rt, alloc, raw, *segment, *workers, source)),
        Quiet::Init { raw } => write_made(sink, &init(alloc, raw, shelf)),
        Quiet::List => write_made(sink, &list(alloc, shelf)),
        Quiet::Restore { name } => restore(alloc, name, sink, shelf),
        Quiet::Drop { name } => write_made(sink, &drop_session(alloc, name, shelf)),
        Quiet::Refs => write_made(sink, &refs(alloc, shelf)),
        Quiet::Audit => write_made(sink, &audit(rt, alloc, shelf)),
    }
}
