ghost use Rattle.std.specs.Prelude.{Option, Some};
ghost use Rattle.edge_traits.specs.MemShelf.{IsFaultlessShelf, files_of_shelf};
ghost use Rattle.edge_traits.specs.MemSink.{written_of};
ghost use Rattle.sd_base.specs.OnePass.{one_pass};
ghost use Rattle.sd_base.specs.States.{State};
ghost use Rattle.backup_top.specs.InMemory.{EndsInMemory, WritesPrefix};
ghost use Rattle.backup_top.specs.Run.{AreHeld};
ghost use Rattle.backup_top.specs.Words.{texts_of};

use crate::runner::run;
use edge_traits::{MemShelf, MemSink, MemSource};
use sd_base::Outcome;
use std::alloc::Global;
use std::thread::Threads;

/// Runs the words on an input in memory, over a shelf in memory, and returns how the run ended and
/// the sink that it wrote to. Neither the source nor the sink fails. If the files of the shelf hold
/// a lawful state, or no store, then the outcome, the written bytes and the state that the files
/// hold afterwards are those of the one-pass definition, unless memory ran out or the shelf failed.
pub fn run_in_memory<H: Threads + Sync>(
    rt: &H,
    alloc: Global,
    words: &[String],
    input: Vec<u8>,
    shelf: &mut MemShelf,
) -> (Outcome, MemSink)
    ensures pass { (state : Option State) → AreHeld (Some (files_of_shelf shelf.old)) state
        → EndsInMemory (one_pass (texts_of words.now) state input.items) result.0 (written_of result.1)
        (files_of_shelf shelf.new) (IsFaultlessShelf shelf.old) }
    ensures prefix { (state : Option State) → AreHeld (Some (files_of_shelf shelf.old)) state
        → WritesPrefix (one_pass (texts_of words.now) state input.items) (written_of result.1) }
{
    let mut source = MemSource::new(alloc, input, Vec::new(alloc), Vec::new(alloc));
    let mut sink = MemSink::new(alloc, Vec::new(alloc));
    let outcome = run(rt, alloc, words, &mut source, &mut sink, shelf);
    (outcome, sink)
}
