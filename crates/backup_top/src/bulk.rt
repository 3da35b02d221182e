ghost use Rattle.std.specs.Prelude.{Ok, IfSome};
ghost use Rattle.sd_base.specs.Commands.{AreBlocks, IsHow};
ghost use Rattle.sd_base.specs.Generator.{bulk_input, bulk_name};
ghost use Rattle.sd_base.specs.OnePass.{in_store, pass_of_ingest};
ghost use Rattle.sd_base.specs.Opening.{OpenAs, Opened};
ghost use Rattle.sd_base.specs.declared.words.Command.TheVariants.{Bulk};
ghost use Rattle.backup_top.specs.Steps.{MakesText, TakesByBook};

use crate::bulk_name::name_of_bulk;
use crate::ingest::ingest;
use edge_traits::{BulkSource, Shelf};
use sd_base::{How, Outcome};
use std::alloc::Global;
use std::thread::Threads;

/// Takes so many blocks from this seed into the store: the text says what was taken in.
pub fn bulk<H: Threads + Sync, F: Shelf>(
    rt: &H,
    alloc: Global,
    seed: u64,
    blocks: u32,
    how: &How,
    shelf: &mut F,
) -> Result<String, Outcome>
    requires blocks { AreBlocks blocks }
    requires how { IsHow how.now }

    ensures text { MakesText (in_store (pass_of_ingest (bulk_name seed blocks) (bulk_input seed blocks)))
        (Ok (Bulk seed blocks how.now)) result
        F.files F.loose F.faults F.faultless shelf.old shelf.new }
    ensures by_book { (opened : Opened) → IfSome (F.files shelf.old) (λ files. OpenAs files opened
        → TakesByBook opened (bulk_name seed blocks) (bulk_input seed blocks) result) }
{
    let name = name_of_bulk(seed, blocks);
    let mut source = BulkSource::new(seed, blocks);
    ingest(rt, alloc, &name, how, &mut source, shelf)
}
