//! What is kept of the cuts of a batch of chunks.
ghost use Rattle.std.specs.Prelude.{◌≡◌, ◌<◌, ℕ, length, IfOk};
ghost use Rattle.chunk_names.specs.Shares.{chunk_at};
ghost use Rattle.ingest_core.specs.AuditCuts.{AreCutsOf, AreCutsOfAll, cuts_at};
ghost use Rattle.sd_base.specs.Cutting.{RiseWithin, chunks_between};
ghost use Rattle.sd_base.specs.Params.{numbers_of};

use crate::auditing::chunk_cuts::{ChunkCuts, cuts_of_chunk};
use crate::auditing::rules::ChunkRules;
use chunk_names::{Namer, chunk};
use sd_base::OutOfMemory;
use std::alloc::Global;
use std::thread::{Threads, for_each_mut};

// In how many shares the cuts of a batch are looked at. They are more than the usual number of
// processors, so that none of these is long without work.
const SHARES: usize = 16;

/// What is kept of the cuts of the chunks of a text, found side by side. The first chunk begins where
/// the text does. Fails only if memory runs out.
pub(crate) fn cuts_of_batch<H: Threads + Sync, N: Namer>(
    rt: &H,
    alloc: Global,
    rules: &ChunkRules<N>,
    text: &[u8],
    ends: &[u32],
) -> Result<Vec<ChunkCuts>, OutOfMemory>
    requires rise { RiseWithin 0 (length text.now) ends.now }
    ensures cuts { IfOk result (λ cuts.
        AreCutsOfAll (numbers_of rules.now.params) (chunks_between text.now 0 ends.now) cuts.items) }
{
    let unknown = ChunkCuts {
        is_uncut: false,
        may_be_followed: false,
    };
    let mut cuts = vec![in alloc; unknown; ends.len()]?;
    cut_each(rt, rules, text, ends, cuts.as_mut_slice());
    Ok(cuts)
}

// Looks at the cuts of each chunk.
fn cut_each<H: Threads + Sync, N: Namer>(
    rt: &H,
    rules: &ChunkRules<N>,
    text: &[u8],
    ends: &[u32],
    cuts: &mut [ChunkCuts],
)
    requires rise { RiseWithin 0 (length text.now) ends.now }
    requires one_each { length cuts.old ≡ length ends.now }
    ensures len { length cuts.new ≡ length cuts.old }
    ensures each { (n : ℕ) → n < length ends.now
        → AreCutsOf (numbers_of rules.now.params) (chunk_at text.now 0 ends.now n) (cuts_at cuts.new n) }
{
    let (tables, params) = (&rules.tables, &rules.params);
    for_each_mut(
        rt,
        cuts,
        SHARES,
        &|number: usize, found: &mut ChunkCuts|
            requires { RiseWithin 0 (length text.now) ends.now × (number < length ends.now)
                × (tables.now.polynomial ≡ params.now.polynomial) }
            ensures { AreCutsOf (numbers_of params.entry.now)
                (chunk_at text.entry.now 0 ends.entry.now number) found.exit.now }
        {
            *found = cuts_of_chunk(tables, params, chunk(text, 0, ends, number));
        },
    );
}
