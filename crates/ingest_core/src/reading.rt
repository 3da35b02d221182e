//! An input is read and cut.
ghost use Rattle.std.specs.Prelude.{◌≡◌, ◌≤◌, ◌<◌, ◌+◌, Err, IfErr, IfOk, IfSome, OnOk, drop, length, option_map};
ghost use Rattle.edge_traits.specs.Source.{IsAtEnd, LosesAtMost};
ghost use Rattle.ingest_core.specs.Faults.{IsOfReading};
ghost use Rattle.ingest_core.specs.Ingests.{IsInputOf};
ghost use Rattle.sd_base.specs.Commands.{IsHow};
ghost use Rattle.sd_base.specs.Cutting.{cuts_of};
ghost use Rattle.sd_base.specs.Params.{numbers_of};
ghost use Rattle.sd_base.specs.declared.limits.TheConstants.{MAX_INPUT};
ghost use Rattle.store_core.specs.Shelves.{CountsFaults};

use crate::IngestFault;
use crate::cuts::cuts_of_text;
use edge_traits::{Source, read_all};
use sd_base::{How, MAX_INPUT, OpenGate, Params};
use std::alloc::Global;
use std::thread::Threads;

/// Reads a source to its end and cuts what it read by workers. Returns the bytes and the cuts.
pub(crate) fn read_cut<H: Threads + Sync, R: Source>(
    rt: &H,
    alloc: Global,
    params: &Params,
    source: &mut R,
    how: &How,
) -> Result<(Vec<u8>, Vec<u32>), IngestFault>
    requires how { IsHow how.now }

    ensures input { IfOk result (λ read. IsInputOf (R.left source.old) read.0.items) }
    ensures cuts { IfOk result (λ read. read.1.items ≡ cuts_of (numbers_of params.now) read.0.items) }
    ensures fits { IfOk result (λ read. length read.0.items ≤ MAX_INPUT) }
    ensures at_end { OnOk result (IsAtEnd (R.left source.new)) }
    ensures fits_left { OnOk result (IfSome (R.left source.old) (λ left. length left ≤ MAX_INPUT)) }
    ensures refused { IfErr result IsOfReading }

    ensures too_long { result ≡ Err IngestFault.InputTooLong
        → IfSome (R.left source.old) (λ input. MAX_INPUT < length input) }
    ensures taken { result ≡ Err IngestFault.InputTooLong
        → R.left source.new ≡ option_map (λ input. drop (MAX_INPUT + 1) input) (R.left source.old) }
    ensures taken_at_most { LosesAtMost (MAX_INPUT + 1) (R.left source.old) (R.left source.new) }
    ensures counts { CountsFaults (result ≡ Err IngestFault.SourceFault) R.faults R.faultless
        source.old source.new }
{
    let input = read_all(alloc, source, MAX_INPUT)?;
    let cuts = cuts_of_text(
        rt,
        alloc,
        params,
        &input,
        how.segment,
        how.workers,
        &OpenGate,
    )?;
    Ok((input, cuts))
}
