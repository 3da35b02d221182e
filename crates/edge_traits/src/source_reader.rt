//! Reading a whole input.
ghost use Rattle.std.specs.Prelude.{◌≡◌, ◌≤◌, ◌<◌, ◌+◌, [], Some, length, take, drop, vec_len, option_map, IfOk, IfSome, OnOk, OnErr, IsErrOf};
ghost use Rattle.edge_traits.specs.Faults.{Rose};
ghost use Rattle.edge_traits.specs.Source.{Consumes, IsAtEnd, LosesAtMost};
ghost use Rattle.edge_traits.specs.ReadAll.{read_fault_of};
ghost use Rattle.edge_traits.specs.declared.source_reader.ReadFault.TheVariants.{OutOfMemory as out_of_memory};

use crate::{EdgeFault, Source};
use sd_base::OutOfMemory;
use std::alloc::{AllocError, Global};

/// Why the whole of a source was not read. The bytes that were taken before the refusal are gone.
#[derive(Clone, Copy, Debug, PartialEq, Eq)]
pub enum ReadFault {
    /// The source failed. Its count of faults rose in the call.
    SourceFault,
    /// The source has more bytes than the limit.
    InputTooLong,
    /// Memory ran out.
    OutOfMemory,
}

impl From<EdgeFault> for ReadFault {
    ghost from_gives = { λ fault result. result ≡ read_fault_of fault };

    fn from(fault: EdgeFault) -> Self {
        match fault {
            EdgeFault::Failed => ReadFault::SourceFault,
            EdgeFault::OutOfMemory => ReadFault::OutOfMemory,
        }
    }
}

impl From<OutOfMemory> for ReadFault {
    ghost from_gives = { λ _ result. result ≡ out_of_memory };

    fn from(_: OutOfMemory) -> Self {
        ReadFault::OutOfMemory
    }
}

impl From<AllocError> for ReadFault {
    ghost from_gives = { λ _ result. result ≡ out_of_memory };

    fn from(_: AllocError) -> Self {
        ReadFault::OutOfMemory
    }
}

/// Bytes by which the buffer grows at least. A pipe holds no more at once.
const MIN_STEP: usize = 1 << 16;

/// Bytes by which the buffer grows at most, so that little of it is empty at the end.
const MAX_STEP: usize = 1 << 24;

const _: () = prove!(MIN_STEP <= MAX_STEP);

/// Reads a source to its end and returns all of its bytes, at most `limit` of them.
///
/// `SourceFault` comes only if the source's count of faults rose. `InputTooLong` comes only if the
/// source has more than `limit` bytes, and an Ok only if it has at most `limit`. The bytes that
/// were taken before a refusal are gone: exactly `limit + 1` at `InputTooLong`, at most `limit`
/// otherwise.
pub fn read_all<R: Source>(alloc: Global, source: &mut R, limit: u32) -> Result<Vec<u8>, ReadFault>
    ensures bytes { IfOk result (λ read. IfSome (R.left source.old) (λ bytes. read.items ≡ bytes)) }
    ensures at_end { OnOk result (R.left source.new ≡ option_map (λ _. []) (R.left source.old)) }
    ensures within_limit { IfOk result (λ read. vec_len read ≤ limit) }
    ensures fits { OnOk result (IfSome (R.left source.old) (λ bytes. length bytes ≤ limit)) }

    ensures source_fault { IsErrOf result ReadFault.SourceFault →
        Rose (R.faults source.old) (R.faults source.new) }
    ensures too_long { IsErrOf result ReadFault.InputTooLong →
        IfSome (R.left source.old) (λ bytes. limit < length bytes) }
    ensures too_long_left { IsErrOf result ReadFault.InputTooLong →
        R.left source.new ≡ option_map (λ bytes. drop (limit + 1) bytes) (R.left source.old) }
    ensures refused { OnErr result (LosesAtMost (limit + 1) (R.left source.old) (R.left source.new)) }
    ensures source_fault_left { IsErrOf result ReadFault.SourceFault →
        LosesAtMost limit (R.left source.old) (R.left source.new) }
    ensures out_of_memory_left { IsErrOf result ReadFault.OutOfMemory →
        LosesAtMost limit (R.left source.old) (R.left source.new) }

    ensures never_falls { R.faults source.old ≤ R.faults source.new }

    ensures faultless_serves { R.faultless source.old → IsErrOf result ReadFault.SourceFault → ⊥ }
    ensures faultless_counts_none { R.faultless source.old → R.faults source.new ≡ R.faults source.old }
    ensures stays_faultless { R.faultless source.old → R.faultless source.new }
{
    let most = limit as usize + 1;
    let mut buffer = Vec::new(alloc);
    let mut taken = 0;
    while taken < most {
        make_room(&mut buffer, taken, most)?;
        let count = read_after(source, &mut buffer, taken)?;
        if count == 0 {
            buffer.truncate(taken);
            return Ok(buffer);
        }
        taken += count;
    }
    Err(ReadFault::InputTooLong)
}

/// Makes the buffer longer, with zeros, if its first `taken` bytes fill it; never longer than
/// `most`. Memory is taken only for the bytes by which it grows.
fn make_room(buffer: &mut Vec<u8>, taken: usize, most: usize) -> Result<(), AllocError>
    requires taken { taken ≤ vec_len buffer.old }
    requires within { vec_len buffer.old ≤ most }
    requires more { taken < most }

    ensures kept { take taken buffer.new.items ≡ take taken buffer.old.items }
    ensures room { OnOk result (taken < vec_len buffer.new) }
    ensures within { vec_len buffer.new ≤ most }
{
    let len = buffer.len();
    if taken < len {
        return Ok(());
    }
    let step = len.clamp(MIN_STEP, MAX_STEP);
    let longer = len.saturating_add(step).min(most);
    buffer.reserve_exact(longer - len)?;
    buffer.resize(longer, 0)
}

/// One read into the buffer, after its first `taken` bytes.
fn read_after<R: Source>(
    source: &mut R,
    buffer: &mut Vec<u8>,
    taken: usize,
) -> Result<usize, EdgeFault>
    requires { taken < vec_len buffer.old }
    ensures same_length { vec_len buffer.new ≡ vec_len buffer.old }
    ensures kept { take taken buffer.new.items ≡ take taken buffer.old.items }

    ensures bound { IfOk result (λ k. taken + k ≤ vec_len buffer.new) }
    ensures given { IfOk result (λ k.
        Consumes (R.left source.old) (R.left source.new) (take k (drop taken buffer.new.items))) }
    ensures at_end { result ≡ Ok 0 → IsAtEnd (R.left source.old) }

    ensures failed { IsErrOf result EdgeFault.Failed → Rose (R.faults source.old) (R.faults source.new) }
    ensures never_falls { R.faults source.old ≤ R.faults source.new }
    ensures unchanged { OnErr result (R.left source.new ≡ R.left source.old) }

    ensures faultless_serves { R.faultless source.old → IsErrOf result EdgeFault.Failed → ⊥ }
    ensures faultless_counts_none { R.faultless source.old → R.faults source.new ≡ R.faults source.old }
    ensures stays_faultless { R.faultless source.old → R.faultless source.new }
{
    source.read(&mut buffer[taken..])
}
