//! What an audit keeps of the cuts of a stored chunk.
ghost use Rattle.std.specs.Prelude.{◌≡◌, ◌↔◌, ◌%◌, ◌^◌, ◌==◌, IsTrue};
ghost use Rattle.ingest_core.specs.AuditCuts.{AreCutsOf, HasNoCandidate};
ghost use Rattle.sd_base.specs.Cuttings.{MayBeFollowed};
ghost use Rattle.sd_base.specs.Params.{numbers_of};

use rabin_window::Tables;
use sd_base::{Params, WINDOW};

// Bytes of a window, as a distance in a slice.
const WINDOW_SIZE: usize = WINDOW as usize;

/// Whether a stored chunk has no cut inside, and whether another chunk may follow it in a session.
#[derive(Clone, Copy, Debug)]
pub(crate) struct ChunkCuts {
    pub(crate) is_uncut: bool,
    pub(crate) may_be_followed: bool,
}

/// The cuts of a stored chunk under these parameters. It takes no memory.
pub(crate) fn cuts_of_chunk(tables: &Tables, params: &Params, chunk: &[u8]) -> ChunkCuts
    requires same_polynomial { tables.now.polynomial ≡ params.now.polynomial }
    ensures { AreCutsOf (numbers_of params.now) chunk.now result }
{
    ChunkCuts {
        is_uncut: chunk.len() <= params.max as usize && has_no_candidate(tables, params, chunk),
        may_be_followed: may_be_followed(tables, params, chunk),
    }
}

// Whether no position before the end of a chunk at which it might end is a candidate. It stops at
// the first that is one. A whole window lies before each such position.
fn has_no_candidate(tables: &Tables, params: &Params, chunk: &[u8]) -> bool
    requires same_polynomial { tables.now.polynomial ≡ params.now.polynomial }
    ensures { IsTrue result ↔ HasNoCandidate (numbers_of params.now) chunk.now }
{
    let first = params.min as usize;
    if chunk.len() <= first {
        return true;
    }
    let mut value = tables.fingerprint(&chunk[first - WINDOW_SIZE..first]);
    for p in first..chunk.len() {
        if is_match(params, value) {
            return false;
        }
        value = tables.roll(value, chunk[p - WINDOW_SIZE], chunk[p]);
    }
    true
}

// Whether another chunk may follow a chunk.
fn may_be_followed(tables: &Tables, params: &Params, chunk: &[u8]) -> bool
    requires same_polynomial { tables.now.polynomial ≡ params.now.polynomial }
    ensures { IsTrue result ↔ MayBeFollowed (numbers_of params.now) chunk.now }
{
    let end = chunk.len();
    if end < params.min as usize {
        return false;
    }
    if end == params.max as usize {
        return true;
    }
    is_match(params, tables.fingerprint(&chunk[end - WINDOW_SIZE..]))
}

// Whether the low bits of a fingerprint are the target.
#[inline(always)]
fn is_match(params: &Params, fingerprint: u64) -> bool
    ensures { result ≡ (fingerprint % 2 ^ params.now.bits == params.now.target) }
{
    fingerprint % (1 << params.bits) == u64::from(params.target)
}
