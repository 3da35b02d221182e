//! The chunks of a store, in the order of their numbers: the committed ones, and then those offered.
ghost use Rattle.std.specs.Prelude.{◌≡◌, ◌+◌, ◌<◌, ◌≤◌, ◌++◌, [], ℕ, List, length, map, take, slice_index_or, OnOk, OnErr};
ghost use Rattle.sd_base.specs.declared.limits.TheConstants.{MAX_CHUNKS};
ghost use Rattle.store_core.specs.NameIndex.{Covers};
ghost use Rattle.store_core.specs.StoreFields.{names_of};

use crate::name_index::NameIndex;
use sd_base::{NewChunk, OutOfMemory};

/// The chunk of a number.
pub(crate) fn chunk_of(committed: &[NewChunk], offered: &[NewChunk], number: u32) -> NewChunk
    requires { number < length (committed.now ++ offered.now) }
    ensures { result ≡ slice_index_or (committed.now ++ offered.now) number (record { length = 0; name = [] }) }
{
    let number = number as usize;
    if number < committed.len() {
        committed[number]
    } else {
        offered[number - committed.len()]
    }
}

/// Adds to an index the names of the chunks that it does not have yet.
pub(crate) fn add_names(
    index: &mut NameIndex,
    committed: &[NewChunk],
    offered: &[NewChunk],
) -> Result<(), OutOfMemory>
    requires limit { length (committed.now ++ offered.now) ≤ MAX_CHUNKS }
    requires within { index.old.chunks ≤ length (committed.now ++ offered.now) }
    requires covers { Covers index.old (take index.old.chunks (names_of (committed.now ++ offered.now))) }

    ensures all { OnOk result (Covers index.new (names_of (committed.now ++ offered.now))) }
    ensures within { index.new.chunks ≤ length (committed.now ++ offered.now) }
    ensures covers { Covers index.new (take index.new.chunks (names_of (committed.now ++ offered.now))) }
{
    let count = (committed.len() + offered.len()) as u32;
    for number in index.chunks()..count {
        let chunk = chunk_of(committed, offered, number);
        index.add(&chunk.name)?;
    }
    Ok(())
}
