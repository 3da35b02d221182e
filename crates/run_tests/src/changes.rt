//! Changes of a store of which each call fails in turn.
use crate::runs::Bytes::Zeros;
use crate::runs::{Bytes, ended, ends_as};
use backup_top::Outcome;
use edge_traits::{File, MemShelf, ShelfFail};
use std::alloc::Global;
use std::test::Fail;
use std::thread::Threads;

/// A command that changes a store and what it writes, and what `list` writes before and after.
pub(crate) struct Change {
    pub(crate) line: &'static str,
    pub(crate) input: Bytes,
    pub(crate) output: Bytes,
    pub(crate) before: Bytes,
    pub(crate) after: Bytes,
    /// More calls than it makes.
    pub(crate) calls: u32,
}

/// The files of a store of generation 0 with one container.
static FILES: [File; 4] = [
    File::Head,
    File::Seal(0),
    File::Book(0),
    File::Container(0, 0),
];

/// A shelf with the files of another, of which these calls fail.
pub(crate) fn copied(
    alloc: Global,
    from: &MemShelf,
    failing: &[ShelfFail],
) -> Result<MemShelf, Fail> {
    let mut shelf = MemShelf::new(alloc, failing.to_vec(alloc)?);
    for file in &FILES {
        shelf.put_file(*file, from.file(*file))?;
    }
    Ok(shelf)
}

/// Whether two shelves have the same files.
fn are_same(one: &MemShelf, other: &MemShelf) -> bool {
    for file in &FILES {
        if one.file(*file) != other.file(*file) {
            return false;
        }
    }
    true
}

/// Makes the change once for each of its calls, which fails. One at which the change is made in
/// part is the failure.
pub(crate) fn survives_each_call<H: Threads + Sync>(
    rt: &H,
    alloc: Global,
    store: &MemShelf,
    change: &Change,
) -> Result<bool, Fail> {
    let mut changed = copied(alloc, store, &[])?;
    let is_made = is_made(rt, alloc, &mut changed, change)?;
    for call in 0..change.calls {
        for kept in [0, 1] {
            let failing = ShelfFail { call, kept };
            if !survives(rt, alloc, change, (store, &changed), failing)? {
                return Err(Fail::from((change.line, failing)));
            }
        }
    }
    Ok(is_made)
}

/// Whether a change of which this call fails is made whole or not at all, and made whole then.
fn survives<H: Threads + Sync>(
    rt: &H,
    alloc: Global,
    change: &Change,
    shelves: (&MemShelf, &MemShelf),
    failing: ShelfFail,
) -> Result<bool, Fail> {
    let mut failed = copied(alloc, shelves.0, &[failing])?;
    let (outcome, _) = ended(rt, alloc, &mut failed, change.line, &change.input)?;
    let mut shelf = copied(alloc, &failed, &[])?;
    let is_so = if lists(rt, alloc, &mut shelf, &change.before)? {
        outcome == Outcome::ShelfFault && is_made(rt, alloc, &mut shelf, change)?
    } else {
        let may_be = outcome == Outcome::ShelfFault || outcome == Outcome::Done;
        may_be && lists(rt, alloc, &mut shelf, &change.after)?
    };
    Ok(is_so && are_same(&shelf, shelves.1))
}

fn is_made<H: Threads + Sync>(
    rt: &H,
    alloc: Global,
    shelf: &mut MemShelf,
    change: &Change,
) -> Result<bool, Fail> {
    let (line, input, output) = (change.line, &change.input, &change.output);
    Ok(ends_as(rt, alloc, shelf, line, input, Outcome::Done, output)?)
}

fn lists<H: Threads + Sync>(
    rt: &H,
    alloc: Global,
    shelf: &mut MemShelf,
    listed: &Bytes,
) -> Result<bool, Fail> {
    Ok(ends_as(
        rt,
        alloc,
        shelf,
        "store,list",
        &Zeros(0),
        Outcome::Done,
        listed,
    )?)
}
