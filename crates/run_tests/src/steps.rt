//! Steps on a shelf in memory: runs over it, edits of its files, and looks at them.
use crate::changes::{Change, copied, survives_each_call};
use crate::runs::Bytes::{Text, Zeros};
use crate::runs::{Bytes, Planned, ends_as, goes_as_planned};
use backup_top::Outcome;
use edge_traits::{File, MemShelf, ShelfFail};
use sd_base::Damage;
use std::alloc::Global;
use std::test::Fail;
use std::thread::Threads;

pub(crate) enum Step {
    /// What the steps up to the next title show. They begin with a shelf that has no files.
    Title(&'static str),
    /// A command line, its input, how the run ends, and what it writes.
    Run(&'static str, Bytes, Outcome, Bytes),
    /// A run over devices that fail.
    Over(Planned),
    /// Each command that opens the store ends with this damage, and writes nothing.
    AllFind(Damage),
    /// A change is made whole or not at all if one of its calls fails.
    Survives(Change),
    /// Of a file so many bytes stay, then come these, and then its bytes from here on.
    Edit(File, usize, &'static str, usize),
    /// A file has so many bytes, and these are the last.
    Has(File, usize, &'static str),
    /// The next call of the shelf fails.
    FailNext,
}

/// The end of each file.
pub(crate) const END: usize = usize::MAX;

/// Every window of zeros is a match, so that zeros are cut at the minimum.
pub(crate) const INIT: &str =
    "store,init,polynomial=8000000000000001,bits=13,target=0,min=64,max=256";

pub(crate) const MADE: Step = Step::Run(INIT, Zeros(0), Outcome::Done, Text("ready\n"));

/// A store under the default parameters.
pub(crate) const MADE_BY_DEFAULT: Step = Step::Run(
    "store,init",
    Zeros(0),
    Outcome::Done,
    Text("ready\n"),
);

/// 200 zeros are cut at 64, 128 and 192.
pub(crate) const FIRST_TAKEN: Step = Step::Run(
    "store,ingest,a",
    Zeros(200),
    Outcome::Done,
    Text("ingested a 200 bytes 4 places 2 new\n"),
);

pub(crate) const SECOND_TAKEN: Step = Step::Run(
    "store,ingest,b",
    Zeros(200),
    Outcome::Done,
    Text("ingested b 200 bytes 4 places 0 new\n"),
);

pub(crate) const BOTH: &str = "0 a 200 4\n1 b 200 4\n";

/// Follows the steps on a shelf with no files. The first that does not go as it has to is the
/// failure: the last title before it, and its number, counted from 0.
pub(crate) fn follow<H: Threads + Sync>(rt: &H, alloc: Global, steps: &[Step]) -> Result<(), Fail> {
    let mut shelf = MemShelf::new(alloc, Vec::new(alloc));
    follow_on(rt, alloc, &mut shelf, steps)
}

/// The same on a shelf.
pub(crate) fn follow_on<H: Threads + Sync>(
    rt: &H,
    alloc: Global,
    shelf: &mut MemShelf,
    steps: &[Step],
) -> Result<(), Fail> {
    let mut title = "";
    for (number, step) in steps.iter().enumerate() {
        if let Step::Title(text) = step {
            title = *text;
        }
        if !goes_well(rt, alloc, shelf, step)? {
            return Err(Fail::from((title, number)));
        }
    }
    Ok(())
}

fn goes_well<H: Threads + Sync>(
    rt: &H,
    alloc: Global,
    shelf: &mut MemShelf,
    step: &Step,
) -> Result<bool, Fail> {
    match step {
        Step::Title(_) => {
            *shelf = MemShelf::new(alloc, Vec::new(alloc));
            Ok(true)
        }
        Step::Run(line, input, ending, output) => {
            Ok(ends_as(rt, alloc, shelf, line, input, *ending, output)?)
        }
        Step::Over(planned) => Ok(goes_as_planned(rt, alloc, shelf, planned)?),
        Step::AllFind(damage) => all_find(rt, alloc, shelf, *damage),
        Step::Survives(change) => survives_each_call(rt, alloc, shelf, change),
        _ => goes_well_on_files(alloc, shelf, step),
    }
}

fn goes_well_on_files(alloc: Global, shelf: &mut MemShelf, step: &Step) -> Result<bool, Fail> {
    match step {
        Step::Edit(file, kept, text, from) => {
            let bytes = edited(alloc, shelf.file(*file), *kept, text, *from)?;
            shelf.put_file(*file, bytes.as_slice())?;
        }
        Step::Has(file, length, last) => {
            let bytes = shelf.file(*file);
            return Ok(bytes.len() == *length && bytes.ends_with(last.as_bytes()));
        }
        Step::FailNext => *shelf = copied(alloc, shelf, &[ShelfFail { call: 0, kept: 0 }])?,
        _ => return Ok(false),
    }
    Ok(true)
}

/// So many bytes of a file, then a text, and then its bytes from an index on.
fn edited(
    alloc: Global,
    bytes: &[u8],
    kept: usize,
    text: &str,
    from: usize,
) -> Result<Vec<u8>, Fail> {
    let mut all = bytes[..kept.min(bytes.len())].to_vec(alloc)?;
    all.extend_from_slice(text.as_bytes())?;
    all.extend_from_slice(&bytes[from.min(bytes.len())..])?;
    Ok(all)
}

/// The commands that open the store, and the zeros of their input.
static OPENING: [(&str, usize); 6] = [
    ("store,list", 0),
    ("store,restore,a", 0),
    ("store,drop,a", 0),
    ("store,refs", 0),
    ("store,audit", 0),
    ("store,ingest,c", 200),
];

fn all_find<H: Threads + Sync>(
    rt: &H,
    alloc: Global,
    shelf: &mut MemShelf,
    damage: Damage,
) -> Result<bool, Fail> {
    let ending = Outcome::Damaged(damage);
    for (line, zeros) in &OPENING {
        if !ends_as(rt, alloc, shelf, line, &Zeros(*zeros), ending, &Zeros(0))? {
            return Err(Fail::from(*line));
        }
    }
    Ok(true)
}
