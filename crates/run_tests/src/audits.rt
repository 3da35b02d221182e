//! Runs of `audit`, over a shelf in memory and over one whose reads end early.
use crate::changes::copied;
use crate::drops::DROP_A;
use crate::runs::Bytes::{Text, Zeros};
use crate::runs::{Planned, words};
use crate::shrunk_shelf::ShrunkShelf;
use crate::steps::Step::{Edit, FailNext, Over, Run, Title};
use crate::steps::{
    END, FIRST_TAKEN, MADE, MADE_BY_DEFAULT, SECOND_TAKEN, Step, follow, follow_on,
};
use crate::stores::{EIGHT_ZEROS, ONE_AND_ZEROS};
use backup_top::{Outcome, run};
use edge_traits::{File, MemShelf, MemSink, MemSource};
use sd_base::Damage;
use std::alloc::Global;
use std::test::Fail;
use std::thread::Threads;

pub(crate) const AUDIT: &str = "store,audit";

const CONTAINER: File = File::Container(0, 0);

const BOOK: File = File::Book(0);

const ONE_IS_LIVE: &str = "ok 1 live 2 ingested 2 chunks 1 containers\n";

static SOUND: [Step; 32] = [
    Title("a dropped session was taken in and its chunks are stored"),
    MADE,
    FIRST_TAKEN,
    SECOND_TAKEN,
    DROP_A,
    Run(AUDIT, Zeros(0), Outcome::Done, Text(ONE_IS_LIVE)),
    Title("what no record commits does not matter"),
    MADE,
    FIRST_TAKEN,
    SECOND_TAKEN,
    DROP_A,
    Edit(BOOK, END, "tail", END),
    Edit(CONTAINER, END, "tail", END),
    Edit(File::Container(0, 1), END, "tail", END),
    Run(AUDIT, Zeros(0), Outcome::Done, Text(ONE_IS_LIVE)),
    Title("a new store has nothing to count"),
    MADE_BY_DEFAULT,
    Run(
        AUDIT,
        Zeros(0),
        Outcome::Done,
        Text("ok 0 live 0 ingested 0 chunks 0 containers\n"),
    ),
    Title("a session of no bytes needs no container"),
    MADE_BY_DEFAULT,
    Run(
        "store,ingest,e",
        Zeros(0),
        Outcome::Done,
        Text("ingested e 0 bytes 0 places 0 new\n"),
    ),
    Run(
        AUDIT,
        Zeros(0),
        Outcome::Done,
        Text("ok 1 live 1 ingested 0 chunks 0 containers\n"),
    ),
    Title("without a store there is nothing to look at"),
    Run(AUDIT, Zeros(0), Outcome::NoStore, Text("")),
    Title("no byte is read and a fault leaves nothing behind"),
    MADE,
    FIRST_TAKEN,
    SECOND_TAKEN,
    DROP_A,
    // The first write fails.
    Over(Planned {
        line: AUDIT,
        input: Text("abc"),
        failing: (9, 0),
        ending: Outcome::SinkFault,
        output: "",
        next_read: (Ok(1), b'a'),
        next_write: Ok(1),
    }),
    FailNext,
    Run(AUDIT, Zeros(0), Outcome::ShelfFault, Text("")),
];

#[test]
fn an_audit_counts_a_sound_store(rt: HostRuntime) -> Result<(), Fail> {
    follow(&rt, rt.alloc(), &SOUND)
}

static DAMAGED: [Step; 23] = [
    Title("a container without its mark"),
    MADE,
    FIRST_TAKEN,
    SECOND_TAKEN,
    Edit(CONTAINER, 0, "\x54", 1),
    Run(
        AUDIT,
        Zeros(0),
        Outcome::Damaged(Damage::Mark {
            number: 0,
            found: 0x5453_4350_0000_0000,
        }),
        Text(""),
    ),
    Title("a chunk without its name"),
    MADE,
    FIRST_TAKEN,
    SECOND_TAKEN,
    Edit(CONTAINER, 72, "\x01", 73),
    Run(
        AUDIT,
        Zeros(0),
        Outcome::Damaged(Damage::Chunk {
            number: 1,
            kept: EIGHT_ZEROS,
            found: ONE_AND_ZEROS,
        }),
        Text(""),
    ),
    // Opening finds its damage first.
    Title("a record that is not there"),
    MADE,
    FIRST_TAKEN,
    Edit(File::Seal(0), END, "\x01", END),
    Edit(CONTAINER, 0, "\x54", 1),
    Run(
        AUDIT,
        Zeros(0),
        Outcome::Damaged(Damage::Record(1)),
        Text(""),
    ),
    // A mark is looked at before each chunk.
    Title("two damages"),
    MADE,
    FIRST_TAKEN,
    Edit(CONTAINER, 0, "\x54\x53\x43\x50\0\0\0\0\x01", 9),
    Run(
        AUDIT,
        Zeros(0),
        Outcome::Damaged(Damage::Mark {
            number: 0,
            found: 0x5453_4350_0000_0000,
        }),
        Text(""),
    ),
];

#[test]
fn an_audit_names_the_first_damage(rt: HostRuntime) -> Result<(), Fail> {
    follow(&rt, rt.alloc(), &DAMAGED)
}

static TAKEN: [Step; 2] = [MADE, FIRST_TAKEN];

// How an audit ends of these files, of which reads of one end here.
fn ends_early<H: Threads + Sync>(
    rt: &H,
    alloc: Global,
    store: &MemShelf,
    file: File,
    end: u64,
) -> Result<Outcome, Fail> {
    let words = words(alloc, AUDIT)?;
    let mut source = MemSource::new(alloc, Vec::new(alloc), Vec::new(alloc), Vec::new(alloc));
    let mut sink = MemSink::new(alloc, Vec::new(alloc));
    let mut shelf = ShrunkShelf {
        shelf: copied(alloc, store, &[])?,
        file,
        end,
    };
    Ok(run(
        rt,
        alloc,
        words.as_slice(),
        &mut source,
        &mut sink,
        &mut shelf,
    ))
}

// All bytes of the container are zeros, except for its mark. So are those that a reader may take a
// missing byte for.
#[test]
fn an_audit_whose_reads_end_early_is_not_done(rt: HostRuntime) -> Result<(), Fail> {
    let mut store = MemShelf::new(rt.alloc(), Vec::new(rt.alloc()));
    follow_on(&rt, rt.alloc(), &mut store, &TAKEN)?;
    for (file, length) in [(CONTAINER, 80), (BOOK, 139)] {
        for end in 0..length {
            let outcome = ends_early(&rt, rt.alloc(), &store, file, end)?;
            assert!(rt; outcome != Outcome::Done, "{end} of {length}");
        }
        let outcome = ends_early(&rt, rt.alloc(), &store, file, length)?;
        assert!(rt; outcome == Outcome::Done, "all {length}");
    }
    Ok(())
}
