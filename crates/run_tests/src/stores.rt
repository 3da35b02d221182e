//! Runs of the commands of a store, over a shelf in memory.
use crate::changes::Change;
use crate::runs::Bytes::{Text, Zeros};
use crate::runs::Planned;
use crate::steps::Step::{AllFind, Edit, FailNext, Has, Over, Run, Survives, Title};
use crate::steps::{
    BOTH, END, FIRST_TAKEN, INIT, MADE, MADE_BY_DEFAULT, SECOND_TAKEN, Step, follow,
};
use backup_top::Outcome;
use edge_traits::{EdgeFault, File};
use sd_base::{BadParams, Damage};
use std::test::Fail;

const BOOK: File = File::Book(0);

const SEAL: File = File::Seal(0);

const CONTAINER: File = File::Container(0, 0);

/// The name of 8 zeros, by `sha256sum`.
pub(crate) const EIGHT_ZEROS: [u8; 32] = [
    0xaf, 0x55, 0x70, 0xf5, 0xa1, 0x81, 0x0b, 0x7a, 0xf7, 0x8c, 0xaf, 0x4b, 0xc7, 0x0a, 0x66, 0x0f,
    0x0d, 0xf5, 0x1e, 0x42, 0xba, 0xf9, 0x1d, 0x4d, 0xe5, 0xb2, 0x32, 0x8d, 0xe0, 0xe8, 0x3d, 0xfc,
];

/// The name of a byte 1 and 7 zeros, by `sha256sum`.
pub(crate) const ONE_AND_ZEROS: [u8; 32] = [
    0x7c, 0x9f, 0xa1, 0x36, 0xd4, 0x41, 0x3f, 0xa6, 0x17, 0x36, 0x37, 0xe8, 0x83, 0xb6, 0x99, 0x8d,
    0x32, 0xe1, 0xd6, 0x75, 0xf8, 0x8c, 0xdd, 0xff, 0x9d, 0xcb, 0xcf, 0x33, 0x18, 0x20, 0xf4, 0xb8,
];

static KEPT: [Step; 40] = [
    Title("a repeated input adds no chunk and each session comes back"),
    MADE,
    FIRST_TAKEN,
    SECOND_TAKEN,
    Run("store,list", Zeros(0), Outcome::Done, Text(BOTH)),
    Run("store,restore,a", Zeros(0), Outcome::Done, Zeros(200)),
    Run("store,restore,b", Zeros(0), Outcome::Done, Zeros(200)),
    Has(CONTAINER, 80, ""),
    Title("a taken name is refused before a byte is read"),
    MADE,
    FIRST_TAKEN,
    SECOND_TAKEN,
    Over(Planned {
        line: "store,ingest,b",
        input: Text("abc"),
        failing: (9, 0),
        ending: Outcome::NameTaken,
        output: "",
        next_read: (Ok(1), b'a'),
        next_write: Err(EdgeFault::Failed),
    }),
    Title("a session of no bytes has no chunk"),
    MADE,
    Run("store,list", Zeros(0), Outcome::Done, Text("")),
    Run(
        "store,ingest,e",
        Zeros(0),
        Outcome::Done,
        Text("ingested e 0 bytes 0 places 0 new\n"),
    ),
    Run("store,restore,e", Zeros(0), Outcome::Done, Text("")),
    Run("store,list", Zeros(0), Outcome::Done, Text("0 e 0 0\n")),
    Run("store,restore,f", Zeros(0), Outcome::NoSession, Text("")),
    Has(CONTAINER, 0, ""),
    Title("a head of 32 bytes is no store and one of 33 is"),
    MADE,
    FIRST_TAKEN,
    SECOND_TAKEN,
    Run(INIT, Zeros(0), Outcome::StoreThere, Text("")),
    Edit(File::Head, 32, "", END),
    Run("store,list", Zeros(0), Outcome::NoStore, Text("")),
    Run("store,restore,a", Zeros(0), Outcome::NoStore, Text("")),
    Run("store,drop,a", Zeros(0), Outcome::NoStore, Text("")),
    Run("store,refs", Zeros(0), Outcome::NoStore, Text("")),
    Run("store,ingest,a", Zeros(200), Outcome::NoStore, Text("")),
    Run(
        "store,init,min=4096,max=2048",
        Zeros(0),
        Outcome::BadParams(BadParams::Max),
        Text(""),
    ),
    MADE,
    Run("store,list", Zeros(0), Outcome::Done, Text("")),
    Title("the longest input is taken in and no longer one"),
    MADE_BY_DEFAULT,
    Run(
        "store,ingest,z",
        Zeros((1 << 28) + 1),
        Outcome::InputTooLong,
        Text(""),
    ),
    Run("store,list", Zeros(0), Outcome::Done, Text("")),
    Run(
        "store,ingest,z",
        Zeros(1 << 28),
        Outcome::Done,
        Text("ingested z 268435456 bytes 4096 places 1 new\n"),
    ),
];

#[test]
fn each_session_comes_back_and_a_store_is_made_once(rt: HostRuntime) -> Result<(), Fail> {
    follow(&rt, rt.alloc(), &KEPT)
}

static DAMAGED: [Step; 24] = [
    Title("a changed chunk ends a restore before it"),
    MADE,
    FIRST_TAKEN,
    SECOND_TAKEN,
    Edit(CONTAINER, 72, "\x01", 73),
    Run(
        "store,restore,b",
        Zeros(0),
        Outcome::Damaged(Damage::Chunk {
            number: 1,
            kept: EIGHT_ZEROS,
            found: ONE_AND_ZEROS,
        }),
        Zeros(192),
    ),
    Title("each command names a changed record"),
    MADE,
    FIRST_TAKEN,
    SECOND_TAKEN,
    Edit(BOOK, 4, "\x67", 5),
    AllFind(Damage::Record(0)),
    Title("each command names a record that is not there"),
    MADE,
    FIRST_TAKEN,
    SECOND_TAKEN,
    Edit(SEAL, END, "\x01", END),
    AllFind(Damage::Record(2)),
    Title("each command names a container that is too short"),
    MADE,
    FIRST_TAKEN,
    SECOND_TAKEN,
    Edit(CONTAINER, 79, "", END),
    AllFind(Damage::Container {
        number: 0,
        needed: 80,
        found: 79,
    }),
];

#[test]
fn each_command_names_the_damage_that_it_meets(rt: HostRuntime) -> Result<(), Fail> {
    follow(&rt, rt.alloc(), &DAMAGED)
}

static FAILED: [Step; 28] = [
    Title("whichever call fails the session is there whole or not at all"),
    MADE,
    Survives(Change {
        line: "store,ingest,a",
        input: Zeros(200),
        output: Text("ingested a 200 bytes 4 places 2 new\n"),
        before: Text(""),
        after: Text("0 a 200 4\n"),
        calls: 64,
    }),
    Title("a failed first call leaves the store as it was"),
    MADE,
    FIRST_TAKEN,
    SECOND_TAKEN,
    FailNext,
    Run("store,list", Zeros(0), Outcome::ShelfFault, Text("")),
    Run("store,list", Zeros(0), Outcome::Done, Text(BOTH)),
    Title("a failed read leaves no session"),
    MADE_BY_DEFAULT,
    Over(Planned {
        line: "store,ingest,a",
        input: Text("abcd"),
        failing: (2, 9),
        ending: Outcome::SourceFault,
        output: "",
        next_read: (Ok(1), b'c'),
        next_write: Ok(1),
    }),
    Run("store,list", Zeros(0), Outcome::Done, Text("")),
    Run(
        "store,ingest,a",
        Text("abcd"),
        Outcome::Done,
        Text("ingested a 4 bytes 1 places 1 new\n"),
    ),
    Title("a failed write leaves the session"),
    MADE,
    Over(Planned {
        line: "store,ingest,a",
        input: Zeros(200),
        failing: (999, 0),
        ending: Outcome::SinkFault,
        output: "",
        next_read: (Ok(0), 0),
        next_write: Ok(1),
    }),
    Run("store,list", Zeros(0), Outcome::Done, Text("0 a 200 4\n")),
    Title("tails that no record commits are cut"),
    MADE,
    FIRST_TAKEN,
    Edit(BOOK, END, "tail", END),
    Edit(CONTAINER, END, "tail", END),
    // A chunk of its own, so that the container grows.
    Run(
        "store,ingest,c",
        Text("three"),
        Outcome::Done,
        Text("ingested c 5 bytes 1 places 1 new\n"),
    ),
    Run(
        "store,list",
        Zeros(0),
        Outcome::Done,
        Text("0 a 200 4\n1 c 5 1\n"),
    ),
    Run("store,restore,c", Zeros(0), Outcome::Done, Text("three")),
    // Right after the chunks of 200 zeros.
    Has(CONTAINER, 85, "three"),
];

#[test]
fn a_call_that_fails_leaves_a_whole_store(rt: HostRuntime) -> Result<(), Fail> {
    follow(&rt, rt.alloc(), &FAILED)
}
