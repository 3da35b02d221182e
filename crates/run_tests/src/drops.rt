//! Runs of `drop` and `refs`, over a shelf in memory.
use crate::changes::Change;
use crate::runs::Bytes::{Text, Zeros};
use crate::runs::Planned;
use crate::steps::Step::{Has, Over, Run, Survives, Title};
use crate::steps::{BOTH, FIRST_TAKEN, MADE, MADE_BY_DEFAULT, SECOND_TAKEN, Step, follow};
use backup_top::Outcome;
use edge_traits::File;
use std::test::Fail;

/// The lines of `refs`, with names by `sha256sum`, if the sessions `a` and `b` of 200 zeros are
/// live.
const COUNTED: &str = "\
0 6 64 f5a5fd42d16a20302798ef6ed309979b43003d2320d9f0e8ea9831a92759fb4b
1 2 8 af5570f5a1810b7af78caf4bc70a660f0df51e42baf91d4de5b2328de0e83dfc
";

/// The lines if one of the two is live.
const COUNTED_ONCE: &str = "\
0 3 64 f5a5fd42d16a20302798ef6ed309979b43003d2320d9f0e8ea9831a92759fb4b
1 1 8 af5570f5a1810b7af78caf4bc70a660f0df51e42baf91d4de5b2328de0e83dfc
";

/// The lines if neither is live.
const COUNTED_NONE: &str = "\
0 0 64 f5a5fd42d16a20302798ef6ed309979b43003d2320d9f0e8ea9831a92759fb4b
1 0 8 af5570f5a1810b7af78caf4bc70a660f0df51e42baf91d4de5b2328de0e83dfc
";

pub(crate) const DROP_A: Step = Run(
    "store,drop,a",
    Zeros(0),
    Outcome::Done,
    Text("dropped a 4 places\n"),
);

const ONLY_B: &str = "1 b 200 4\n";

static DROPS: [Step; 47] = [
    Title("each live place of a chunk is counted"),
    MADE,
    FIRST_TAKEN,
    SECOND_TAKEN,
    Run("store,refs", Zeros(0), Outcome::Done, Text(COUNTED)),
    Run("store,list", Zeros(0), Outcome::Done, Text(BOTH)),
    Title("a dropped session counts no more and its name is free"),
    MADE,
    FIRST_TAKEN,
    SECOND_TAKEN,
    Run("store,ingest,b", Zeros(200), Outcome::NameTaken, Text("")),
    DROP_A,
    Run("store,refs", Zeros(0), Outcome::Done, Text(COUNTED_ONCE)),
    Run("store,list", Zeros(0), Outcome::Done, Text(ONLY_B)),
    Run("store,restore,a", Zeros(0), Outcome::NoSession, Text("")),
    Run(
        "store,ingest,a",
        Zeros(200),
        Outcome::Done,
        Text("ingested a 200 bytes 4 places 0 new\n"),
    ),
    Run(
        "store,list",
        Zeros(0),
        Outcome::Done,
        Text("1 b 200 4\n2 a 200 4\n"),
    ),
    Run("store,refs", Zeros(0), Outcome::Done, Text(COUNTED)),
    DROP_A,
    Run("store,list", Zeros(0), Outcome::Done, Text(ONLY_B)),
    Title("a chunk that no live session names stays"),
    MADE,
    FIRST_TAKEN,
    SECOND_TAKEN,
    DROP_A,
    Run(
        "store,drop,b",
        Zeros(0),
        Outcome::Done,
        Text("dropped b 4 places\n"),
    ),
    Run("store,refs", Zeros(0), Outcome::Done, Text(COUNTED_NONE)),
    Run("store,list", Zeros(0), Outcome::Done, Text("")),
    Run("store,drop,a", Zeros(0), Outcome::NoSession, Text("")),
    // Each drop appends a record of 41 bytes, and one byte to the seal.
    Has(File::Container(0, 0), 80, ""),
    Has(File::Book(0), 206 + 2 * 41, ""),
    Has(File::Seal(0), 4, ""),
    Title("a store of no sessions has no chunk to count"),
    MADE_BY_DEFAULT,
    Run("store,refs", Zeros(0), Outcome::Done, Text("")),
    Run("store,drop,a", Zeros(0), Outcome::NoSession, Text("")),
    Title("a failed write leaves the drop"),
    MADE,
    FIRST_TAKEN,
    SECOND_TAKEN,
    Over(Planned {
        line: "store,drop,a",
        input: Zeros(0),
        failing: (9, 0),
        ending: Outcome::SinkFault,
        output: "",
        next_read: (Ok(0), 0),
        next_write: Ok(1),
    }),
    Run("store,list", Zeros(0), Outcome::Done, Text(ONLY_B)),
    Title("whichever call fails the session is dropped or not"),
    MADE,
    FIRST_TAKEN,
    SECOND_TAKEN,
    Survives(Change {
        line: "store,drop,a",
        input: Zeros(0),
        output: Text("dropped a 4 places\n"),
        before: Text(BOTH),
        after: Text(ONLY_B),
        calls: 32,
    }),
];

#[test]
fn a_dropped_session_is_counted_no_more_and_its_chunks_stay(rt: HostRuntime) -> Result<(), Fail> {
    follow(&rt, rt.alloc(), &DROPS)
}
