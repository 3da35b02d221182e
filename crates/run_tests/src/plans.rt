//! Runs of `plan`, and the same cuts by plain division.
ghost use Rattle.std.specs.Prelude.{◌≡◌, Some};

use crate::runs::Bytes::{OneAt, Text, Zeros};
use crate::runs::{Bytes, Planned, byte_by_byte, bytes_in, words};
use crate::steps::Step::{Over, Run};
use crate::steps::{Step, follow};
use backup_top::{BadKind, BadParams, BadWords, Outcome, plain_cuts, run};
use edge_traits::{EdgeFault, NoShelf, Sink};
use sd_base::{MAX_INPUT, Params};
use std::alloc::Global;
use std::test::Fail;
use std::thread::Threads;

// t^63 + 1: a byte 1 with 47 zeros before it has the fingerprint 1, and zeros have 0.
const SPARSE: u64 = 0x8000_0000_0000_0001;

const ALL: &str = "store,plan,polynomial=8000000000000001,bits=13,min=64,max=256,target=0";

const FEW: &str = "store,plan,polynomial=8000000000000001,bits=13,min=64,max=256,target=1";

// Names by `sha256sum` of the bytes of each chunk.
const ALL_MATCH: &str = "\
0 64 f5a5fd42d16a20302798ef6ed309979b43003d2320d9f0e8ea9831a92759fb4b
64 64 f5a5fd42d16a20302798ef6ed309979b43003d2320d9f0e8ea9831a92759fb4b
128 64 f5a5fd42d16a20302798ef6ed309979b43003d2320d9f0e8ea9831a92759fb4b
192 8 af5570f5a1810b7af78caf4bc70a660f0df51e42baf91d4de5b2328de0e83dfc
";

const NO_MATCH: &str = "\
0 256 5341e6b2646979a70e57653007a1f310169421ec9bdd9f1a5648f75ade005af1
256 256 5341e6b2646979a70e57653007a1f310169421ec9bdd9f1a5648f75ade005af1
512 188 e37ce3b00a1f15b3de62029972345420b76313a885c6ccc6e3b5547857b3ecc6
";

const AT_100: &str = "\
0 100 525370574635186b20fc1e1203e1453e4c3d5d17d0c66859ea18217a5b309b67
100 200 6d9c54dee5660c46886f32d80e57e9dd0ffa57ee0cd2a762b036d9c8e0c3a33a
";

const BELOW_MINIMUM: &str = "\
0 200 5003b4f95da4a0de53f0c49c3e3ff7fce19afb4a6d9c30a1ab1c7b252c2c09fd
";

const AT_MINIMUM: &str = "\
0 64 90f4b39548df55ad6187a1d20d731ecee78c545b94afd16f42ef7592d99cd365
64 136 b707241545a346265aab1ffb32ff64b55bf8f8dc1b56a46ef33ce3d15db11d33
";

const PAST_MAXIMUM: &str = "\
0 256 5341e6b2646979a70e57653007a1f310169421ec9bdd9f1a5648f75ade005af1
256 44 8c63f77e4a89707a17ed42972517700bc8913315f36c72fcfe833910a506cd8f
";

const ONE_CHUNK: &str = "\
0 300 cdbca213c17bb78ae98ce693377dbed4ec7497e301d2ddd504550b9cb5c99d4b
";

const THREE_ZEROS: &str = "\
0 3 709e80c88487a2411e1ee4dfb9f22a861492d20c4765150c0c794abd70f8147c
";

static RUNS: [Step; 12] = [
    // An empty input has no chunk.
    Run(FEW, Zeros(0), Outcome::Done, Text("")),
    // With no candidate each chunk but the last has the maximum.
    Run(FEW, Zeros(700), Outcome::Done, Text(NO_MATCH)),
    // With a candidate at each position each chunk but the last has the minimum.
    Run(ALL, Zeros(200), Outcome::Done, Text(ALL_MATCH)),
    // A chunk ends right after the byte that makes a candidate.
    Run(FEW, OneAt(300, 99), Outcome::Done, Text(AT_100)),
    // A candidate below the minimum is passed over.
    Run(FEW, OneAt(200, 62), Outcome::Done, Text(BELOW_MINIMUM)),
    // One at the minimum is a cut.
    Run(FEW, OneAt(200, 63), Outcome::Done, Text(AT_MINIMUM)),
    // One after the maximum comes too late, and is below the minimum of the next chunk.
    Run(FEW, OneAt(300, 256), Outcome::Done, Text(PAST_MAXIMUM)),
    // Under the default parameters the minimum is 2048.
    Run("store,plan", OneAt(300, 99), Outcome::Done, Text(ONE_CHUNK)),
    Run(
        "store,plan",
        Zeros(MAX_INPUT as usize + 1),
        Outcome::InputTooLong,
        Text(""),
    ),
    Run(
        "store,plan,bits=99,bits=13",
        Zeros(3),
        Outcome::BadWords(BadWords {
            kind: BadKind::Twice,
            place: 2,
        }),
        Text(""),
    ),
    Run(
        "store,plan,min=47,bits=0",
        Zeros(3),
        Outcome::BadParams(BadParams::Bits),
        Text(""),
    ),
    // It reads to the end and writes once.
    Over(Planned {
        line: "store,plan",
        input: Zeros(3),
        failing: (4, 1),
        ending: Outcome::Done,
        output: THREE_ZEROS,
        next_read: (Err(EdgeFault::Failed), 0),
        next_write: Err(EdgeFault::Failed),
    }),
];

#[test]
fn a_run_prints_the_chunks_that_the_rule_cuts_or_refuses(rt: HostRuntime) -> Result<(), Fail> {
    follow(&rt, rt.alloc(), &RUNS)
}

// A sink that takes one byte of each piece, and fails once it has `room` bytes.
#[derive(Drop)]
struct Slow {
    bytes: Vec<u8>,
    room: usize,
    faults: u64,
}

impl Sink for Slow {
    ghost written = { λ sink. Some sink.bytes.items };

    ghost faults = { λ sink. sink.faults };

    ghost faultless = { λ _. ⊥ };

    fn write(&mut self, bytes: &[u8]) -> Result<usize, EdgeFault> {
        if self.bytes.len() == self.room {
            self.faults = self.faults.saturating_add(1);
            return Err(EdgeFault::Failed);
        }
        match bytes.first() {
            None => Ok(0),
            Some(byte) => {
                self.bytes.push(*byte)?;
                Ok(1)
            }
        }
    }
}

// The read that fails, the room of the sink, how the run ends, what is written and the faults.
type SlowRun = (u32, usize, Outcome, &'static str, u64);

static SLOW_RUNS: [SlowRun; 4] = [
    (1000, 1000, Outcome::Done, AT_100, 0),
    // A read that fails in mid-stream: nothing is written.
    (2, 1000, Outcome::SourceFault, "", 0),
    // A write that fails: a prefix of the text is written.
    (1000, 0, Outcome::SinkFault, "", 1),
    (1000, 5, Outcome::SinkFault, "0 100", 1),
];

// Whether a run of `FEW` over no files goes so, on zeros with a byte 1 that are read one by one.
fn goes_slowly<H: Threads + Sync>(rt: &H, alloc: Global, row: &SlowRun) -> Result<bool, Fail> {
    let (failing, room, ending, text, faults) = row;
    let words = words(alloc, FEW)?;
    let mut source = byte_by_byte(alloc, &OneAt(300, 99), *failing)?;
    let mut sink = Slow {
        bytes: Vec::new(alloc),
        room: *room,
        faults: 0,
    };
    let mut shelf = NoShelf::new();
    let outcome = run(
        rt,
        alloc,
        words.as_slice(),
        &mut source,
        &mut sink,
        &mut shelf,
    );
    Ok(outcome == *ending && sink.bytes.as_slice() == text.as_bytes() && sink.faults == *faults)
}

#[test]
fn reads_and_writes_of_a_byte_change_nothing_until_one_fails(rt: HostRuntime) -> Result<(), Fail> {
    for row in &SLOW_RUNS {
        assert!(rt; goes_slowly(&rt, rt.alloc(), row)?, "{} {}", row.0, row.1);
    }
    Ok(())
}

// The target under `SPARSE`, the input and the cuts.
type Cuts = (u32, Bytes, &'static [u32]);

static CUTS: [Cuts; 6] = [
    (1, Zeros(700), &[256, 512, 700]),
    (0, Zeros(200), &[64, 128, 192, 200]),
    (1, OneAt(200, 62), &[200]),
    (1, OneAt(200, 63), &[64, 200]),
    (1, OneAt(300, 256), &[256, 300]),
    (1, Zeros(0), &[]),
];

// Whether plain division cuts as a row says.
fn cuts_so(alloc: Global, row: &Cuts) -> Result<bool, Fail> {
    let (target, input, cuts) = row;
    let params = Params::new(SPARSE, 13, *target, 64, 256)?;
    let input = bytes_in(alloc, input)?;
    if input.len() >= 1000 {
        return Ok(false);
    }
    Ok(plain_cuts(alloc, &params, &input)?.as_slice() == *cuts)
}

#[test]
fn plain_division_cuts_where_the_rule_does(rt: HostRuntime) -> Result<(), Fail> {
    for (number, row) in CUTS.iter().enumerate() {
        assert!(rt; cuts_so(rt.alloc(), row)?, "row {number}");
    }
    Ok(())
}
