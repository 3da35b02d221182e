//! The command that a command line names.
use crate::runs::words;
use backup_top::read_words;
use sd_base::{
    BadKind, BadWords, Command, DEFAULT_SEGMENT, DEFAULT_WORKERS, How, Name, Quiet, RawParams,
};
use std::alloc::{AllocError, Global};
use std::test::Fail;

// Whether a command line is read as this command, or refused so.
fn is_read_as(
    alloc: Global,
    line: &str,
    command: Result<Command, BadWords>,
) -> Result<bool, AllocError> {
    let words = words(alloc, line)?;
    Ok(read_words(words.as_slice()) == command)
}

// Command lines, and the word of each that fails.
static BAD: [(&str, BadKind, u32); 33] = [
    ("store", BadKind::Missing, 0),
    ("store,Plan", BadKind::Command, 0),
    ("store,,bits=13", BadKind::Command, 0),
    ("store,prune", BadKind::Command, 0),
    ("store,plan,", BadKind::Key, 1),
    ("store,plan,bits=13,bits", BadKind::Key, 2),
    ("store,plan,bits=13,min=64,bits=", BadKind::Twice, 3),
    ("store,plan,min=64,bits=07", BadKind::Value, 2),
    ("store,plan,bits==3", BadKind::Value, 1),
    ("store,plan,max=18446744073709551616", BadKind::Value, 1),
    ("store,plan,polynomial=1g", BadKind::Value, 1),
    (
        "store,plan,max=256,min=64,target=1,bits=13,polynomial=3,bits=14",
        BadKind::Twice,
        6,
    ),
    (
        "store,plan,max=256,min=64,target=1,bits=13,polynomial=3,workers=1,segment=1,batch=65536",
        BadKind::Key,
        8,
    ),
    ("store,plan,workers=65", BadKind::Value, 1),
    ("store,plan,workers=0", BadKind::Value, 1),
    ("store,plan,workers=2,workers=99", BadKind::Twice, 2),
    ("store,plan,segment=268435457", BadKind::Value, 1),
    ("store,init,bits=13,segment=1", BadKind::Key, 2),
    ("store,init,min=64,min=64", BadKind::Twice, 2),
    ("store,ingest", BadKind::Missing, 1),
    ("store,ingest,.x", BadKind::Name, 1),
    ("store,ingest,a,bits=13", BadKind::Key, 2),
    ("store,ingest,a,workers=1,segment=0", BadKind::Value, 3),
    ("store,ingest,a,workers=1,workers=1", BadKind::Twice, 3),
    ("store,list,a", BadKind::Key, 1),
    ("store,restore", BadKind::Missing, 1),
    ("store,restore,,b", BadKind::Name, 1),
    ("store,restore,a,b", BadKind::Key, 2),
    ("store,drop", BadKind::Missing, 1),
    ("store,drop,.x", BadKind::Name, 1),
    ("store,drop,a,b", BadKind::Key, 2),
    ("store,refs,a", BadKind::Key, 1),
    ("store,audit,a", BadKind::Key, 1),
];

#[test]
fn the_first_word_that_fails_is_named(rt: HostRuntime) -> Result<(), Fail> {
    for (line, kind, place) in &BAD {
        let bad = Err(BadWords {
            kind: *kind,
            place: *place,
        });
        assert!(rt; is_read_as(rt.alloc(), line, bad)?, "{line}");
    }
    Ok(())
}

// Command lines of `plan`, and the polynomial, the bits, the target, the minimum and the maximum.
static PLANS: [(&str, u64, [u32; 4]); 6] = [
    ("store,plan", 0x3D_A335_8B4D_C173, [13, 120, 2048, 65536]),
    (
        "store,plan,polynomial=8000000000000001,bits=13,target=1,min=64,max=256",
        0x8000_0000_0000_0001,
        [13, 1, 64, 256],
    ),
    (
        "store,plan,max=256,target=1,polynomial=8000000000000001,min=64,bits=13",
        0x8000_0000_0000_0001,
        [13, 1, 64, 256],
    ),
    (
        "store,plan,target=5,min=64",
        0x3D_A335_8B4D_C173,
        [13, 5, 64, 65536],
    ),
    (
        "store,plan,polynomial=FFFFFFFFFFFFFFFF,max=4294967295",
        0xFFFF_FFFF_FFFF_FFFF,
        [13, 120, 2048, 4_294_967_295],
    ),
    (
        "store,plan,polynomial=000000000001aBcD,bits=0",
        0x1_ABCD,
        [0, 120, 2048, 65536],
    ),
];

// The command `plan` with these parameters and the default workers and segment.
fn plan(polynomial: u64, numbers: &[u32; 4]) -> Command {
    let [bits, target, min, max] = *numbers;
    Command::Quiet(Quiet::Plan {
        raw: RawParams {
            polynomial,
            bits,
            target,
            min,
            max,
        },
        workers: DEFAULT_WORKERS,
        segment: DEFAULT_SEGMENT,
    })
}

#[test]
fn keys_in_any_order_set_the_parameters(rt: HostRuntime) -> Result<(), Fail> {
    for (line, polynomial, numbers) in &PLANS {
        let command = Ok(plan(*polynomial, numbers));
        assert!(rt; is_read_as(rt.alloc(), line, command)?, "{line}");
    }
    Ok(())
}

const RAW: RawParams = RawParams {
    polynomial: 0x8000_0000_0000_0001,
    bits: 13,
    target: 0,
    min: 64,
    max: 256,
};

const HOW: How = How {
    workers: 4,
    segment: 65_536,
    batch: 1_048_576,
    shards: 16,
};

const MANY: How = How {
    workers: 64,
    segment: 268_435_456,
    batch: 1_048_576,
    shards: 1,
};

#[test]
fn each_command_of_the_store_has_its_words(rt: HostRuntime) -> Result<(), Fail> {
    let name = Name::read(b"a.1").ok().ok_or("a name")?;
    for (line, command) in [
        (
            "store,init,polynomial=8000000000000001,bits=13,target=0,min=64,max=256",
            Command::Quiet(Quiet::Init { raw: RAW }),
        ),
        ("store,ingest,a.1", Command::Ingest { name, how: HOW }),
        (
            "store,ingest,a.1,segment=268435456,shards=1,workers=64",
            Command::Ingest { name, how: MANY },
        ),
        (
            "store,plan,workers=1,bits=13,target=0,polynomial=8000000000000001,segment=47,min=64,max=256",
            Command::Quiet(Quiet::Plan {
                raw: RAW,
                workers: 1,
                segment: 47,
            }),
        ),
        ("store,list", Command::Quiet(Quiet::List)),
        ("store,restore,a.1", Command::Quiet(Quiet::Restore { name })),
        ("store,drop,a.1", Command::Quiet(Quiet::Drop { name })),
        ("store,refs", Command::Quiet(Quiet::Refs)),
        ("store,audit", Command::Quiet(Quiet::Audit)),
    ] {
        assert!(rt; is_read_as(rt.alloc(), line, Ok(command))?, "{line}");
    }
    Ok(())
}
