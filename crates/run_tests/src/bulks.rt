//! The words of `bulk`, and runs of it over a shelf in memory.
use crate::runs::words;
use backup_top::{BadKind, BadWords, Command, Outcome, read_words, run_in_memory};
use edge_traits::MemShelf;
use sd_base::How;
use std::alloc::{AllocError, Global};
use std::test::Fail;
use std::thread::Threads;

// Command lines, and the word of each that fails.
static BAD: [(&str, BadKind, u32); 10] = [
    ("store,bulk", BadKind::Missing, 1),
    ("store,bulk,7", BadKind::Missing, 2),
    ("store,bulk,07,1", BadKind::Number, 1),
    ("store,bulk,18446744073709551616,1", BadKind::Number, 1),
    ("store,bulk,7,0", BadKind::Number, 2),
    ("store,bulk,7,4097", BadKind::Number, 2),
    ("store,bulk,7,1,batch=65536", BadKind::Key, 3),
    ("store,bulk,7,1,shards=257", BadKind::Value, 3),
    ("store,bulk,7,1,workers=65", BadKind::Value, 3),
    ("store,bulk,7,1,workers=1,workers=1", BadKind::Twice, 4),
];

fn is_read_as(
    alloc: Global,
    line: &str,
    command: Result<Command, BadWords>,
) -> Result<bool, AllocError> {
    let words = words(alloc, line)?;
    Ok(read_words(words.as_slice()) == command)
}

const MOST: Command = Command::Bulk {
    seed: u64::MAX,
    blocks: 4096,
    how: How {
        workers: 8,
        segment: 47,
        batch: 1_048_576,
        shards: 256,
    },
};

#[test]
fn words_of_bulk_are_read_from_left_to_right(rt: HostRuntime) -> Result<(), Fail> {
    for (line, kind, place) in &BAD {
        let bad = Err(BadWords {
            kind: *kind,
            place: *place,
        });
        assert!(rt; is_read_as(rt.alloc(), line, bad)?, "{line}");
    }
    let line = "store,bulk,18446744073709551615,4096,segment=47,shards=256,workers=8";
    assert!(rt; is_read_as(rt.alloc(), line, Ok(MOST))?, "{line}");
    Ok(())
}

// Command lines one after another, and how each ends.
static RUNS: [(&str, Outcome, &str); 4] = [
    ("store,bulk,7,1", Outcome::NoStore, ""),
    ("store,init", Outcome::Done, "ready\n"),
    (
        "store,bulk,7,1,workers=2",
        Outcome::Done,
        "ingested bulk.7.1 65536 bytes 5 places 5 new\n",
    ),
    ("store,bulk,7,1", Outcome::NameTaken, ""),
];

fn ends_as<H: Threads + Sync>(
    rt: &H,
    alloc: Global,
    shelf: &mut MemShelf,
    line: &str,
    outcome: Outcome,
    text: &str,
) -> Result<bool, AllocError> {
    let words = words(alloc, line)?;
    let (ended, sink) = run_in_memory(rt, alloc, words.as_slice(), Vec::new(alloc), shelf);
    Ok(ended == outcome && sink.written() == text.as_bytes())
}

#[test]
fn generated_blocks_are_taken_in_once(rt: HostRuntime) -> Result<(), Fail> {
    let mut shelf = MemShelf::new(rt.alloc(), Vec::new(rt.alloc()));
    for (line, outcome, text) in &RUNS {
        let ends = ends_as(&rt, rt.alloc(), &mut shelf, line, *outcome, text)?;
        assert!(rt; ends, "{line}");
    }
    Ok(())
}
