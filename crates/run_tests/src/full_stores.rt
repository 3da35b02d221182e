//! Ingests into a store that holds as much of a thing as it may.
use crate::runs::Bytes::{Text, Zeros};
use crate::runs::Planned;
use crate::steps::Step::{Over, Run};
use crate::steps::{MADE_BY_DEFAULT, Step, follow_on};
use backup_top::Outcome;
use edge_traits::{EdgeFault, File, MemShelf};
use sd_base::{IngestRecord, MAX_CHUNKS, MAX_PLACES, Name, NewChunk, Record};
use session_book::encode_record;
use std::alloc::Global;
use std::test::Fail;
use std::thread::Threads;

static MADE: [Step; 1] = [MADE_BY_DEFAULT];

/// A shelf with the head of a new store, and this book with a seal of so many records.
fn booked<H: Threads + Sync>(
    rt: &H,
    alloc: Global,
    book: &[u8],
    records: usize,
) -> Result<MemShelf, Fail> {
    let mut shelf = MemShelf::new(alloc, Vec::new(alloc));
    follow_on(rt, alloc, &mut shelf, &MADE)?;
    shelf.put_file(File::Seal(0), &vec![in alloc; 1u8; records]?)?;
    shelf.put_file(File::Book(0), book)?;
    Ok(shelf)
}

/// The name of a zero, by `sha256sum`.
const ZERO: [u8; 32] = [
    0x6e, 0x34, 0x0b, 0x9c, 0xff, 0xb3, 0x7a, 0x98, 0x9c, 0xa5, 0x44, 0xe6, 0xbb, 0x78, 0x0a, 0x2c,
    0x78, 0x90, 0x1d, 0x3f, 0xb3, 0x37, 0x38, 0x76, 0x85, 0x11, 0xa3, 0x06, 0x17, 0xaf, 0xa0, 0x1d,
];

/// The record of a session of chunks that are each one zero, and of a recipe.
fn zeros_record(alloc: Global, name: &str, fresh: u32, recipe: Vec<u32>) -> Result<Vec<u8>, Fail> {
    if fresh > MAX_CHUNKS || recipe.len() > MAX_PLACES as usize {
        return Err(Fail::from("more than a record may have"));
    }
    let zero = NewChunk {
        length: 1,
        name: ZERO,
    };
    let record = Record::Ingest(IngestRecord {
        name: Name::read(name.as_bytes()).ok().ok_or("a name")?,
        length: recipe.len() as u32,
        fresh: vec![in alloc; zero; fresh as usize]?.into(),
        recipe: recipe.into(),
    });
    Ok(encode_record(alloc, &record)?)
}

static PAST_SESSIONS: [Step; 1] = [Over(Planned {
    line: "store,ingest,x",
    input: Text("abc"),
    failing: (9, 0),
    ending: Outcome::TooManySessions,
    output: "",
    next_read: (Ok(1), b'a'),
    next_write: Err(EdgeFault::Failed),
})];

#[test]
fn a_store_of_4096_sessions_takes_no_more_and_reads_no_byte(rt: HostRuntime) -> Result<(), Fail> {
    let book = sessions(rt.alloc(), 4096)?;
    let mut shelf = booked(&rt, rt.alloc(), &book, 4096)?;
    follow_on(&rt, rt.alloc(), &mut shelf, &PAST_SESSIONS)
}

/// A book of sessions of no bytes.
fn sessions(alloc: Global, count: u32) -> Result<Vec<u8>, Fail> {
    let mut book = Vec::new(alloc);
    for number in 0..count {
        let name = format!(in alloc; "s{number}")?;
        let record = zeros_record(alloc, name.as_str(), 0, Vec::new(alloc))?;
        book.extend_from_slice(&record)?;
    }
    Ok(book)
}

static PAST_PLACES: [Step; 2] = [
    Run(
        "store,ingest,x",
        Text("abc"),
        Outcome::TooManyPlaces,
        Text(""),
    ),
    Run(
        "store,ingest,x",
        Zeros(0),
        Outcome::Done,
        Text("ingested x 0 bytes 0 places 0 new\n"),
    ),
];

#[test]
fn a_store_of_16777216_places_takes_no_more(rt: HostRuntime) -> Result<(), Fail> {
    let recipe = vec![in rt.alloc(); 0u32; 1 << 24]?;
    let record = zeros_record(rt.alloc(), "a", 1, recipe)?;
    let mut shelf = booked(&rt, rt.alloc(), &record, 1)?;
    shelf.put_file(File::Container(0, 0), b"SSCP\0\0\0\0\0")?;
    follow_on(&rt, rt.alloc(), &mut shelf, &PAST_PLACES)
}

static PAST_CHUNKS: [Step; 1] = [Run(
    "store,ingest,x",
    Text("abc"),
    Outcome::TooManyChunks,
    Text(""),
)];

#[test]
fn a_store_of_4194304_chunks_takes_no_more(rt: HostRuntime) -> Result<(), Fail> {
    let record = chunks_record(rt.alloc())?;
    let mut shelf = booked(&rt, rt.alloc(), &record, 1)?;
    put_containers(rt.alloc(), &mut shelf)?;
    follow_on(&rt, rt.alloc(), &mut shelf, &PAST_CHUNKS)
}

/// The record of a session that names each of the most chunks once.
fn chunks_record(alloc: Global) -> Result<Vec<u8>, Fail> {
    let mut recipe = Vec::new(alloc);
    for number in 0..1 << 22 {
        recipe.push(number)?;
    }
    zeros_record(alloc, "a", 1 << 22, recipe)
}

/// Puts the containers of the most chunks of one zero into a shelf. The first is full.
fn put_containers(alloc: Global, shelf: &mut MemShelf) -> Result<(), Fail> {
    let mut first = b"SSCP\0\0\0\0".to_vec(alloc)?;
    first.resize(1 << 22, 0)?;
    shelf.put_file(File::Container(0, 0), &first)?;
    Ok(shelf.put_file(File::Container(0, 1), b"SSCP\0\0\0\x01\0\0\0\0\0\0\0\0")?)
}
