//! Fields of a record, read from the front of bytes.
ghost use Rattle.std.specs.Prelude.{◌≡◌, ◌*◌, ◌<◌, ◌≤◌, ℕ, List, [], length, Option, option_map, IfOk};
ghost use Rattle.std.specs.Vec.{vec_capacity};
ghost use Rattle.session_book.specs.Reading.{ReadsAs, number_at, bytes_at, name_at, chunk_at, list_at, chunks_at, entries_at, ingest_at, ingest_after_name, record_of};
ghost use Rattle.session_book.specs.declared.record_reader.Stop.TheVariants.{Memory};

use crate::lengths::NEW_CHUNK_LEN;
use sd_base::{
    DIGEST_LEN, DROP_KIND, INGEST_KIND, IngestRecord, MAX_CHUNK_LEN, MAX_CHUNKS, MAX_PLACES,
    NUMBER_LEN, Name, NewChunk, NewChunks, Recipe, Record,
};
use std::alloc::{AllocError, AllocFailed, Global};

// Why a field was not read.
#[derive(Debug, Drop)]
pub enum Stop {
    // Memory ran out.
    Memory,
    // The bytes do not begin with such a field.
    Unspelled,
}

impl From<AllocError> for Stop {
    ghost from_gives = { λ _ stop. stop ≡ Memory };

    fn from(_: AllocError) -> Self {
        Stop::Memory
    }
}

impl<T: Drop> From<AllocFailed<T>> for Stop {
    ghost from_gives = { λ _ stop. stop ≡ Memory };

    fn from(_: AllocFailed<T>) -> Self {
        Stop::Memory
    }
}

// A number and the bytes after it.
pub fn split_number(bytes: &[u8]) -> Option<(u32, &[u8])>
    ensures { option_map (λ x. (x.0, x.1.now)) result ≡ number_at bytes.now }
{
    let (front, rest) = bytes.split_first_chunk::<NUMBER_LEN>()?;
    Some((u32::from_be_bytes(*front), rest))
}

// The first bytes and those after them.
pub fn split_bytes(bytes: &[u8], len: usize) -> Option<(&[u8], &[u8])>
    ensures { option_map (λ x. (x.0.now, x.1.now)) result ≡ bytes_at len bytes.now }
{
    bytes.split_at_checked(len)
}

fn read_number(bytes: &[u8]) -> Result<(u32, &[u8]), Stop>
    ensures { ReadsAs (λ x. (x.0, x.1.now)) result (number_at bytes.now) }
{
    split_number(bytes).ok_or(Stop::Unspelled)
}

fn read_bytes(bytes: &[u8], len: usize) -> Result<(&[u8], &[u8]), Stop>
    ensures { ReadsAs (λ x. (x.0.now, x.1.now)) result (bytes_at len bytes.now) }
{
    split_bytes(bytes, len).ok_or(Stop::Unspelled)
}

// The name of a session.
#[tactic(auto, unfolding(crate::specs::Reading::name_at))]
fn read_name(bytes: &[u8]) -> Result<(Name, &[u8]), Stop>
    ensures { ReadsAs (λ x. (x.0, x.1.now)) result (name_at bytes.now) }
{
    match bytes {
        [] => Err(Stop::Unspelled),
        [len, rest @ ..] => {
            let (bytes, rest) = read_bytes(rest, *len as usize)?;
            match Name::read(bytes) {
                Ok(name) => Ok((name, rest)),
                Err(_) => Err(Stop::Unspelled),
            }
        }
    }
}

// The name of a chunk.
fn read_chunk_name(bytes: &[u8]) -> Result<([u8; 32], &[u8]), Stop>
    ensures { ReadsAs (λ x. (x.0, x.1.now)) result (bytes_at DIGEST_LEN bytes.now) }
{
    match bytes.split_first_chunk::<DIGEST_LEN>() {
        Some((name, rest)) => Ok((*name, rest)),
        None => Err(Stop::Unspelled),
    }
}

// A new chunk.
#[tactic(auto, unfolding(crate::specs::Reading::chunk_at))]
fn read_chunk(bytes: &[u8]) -> Result<(NewChunk, &[u8]), Stop>
    ensures { ReadsAs (λ x. (x.0, x.1.now)) result (chunk_at bytes.now) }
{
    let (length, rest) = read_number(bytes)?;
    let (name, rest) = read_chunk_name(rest)?;
    if length < 1 || length > MAX_CHUNK_LEN {
        return Err(Stop::Unspelled);
    }
    Ok((NewChunk { length, name }, rest))
}

// An empty list with room for a number of items of a length, but for no more than the bytes can
// hold: a count that is stated is not trusted.
fn list_for<T>(
    alloc: Global,
    count: u32,
    item_len: usize,
    bytes: &[u8],
) -> Result<Vec<T>, AllocError>
    requires { 0 < item_len }
    ensures empty { IfOk result (λ list. list.items ≡ []) }
    ensures room { IfOk result (λ list. vec_capacity list * item_len ≤ length bytes.now) }
{
    Vec::with_capacity(alloc, (count as usize).min(bytes.len() / item_len))
}

// An item of a list.
trait Item: Drop + Sized {
    // The item at the front of bytes and the bytes after it.
    ghost at: { List ℕ → Option (Self × List ℕ) };

    fn read(bytes: &[u8]) -> Result<(Self, &[u8]), Stop>
        ensures { ReadsAs (λ x. (x.0, x.1.now)) result (at bytes.now) };
}

impl Item for u32 {
    ghost at = { number_at };

    fn read(bytes: &[u8]) -> Result<(u32, &[u8]), Stop> {
        read_number(bytes)
    }
}

impl Item for NewChunk {
    ghost at = { chunk_at };

    fn read(bytes: &[u8]) -> Result<(NewChunk, &[u8]), Stop> {
        read_chunk(bytes)
    }
}

// A number of items, pushed to an empty list.
fn read_list<T: Item>(list: Vec<T>, count: u32, bytes: &[u8]) -> Result<(Vec<T>, &[u8]), Stop>
    requires { list.items ≡ [] }
    ensures { ReadsAs (λ x. (x.0.items, x.1.now)) result (list_at T.at count bytes.now) }
{
    let mut list = list;
    let mut rest = bytes;
    'items: for _ in 0..count {
        let (item, after) = T::read(rest)?;
        list.push(item)?;
        rest = after;
    }
    Ok((list, rest))
}

// The new chunks of an ingest, after their number.
#[tactic(auto, unfolding(crate::specs::Reading::chunks_at))]
fn read_chunks(alloc: Global, bytes: &[u8]) -> Result<(Vec<NewChunk>, &[u8]), Stop>
    ensures { ReadsAs (λ x. (x.0.items, x.1.now)) result (chunks_at bytes.now) }
{
    let (count, rest) = read_number(bytes)?;
    if count > MAX_CHUNKS {
        return Err(Stop::Unspelled);
    }
    read_list(list_for(alloc, count, NEW_CHUNK_LEN, rest)?, count, rest)
}

// The entries of a recipe, after their number.
#[tactic(auto, unfolding(crate::specs::Reading::entries_at))]
fn read_entries(alloc: Global, bytes: &[u8]) -> Result<(Vec<u32>, &[u8]), Stop>
    ensures { ReadsAs (λ x. (x.0.items, x.1.now)) result (entries_at bytes.now) }
{
    let (count, rest) = read_number(bytes)?;
    if count > MAX_PLACES {
        return Err(Stop::Unspelled);
    }
    read_list(list_for(alloc, count, NUMBER_LEN, rest)?, count, rest)
}

#[tactic(auto, unfolding(crate::specs::Reading::ingest_at))]
fn read_ingest(alloc: Global, bytes: &[u8]) -> Result<(IngestRecord, &[u8]), Stop>
    ensures { ReadsAs (λ x. (x.0, x.1.now)) result (ingest_at bytes.now) }
{
    match read_name(bytes) {
        Err(stop) => Err(stop),
        Ok((name, rest)) => read_after_name(alloc, name, rest),
    }
}

// An ingest of a name, from the bytes after the name.
fn read_after_name(alloc: Global, name: Name, bytes: &[u8]) -> Result<(IngestRecord, &[u8]), Stop>
    ensures { ReadsAs (λ x. (x.0, x.1.now)) result (ingest_after_name name bytes.now) }
{
    let (length, rest) = read_number(bytes)?;
    let (fresh, rest) = read_chunks(alloc, rest)?;
    let (recipe, rest) = read_entries(alloc, rest)?;
    let fresh = NewChunks::from(fresh);
    let recipe = Recipe::from(recipe);
    Ok((
        IngestRecord {
            name,
            length,
            fresh,
            recipe,
        },
        rest,
    ))
}

// The record of a kind and a body, all of the body.
#[tactic(auto, unfolding(crate::specs::Reading::record_of))]
pub fn read_record(alloc: Global, kind: u8, body: &[u8]) -> Result<Record, Stop>
    ensures { ReadsAs (λ entry. entry) result (record_of kind body.now) }
{
    match kind {
        INGEST_KIND => {
            let (entry, rest) = read_ingest(alloc, body)?;
            if rest.is_empty() {
                Ok(Record::Ingest(entry))
            } else {
                Err(Stop::Unspelled)
            }
        }
        DROP_KIND => {
            let (session, rest) = read_number(body)?;
            if rest.is_empty() {
                Ok(Record::Drop(session))
            } else {
                Err(Stop::Unspelled)
            }
        }
        _ => Err(Stop::Unspelled),
    }
}
