//! Records as bytes.
ghost use Rattle.std.specs.Prelude.{◌≡◌, ◌++◌, ◌+◌, ◌*◌, ◌<◌, ◌≤◌, ◌^◌, length, IfOk, OnOk};
ghost use Rattle.std.specs.List.{All, flat_map};
ghost use Rattle.sd_base.specs.Records.{u32_bytes, new_chunk, ingest_body, digested, kind_of, body_of, spelling_of, IsWithinLimits, IsIngestWithinLimits, IsIngest, IsRecord};

use crate::lengths::{DROP_LEN, INGEST_NUMBERS, NEW_CHUNK_LEN, SESSION_ROOM};
use sd_base::{
    AROUND_BODY, DIGEST_LEN, DROP_KIND, INGEST_KIND, IngestRecord, MAX_CHUNKS, NUMBER_LEN,
    NewChunk, OutOfMemory, Record,
};
use sha2::{Digest, Sha256};
use std::alloc::{AllocError, Global};

/// The one spelling of a record whose lists are within the limits. Such a record is of the grammar,
/// so `next_record` reads it again. It fails only if memory runs out.
#[tactic(auto, unfolding(sd_base::specs::Records::spelling_of))]
pub fn encode_record(alloc: Global, entry: &Record) -> Result<Vec<u8>, OutOfMemory>
    requires { IsWithinLimits entry.now }
    ensures spelled { IfOk result (λ bytes. bytes.items ≡ spelling_of entry.now) }
    ensures lawful { IsRecord entry.now }
{
    let mut out = Vec::new(alloc);
    append_digested(&mut out, entry)?;
    let digest = Sha256::digest(out.as_slice());
    out.extend_from_slice(&digest)?;
    Ok(out)
}

// Appends a record except for its digest.
fn append_digested(out: &mut Vec<u8>, entry: &Record) -> Result<(), AllocError>
    requires { IsWithinLimits entry.now }
    ensures written { OnOk result (out.new.items ≡ out.old.items ++ digested (kind_of entry.now) (body_of entry.now)) }
    ensures lawful { IsRecord entry.now }
{
    match entry {
        Record::Ingest(ingest) => append_ingest(out, ingest),
        Record::Drop(session) => append_drop(out, *session),
    }
}

// Appends a drop except for its digest.
fn append_drop(out: &mut Vec<u8>, session: u32) -> Result<(), AllocError>
    ensures written { OnOk result (out.new.items ≡ out.old.items ++ digested DROP_KIND (u32_bytes session)) }
    ensures fits { session < 2 ^ 32 }
{
    out.push(DROP_KIND)?;
    out.extend_from_slice(&(NUMBER_LEN as u32).to_be_bytes())?;
    out.extend_from_slice(&session.to_be_bytes())
}

// Appends an ingest except for its digest.
fn append_ingest(out: &mut Vec<u8>, entry: &IngestRecord) -> Result<(), AllocError>
    requires { IsIngestWithinLimits entry.now }
    ensures written { OnOk result (out.new.items ≡ out.old.items ++ digested INGEST_KIND (ingest_body entry.now)) }
    ensures lawful { IsIngest entry.now }
{
    let size = body_len(entry);
    out.reserve(AROUND_BODY as usize + size as usize)?;
    out.push(INGEST_KIND)?;
    out.extend_from_slice(&size.to_be_bytes())?;
    append_body(out, entry)
}

// The number of bytes of an ingest's spelling, with room for that of a drop.
pub fn ingest_len(entry: &IngestRecord) -> u32
    requires { IsIngestWithinLimits entry.now }
    ensures spelled { result ≡ length (spelling_of (Record.Ingest entry.now)) }
    ensures small { result + DROP_LEN ≤ SESSION_ROOM }
    ensures lawful { IsIngest entry.now }
{
    AROUND_BODY + body_len(entry)
}

// The number of bytes of an ingest's body.
#[tactic(auto, using(crate::proofs::Sizes::length_ingest_body, crate::proofs::Sizes::length_entries))]
fn body_len(entry: &IngestRecord) -> u32
    requires { IsIngestWithinLimits entry.now }
    ensures size { result ≡ length (ingest_body entry.now) }
    ensures lawful { IsIngest entry.now }
{
    let name = entry.name.as_bytes();
    let chunks = chunks_len(entry.fresh.as_slice());
    let entries = entry.recipe.as_slice();
    numbers_fit(entry.length, entries);
    (INGEST_NUMBERS + name.len() + chunks + NUMBER_LEN * entries.len()) as u32
}

// The number of bytes of new chunks.
fn chunks_len(chunks: &[NewChunk]) -> usize
    requires { length chunks.now ≤ MAX_CHUNKS }
    ensures spelled { result ≡ length (flat_map new_chunk chunks.now) }
    ensures each { result ≡ NEW_CHUNK_LEN * length chunks.now }
    ensures names { All (λ chunk. length chunk.name ≡ DIGEST_LEN) chunks.now }
{
    let mut size = 0;
    for chunk in chunks {
        size += NUMBER_LEN + name_len(&chunk.name);
    }
    size
}

// Numbers are below the limit of their type: the grammar asks it, and the prover knows it of
// numbers that a call is given.
fn numbers_fit(length: u32, entries: &[u32])
    ensures one { length < 2 ^ 32 }
    ensures each { All (λ n. n < 2 ^ 32) entries.now }
{}

// The number of bytes of a name.
fn name_len(name: &[u8; 32]) -> usize
    ensures equals { result ≡ length name.now }
    ensures always { result ≡ DIGEST_LEN }
{
    name.as_slice().len()
}

// Appends the body of an ingest.
#[tactic(auto, unfolding(sd_base::specs::Records::ingest_body))]
fn append_body(out: &mut Vec<u8>, entry: &IngestRecord) -> Result<(), AllocError>
    requires { IsIngestWithinLimits entry.now }
    ensures { OnOk result (out.new.items ≡ out.old.items ++ ingest_body entry.now) }
{
    let name = entry.name.as_bytes();
    out.push(name.len() as u8)?;
    out.extend_from_slice(name)?;
    out.extend_from_slice(&entry.length.to_be_bytes())?;
    append_chunks(out, entry.fresh.as_slice())?;
    append_entries(out, entry.recipe.as_slice())
}

// Appends the number of new chunks, and the chunks.
fn append_chunks(out: &mut Vec<u8>, chunks: &[NewChunk]) -> Result<(), AllocError>
    requires { length chunks.now < 2 ^ 32 }
    ensures { OnOk result (out.new.items ≡ out.old.items ++ (u32_bytes (length chunks.now) ++ flat_map new_chunk chunks.now)) }
{
    out.extend_from_slice(&(chunks.len() as u32).to_be_bytes())?;
    for chunk in chunks {
        out.extend_from_slice(&chunk.length.to_be_bytes())?;
        out.extend_from_slice(&chunk.name)?;
    }
    Ok(())
}

// Appends the number of entries of a recipe, and the entries.
fn append_entries(out: &mut Vec<u8>, entries: &[u32]) -> Result<(), AllocError>
    requires { length entries.now < 2 ^ 32 }
    ensures { OnOk result (out.new.items ≡ out.old.items ++ (u32_bytes (length entries.now) ++ flat_map u32_bytes entries.now)) }
{
    out.extend_from_slice(&(entries.len() as u32).to_be_bytes())?;
    for entry in entries {
        out.extend_from_slice(&entry.to_be_bytes())?;
    }
    Ok(())
}
