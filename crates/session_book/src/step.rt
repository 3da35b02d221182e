//! The record at the front of a book.
ghost use Rattle.std.specs.Prelude.{◌≡◌, ◌↔◌, ℕ, ◌<◌, ◌^◌, List, ◌++◌, length, option_map, None, Ok, IsTrue, IfOk, OnErr};
ghost use Rattle.std.specs.Str.{bytes_eq};
ghost use Rattle.sha2.specs.Sha256.{sha256};
ghost use Rattle.sd_base.specs.Records.{digested, spelling_of, IsRecord, IsShort, BeginsWith, BeginsWithNone, BeginsSealed};
ghost use Rattle.session_book.specs.Reading.{parts_at, step_of_body, step_of};

use crate::record_reader::{Stop, read_record, split_bytes, split_number};
use sd_base::{AROUND_BODY, DIGEST_LEN, OutOfMemory, Record};
use sha2::{Digest, Sha256};
use std::alloc::Global;

/// What stands at the front of a book.
#[derive(Debug, Drop)]
pub enum Step {
    /// A record, and how many bytes spell it.
    Whole(Record, u32),
    /// Fewer bytes than the record has that they begin.
    Short,
    /// Enough bytes, but no record of the grammar.
    Bad,
}

/// The record at the front of bytes. It fails only if memory runs out, and only on bytes that begin
/// with a kind, a body and their digest.
pub fn next_record(alloc: Global, bytes: &[u8]) -> Result<Step, OutOfMemory>
    // A record is found exactly if the first bytes are its spelling.
    ensures whole { IfOk result (λ step. (entry : Record) (k : ℕ) →
        (step ≡ Step.Whole entry k) ↔ BeginsWith bytes.now entry k) }
    ensures short { IfOk result (λ step. (step ≡ Step.Short) ↔ IsShort bytes.now) }
    ensures bad { IfOk result (λ step. (step ≡ Step.Bad) ↔ BeginsWithNone bytes.now) }

    // Short bytes never fail. Others fail only if they begin with a kind, a body and their digest.
    ensures short_never_fails { IsShort bytes.now → result ≡ Ok Step.Short }
    ensures sealed { OnErr result (BeginsSealed bytes.now) }

    // What was written is read again, whatever follows.
    ensures again { IfOk result (λ step. (entry : Record) (rest : List ℕ) → IsRecord entry
        → bytes.now ≡ spelling_of entry ++ rest → step ≡ Step.Whole entry (length (spelling_of entry))) }
{
    front_step(alloc, bytes)
}

// The step of bytes, read from left to right.
#[tactic(auto, unfolding(crate::specs::Reading::step_of))]
fn front_step(alloc: Global, bytes: &[u8]) -> Result<Step, OutOfMemory>
    ensures step { IfOk result (λ step. step ≡ step_of bytes.now) }
    ensures short_never_fails { parts_at bytes.now ≡ None → result ≡ Ok Step.Short }
    ensures sealed { OnErr result (BeginsSealed bytes.now) }
{
    match parts(bytes) {
        None => Ok(Step::Short),
        Some((kind, body, digest)) => body_step(alloc, kind, body, digest),
    }
}

// The kind, the body and the digest of the record that bytes begin.
#[tactic(auto, unfolding(crate::specs::Reading::parts_at))]
fn parts(bytes: &[u8]) -> Option<(u8, &[u8], &[u8])>
    ensures { option_map (λ x. (x.0, x.1.now, x.2.now)) result ≡ parts_at bytes.now }
{
    match bytes {
        [] => None,
        [kind, rest @ ..] => {
            let (size, rest) = split_number(rest)?;
            let (body, rest) = split_bytes(rest, size as usize)?;
            let (digest, _) = split_bytes(rest, DIGEST_LEN)?;
            Some((*kind, body, digest))
        }
    }
}

// The step of a kind, a body and a digest.
fn body_step(alloc: Global, kind: u8, body: &[u8], digest: &[u8]) -> Result<Step, OutOfMemory>
    requires { length body.now < 2 ^ 32 }
    ensures step { IfOk result (λ step. step ≡ step_of_body kind body.now digest.now) }
    ensures sealed { OnErr result (IsTrue (bytes_eq (sha256 (digested kind body.now)) digest.now)) }
{
    if !is_digest(kind, body, digest) {
        return Ok(Step::Bad);
    }
    match read_record(alloc, kind, body) {
        Ok(entry) => Ok(Step::Whole(entry, AROUND_BODY + body.len() as u32)),
        Err(Stop::Unspelled) => Ok(Step::Bad),
        Err(Stop::Memory) => Err(OutOfMemory),
    }
}

// Whether the digest is that of the kind and the body.
fn is_digest(kind: u8, body: &[u8], digest: &[u8]) -> bool
    requires { length body.now < 2 ^ 32 }
    ensures { result ≡ bytes_eq (sha256 (digested kind body.now)) digest.now }
{
    let mut hasher = Sha256::new();
    hasher.update([kind].as_slice());
    hasher.update((body.len() as u32).to_be_bytes().as_slice());
    hasher.update(body);
    hasher.finalize().as_slice() == digest
}
