//! The book of a store.
ghost use Rattle.std.specs.Prelude.{◌≡◌, ◌+◌, ◌<◌, ◌^◌, ℕ, [], ◌∷◌, ◌++◌, length, vec_len, vec_capacity, true, option_map, option_copied, IfOk, OnOk, OnErr, IsOk, IsTrue, ◌↔◌, ◌≤◌};
ghost use Rattle.std.specs.List.{All, slice_get};
ghost use Rattle.sd_base.specs.Records.{IsIngestWithinLimits, IsIngest, IsRecord, IsWithinLimits};
ghost use Rattle.session_book.specs.BookFields.{HasRoom};
ghost use Rattle.sd_base.specs.Books.{BookState, chunks_in, places_in, is_live, live_session, without, MayIngest, MayFollow, recipe_damage, with_record, IsReplayedOn};

use crate::lengths::DROP_LEN;
use crate::recipes::first_damage;
use crate::record_writer::ingest_len;
use sd_base::{
    Damage, IngestRecord, MAX_CHUNKS, MAX_PLACES, MAX_SESSIONS, Name, NewChunk, OutOfMemory,
    Record, Session,
};
use std::alloc::{AllocError, Global};
use std::collections::BTreeMap;
use std::marker::Model;

/// The sessions of a store and its chunks, as its records say. Contracts see the sessions, the
/// length of the records in bytes, and the greatest length of a chunk that they may have.
#[derive(Debug, Drop)]
pub struct Book {
    sessions: Vec<Session>,
    // The live sessions by their names.
    by_name: BTreeMap<Name, u32>,
    chunks: Vec<NewChunk>,
    places: u32,
    used: u64,
    max: u32,
}

impl Model for Book {
    ghost use Rattle.sd_base.specs.Books.{BookState};

    ghost Value = { BookState };

    ghost use Rattle.session_book.specs.BookFields.{IsBook, state_of};

    ghost view = { state_of };

    ghost invariant = { IsBook };
}

impl Book {
    // The book of no records.
    pub(crate) fn empty(alloc: Global, max: u32) -> Book
        ensures { result ≡ record { sessions = []; used = 0; max = max } }
    {
        Book {
            sessions: Vec::new(alloc),
            by_name: BTreeMap::new(alloc),
            chunks: Vec::new(alloc),
            places: 0,
            used: 0,
            max,
        }
    }

    /// Adds a record that may follow those of the book. It fails only if memory runs out, and the
    /// book is then unchanged.
    pub fn add(&mut self, entry: Record) -> Result<(), OutOfMemory>
        requires spelled { IsWithinLimits entry }
        requires follows { MayFollow self.old.max self.old.sessions entry }
        ensures added { OnOk result (self.new ≡ with_record self.old entry) }
        ensures unchanged { OnErr result (self.new ≡ self.old) }

        // The new book is the replay of the old records and this one, if no recipe of it fails.
        ensures lawful { IsRecord entry }
        ensures replayed { OnOk result (IsReplayedOn self.old entry self.new) }

        // A drop never fails.
        ensures drops { (session : ℕ) → entry ≡ Record.Drop session → IsOk result }
    {
        match entry {
            Record::Ingest(entry) => self.ingest(entry),
            Record::Drop(session) => {
                self.drop_session(session);
                Ok(())
            }
        }
    }

    // Adds an ingest.
    fn ingest(&mut self, entry: IngestRecord) -> Result<(), OutOfMemory>
        requires spelled { IsIngestWithinLimits entry }
        requires follows { MayIngest self.old.max self.old.sessions entry }
        ensures added { OnOk result (self.new ≡ with_record self.old (Record.Ingest entry)) }
        ensures unchanged { OnErr result (self.new ≡ self.old) }
        ensures lawful { IsIngest entry }
    {
        let size = ingest_len(&entry);
        let places = entry.recipe.as_slice().len() as u32;
        let session = self.sessions.len() as u32;

        // Once there is room for the session and its chunks, only the insertion of the name can
        // still fail.
        make_room(
            &mut self.sessions,
            &mut self.chunks,
            entry.fresh.as_slice().len(),
        )?;
        self.by_name.insert(entry.name, session)?;
        append_session(&mut self.sessions, &mut self.chunks, entry)?;
        self.places += places;
        self.used += size as u64;
        Ok(())
    }

    // Adds a drop.
    fn drop_session(&mut self, session: u32)
        requires { IsTrue (is_live self.old.sessions session) }
        ensures dropped { self.new ≡ with_record self.old (Record.Drop session) }
        ensures lawful { session < 2 ^ 32 }
    {
        let name = self.sessions[session as usize].entry.name;
        self.by_name.remove(&name);
        mark_dropped(&mut self.sessions, session);
        self.used += DROP_LEN as u64;
    }

    /// Whether a record may follow those of the book, so that `add` may be called with it.
    pub fn may_add(&self, entry: &Record) -> bool
        ensures { IsTrue result ↔ MayFollow self.now.max self.now.sessions entry.now }
    {
        match entry {
            Record::Ingest(entry) => self.may_ingest(entry),
            Record::Drop(session) => self.live(*session),
        }
    }

    // Whether an ingest may follow the records of the book.
    fn may_ingest(&self, entry: &IngestRecord) -> bool
        ensures { IsTrue result ↔ MayIngest self.now.max self.now.sessions entry.now }
    {
        self.has_room(entry)
            && self.find(&entry.name).is_none()
            && are_short(entry.fresh.as_slice(), self.max)
    }

    // Whether an ingest keeps the book within its limits.
    fn has_room(&self, entry: &IngestRecord) -> bool
        ensures { IsTrue result ↔ HasRoom self.now.sessions entry.now }
    {
        self.sessions.len() < MAX_SESSIONS as usize
            && entry.recipe.as_slice().len() <= (MAX_PLACES - self.places) as usize
            && entry.fresh.as_slice().len() <= MAX_CHUNKS as usize - self.chunks.len()
    }

    // The first recipe that fails.
    pub(crate) fn first_damage(&self) -> Option<Damage>
        ensures { result ≡ recipe_damage [] 0 self.now.sessions }
    {
        first_damage(&self.sessions, &self.chunks)
    }

    /// Whether the session of a number exists and is live.
    pub fn live(&self, session: u32) -> bool
        ensures { result ≡ is_live self.now.sessions session }
    {
        let session = self.sessions.as_slice().get(session as usize);
        session.is_some_and(|session| session.live)
    }

    /// The ingest of a session, live or dropped. There is none exactly if no session has the
    /// number.
    pub fn session(&self, session: u32) -> Option<&IngestRecord>
        ensures { option_copied result ≡ option_map (λ session. session.entry) (slice_get self.now.sessions session) }
    {
        let session = self.sessions.as_slice().get(session as usize);
        session.map(|session| &session.entry)
    }

    /// The live session of a name. There is none exactly if no live session has the name.
    #[tactic(auto, using(crate::proofs::ByName::find_by_name))]
    pub fn find(&self, name: &Name) -> Option<u32>
        ensures { result ≡ live_session self.now.sessions name.now }
    {
        self.by_name.get(name).copied()
    }

    /// The chunks, in order of first occurrence.
    pub fn chunks(&self) -> &[NewChunk]
        ensures { result.now ≡ chunks_in self.now.sessions }
    {
        &self.chunks
    }

    /// The number of chunks.
    pub fn chunk_count(&self) -> u32
        ensures { result ≡ length (chunks_in self.now.sessions) }
    {
        self.chunks.len() as u32
    }

    /// The number of sessions, dropped ones too.
    pub fn sessions(&self) -> u32
        ensures { result ≡ length self.now.sessions }
    {
        self.sessions.len() as u32
    }

    /// The number of places of all sessions, dropped ones too.
    pub fn places(&self) -> u32
        ensures { result ≡ places_in self.now.sessions }
    {
        self.places
    }

    /// The length of the records, in bytes.
    pub fn used(&self) -> u64
        ensures { result ≡ self.now.used }
    {
        self.used
    }
}

// Makes room for one more session, with so many new chunks.
fn make_room(
    sessions: &mut Vec<Session>,
    chunks: &mut Vec<NewChunk>,
    fresh: usize,
) -> Result<(), AllocError>
    ensures sessions { sessions.new.items ≡ sessions.old.items }
    ensures chunks { chunks.new.items ≡ chunks.old.items }
    ensures room { OnOk result ((vec_len sessions.new < vec_capacity sessions.new)
        × (vec_len chunks.new + fresh ≤ vec_capacity chunks.new)) }
{
    chunks.reserve(fresh)?;
    sessions.reserve(1)
}

// Appends a session and its new chunks. There is room for them, so it never fails.
fn append_session(
    sessions: &mut Vec<Session>,
    chunks: &mut Vec<NewChunk>,
    entry: IngestRecord,
) -> Result<(), AllocError>
    requires session_room { vec_len sessions.old < vec_capacity sessions.old }
    requires chunk_room { vec_len chunks.old + length entry.fresh ≤ vec_capacity chunks.old }
    ensures never_fails { IsOk result }
    ensures sessions { sessions.new.items ≡ sessions.old.items ++ record { entry = entry; live = true } ∷ [] }
    ensures chunks { chunks.new.items ≡ chunks.old.items ++ entry.fresh }
{
    chunks.extend_from_slice(entry.fresh.as_slice())?;
    sessions.push_reserved(Session { entry, live: true });
    Ok(())
}

// Marks a live session as dropped.
fn mark_dropped(sessions: &mut Vec<Session>, session: u32)
    requires { IsTrue (is_live sessions.old.items session) }
    ensures { sessions.new.items ≡ without session sessions.old.items }
{
    sessions[session as usize].live = false;
}

// Whether no chunk is longer than a maximum.
fn are_short(chunks: &[NewChunk], max: u32) -> bool
    ensures { IsTrue result ↔ All (λ chunk. chunk.length ≤ max) chunks.now }
{
    chunks.iter().all(|chunk| chunk.length <= max)
}
