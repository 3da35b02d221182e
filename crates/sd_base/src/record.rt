//! The records of a store's book: what they hold.
ghost use Rattle.std.specs.Prelude.{◌≡◌};

use crate::name::Name;
use std::marker::Model;

/// The first byte of an ingest.
pub const INGEST_KIND: u8 = b'I';

/// The first byte of a drop.
pub const DROP_KIND: u8 = b'D';

/// Bytes of a number in a record: a `u32`, big-endian.
pub const NUMBER_LEN: usize = 4;

/// Bytes of the digest of a record and of the name of a chunk: SHA-256 has 256 bits (FIPS 180-4).
pub const DIGEST_LEN: usize = 32;

/// Bytes of a record beside its body: the kind, the length of the body, and the digest.
pub const AROUND_BODY: u32 = 1 + (NUMBER_LEN + DIGEST_LEN) as u32;

/// A chunk that no earlier session of the book has.
#[derive(Clone, Copy, Debug, PartialEq, Eq)]
pub struct NewChunk {
    /// Its number of bytes.
    pub length: u32,
    /// Its name, which is the SHA-256 of its bytes (FIPS 180-4) under the tool's own namer.
    pub name: [u8; 32],
}

/// A list in a record: contracts see its items. It is made from a `Vec`, and returns it again,
/// without taking memory.
#[derive(Debug, Drop)]
pub struct Items<T> {
    items: Vec<T>,
}

impl<T> Model for Items<T> {
    ghost use Rattle.std.specs.Prelude.{List};

    ghost Value = { List T };

    ghost view = { λ list. list.items.items };
}

impl<T> From<Vec<T>> for Items<T> {
    ghost from_gives = { λ items list. list ≡ items.items };

    fn from(items: Vec<T>) -> Self {
        Items { items }
    }
}

impl<T> Items<T> {
    /// The items, in order.
    pub fn as_slice(&self) -> &[T]
        ensures { result.now ≡ self.now }
    {
        &self.items
    }

    /// The items again as a `Vec`.
    pub fn into_vec(self) -> Vec<T>
        ensures { result.items ≡ self }
    {
        self.items
    }
}

/// New chunks, in order of first occurrence.
pub type NewChunks = Items<NewChunk>;

/// The chunks of a session by their numbers in the book, in the order of its bytes.
pub type Recipe = Items<u32>;

/// What the book keeps of an ingest.
#[derive(Debug, Drop)]
pub struct IngestRecord {
    /// The name of the session.
    pub name: Name,
    /// The number of bytes of the input.
    pub length: u32,
    /// The chunks that no earlier session has.
    pub fresh: NewChunks,
    /// The chunks of the session, one a place.
    pub recipe: Recipe,
}

/// A record of a store's book.
#[derive(Debug, Drop)]
pub enum Record {
    /// A session was taken in.
    Ingest(IngestRecord),
    /// The session of this number was dropped.
    Drop(u32),
}

/// A session of a store's book.
#[derive(Debug, Drop)]
pub struct Session {
    /// What its ingest holds.
    pub entry: IngestRecord,
    /// Whether no later record drops it.
    pub live: bool,
}
