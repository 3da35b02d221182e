use crate::records::{
    A, Body, CHUNKS_OF_A, Seen, Z8, append_sealed, flip, has_this_spelling, is_session_a, sealed,
    step_of,
};
use sd_base::{Damage, IngestRecord, Name, NewChunks, Recipe, Record};
use session_book::{Book, BookFault};
use std::alloc::{AllocError, Global};

// Session `b`: that of session `a` with another name and no new chunk.
const B: Body = (
    b'I',
    b"\x01b\0\0\0\xc8\0\0\0\0\0\0\0\x04\0\0\0\0\0\0\0\0\0\0\0\0\0\0\0\x01",
);

const DROP_0: Body = (b'D', &[0; 4]);

const DROP_1: Body = (b'D', &[0, 0, 0, 1]);

// The book of so many records, in the first bytes of those of these bodies.
fn book_in(alloc: Global, bodies: &[Body], end: usize, records: u64) -> Option<Book> {
    match sealed(alloc, bodies) {
        Some(bytes) => Book::replay(alloc, bytes.get(..end).unwrap_or(b""), records, 256).ok(),
        None => None,
    }
}

// The live session with a name of these letters.
fn find(book: &Book, letters: &[u8]) -> Option<u32> {
    match Name::read(letters) {
        Ok(name) => book.find(&name),
        Err(_) => None,
    }
}

// Whether a session is live and is then dropped.
fn drop_live(book: &mut Book, session: u32) -> bool {
    book.live(session) && book.add(Record::Drop(session)).is_ok()
}

fn has_both(book: &Book) -> bool {
    book.sessions() == 2
        && book.places() == 8
        && book.used() == 206
        && find(book, b"a") == Some(0)
        && book.live(0)
}

fn has_b_alone(book: &Book) -> bool {
    !book.live(0)
        && book.live(1)
        && !book.live(2)
        && book.used() == 247
        && find(book, b"a").is_none()
        && book.session(2).is_none()
}

// Whether session 0 of a book is session `a`.
fn begins_with_a(book: &Book) -> bool {
    match book.session(0) {
        Some(first) => is_session_a(first) && book.chunks() == CHUNKS_OF_A.as_slice(),
        None => false,
    }
}

// Whether sessions `a` and `b` are replayed before the first byte of another, and `a` is dropped.
fn two_are_replayed(alloc: Global) -> bool {
    match book_in(alloc, &[A, B, A], 139 + 67 + 1, 2) {
        Some(mut book) => {
            has_both(&book) && drop_live(&mut book, 0) && has_b_alone(&book) && begins_with_a(&book)
        }
        None => false,
    }
}

#[test]
fn two_sessions_are_replayed_and_one_is_dropped(rt: HostRuntime) {
    assert!(rt; two_are_replayed(rt.alloc()));
}

// Whether a session of no bytes may be added under this name, and is added.
fn add_empty(alloc: Global, book: &mut Book, name: Name) -> bool {
    let entry = Record::Ingest(IngestRecord {
        name,
        length: 0,
        fresh: NewChunks::from(Vec::new(alloc)),
        recipe: Recipe::from(Vec::new(alloc)),
    });
    book.may_add(&entry) && book.add(entry).is_ok()
}

// Whether a name is free, then that of a new session with this number, and then dropped.
fn comes_and_goes(alloc: Global, book: &mut Book, name: &Name, session: u32) -> bool {
    book.find(name).is_none()
        && book.sessions() == session
        && add_empty(alloc, book, *name)
        && book.find(name) == Some(session)
        && drop_live(book, session)
}

fn has_a_alone(book: &Book) -> bool {
    book.sessions() == 3
        && book.places() == 4
        && book.chunks().len() == 2
        && book.used() == 139 + 2 * (51 + 41)
}

// Whether `b` comes to a book of `a` and goes, twice.
fn b_comes_again(alloc: Global) -> bool {
    match (book_in(alloc, &[A], 139, 1), Name::read(b"b")) {
        (Some(mut book), Ok(name)) => {
            comes_and_goes(alloc, &mut book, &name, 1)
                && comes_and_goes(alloc, &mut book, &name, 2)
                && has_a_alone(&book)
        }
        _ => false,
    }
}

#[test]
fn a_name_is_free_again_after_its_drop(rt: HostRuntime) {
    assert!(rt; b_comes_again(rt.alloc()));
}

// How many sessions a replay returns, or its fault.
type Replayed = Result<u32, BookFault>;

fn replayed(alloc: Global, bytes: &[u8], records: u64, max: u32) -> Replayed {
    match Book::replay(alloc, bytes, records, max) {
        Ok(book) => Ok(book.sessions()),
        Err(fault) => Err(fault),
    }
}

const TWO: Replayed = Ok(2);

const RECORD_0: Replayed = Err(BookFault::Damaged(Damage::Record(0)));

const RECORD_1: Replayed = Err(BookFault::Damaged(Damage::Record(1)));

const RECORD_2: Replayed = Err(BookFault::Damaged(Damage::Record(2)));

const RECORD_3: Replayed = Err(BookFault::Damaged(Damage::Record(3)));

// Place 1 of the recipe of session `b` fails.
const RECIPE: Replayed = Err(BookFault::Damaged(Damage::Recipe {
    session: 1,
    place: 1,
}));

// What damage of a byte of the records of sessions `a` and `b` and of a drop is found as.
fn damage_at(place: usize) -> Replayed {
    match place {
        0..=138 => RECORD_0,
        139..=205 => RECORD_1,
        _ => RECORD_2,
    }
}

// Whether each other value of the byte at a place damages the record in which it is.
fn every_change_is_damage(alloc: Global, bytes: &mut [u8], place: usize) -> bool {
    for change in 1..=255u8 {
        flip(bytes, place, change);
        let found = replayed(alloc, bytes, 3, 256);
        flip(bytes, place, change);
        if found != damage_at(place) {
            return false;
        }
    }
    true
}

// Whether bytes that end at a place are damaged in the record in which it is.
fn cut_is_damage(alloc: Global, bytes: &[u8], place: usize) -> bool {
    match bytes.get(..place) {
        Some(front) => replayed(alloc, front, 3, 256) == damage_at(place),
        None => false,
    }
}

fn every_place_is_damage(alloc: Global, bytes: &mut [u8]) -> bool {
    for place in 0..247usize {
        if !cut_is_damage(alloc, bytes, place) || !every_change_is_damage(alloc, bytes, place) {
            return false;
        }
    }
    bytes.len() == 247
}

fn three_are_damaged_anywhere(alloc: Global) -> bool {
    match sealed(alloc, &[A, B, DROP_0]) {
        Some(mut bytes) => every_place_is_damage(alloc, bytes.as_mut_slice()),
        None => false,
    }
}

#[test]
fn every_cut_and_every_changed_byte_is_damage(rt: HostRuntime) {
    assert!(rt; three_are_damaged_anywhere(rt.alloc()));
}

// Whether a record with another value of the byte at a place is no record. It is short only if the
// changed byte is one of the length of the body.
fn every_change_is_no_record(alloc: Global, bytes: &mut [u8], place: usize) -> bool {
    for change in 1..=255u8 {
        flip(bytes, place, change);
        let seen = step_of(alloc, bytes);
        flip(bytes, place, change);
        if seen != Seen::Bad && (seen != Seen::Short || place < 1 || place > 4) {
            return false;
        }
    }
    true
}

fn no_change_is_a_record(alloc: Global, bytes: &mut [u8]) -> bool {
    for place in 0..67usize {
        if !every_change_is_no_record(alloc, bytes, place) {
            return false;
        }
    }
    step_of(alloc, bytes) == Seen::Whole(67)
}

fn no_change_of_b_is_a_record(alloc: Global) -> bool {
    match sealed(alloc, &[B]) {
        Some(mut bytes) => no_change_is_a_record(alloc, bytes.as_mut_slice()),
        None => false,
    }
}

#[test]
fn a_changed_record_is_no_record(rt: HostRuntime) {
    assert!(rt; no_change_of_b_is_a_record(rt.alloc()));
}

// Session `a` again, of no bytes.
const AGAIN: Body = (b'I', b"\x01a\0\0\0\0\0\0\0\0\0\0\0\0");

// Session `b`, of one chunk. It has as many bytes as its chunk, or one less or more, or names a
// chunk that does not exist.
const RIGHT: Body = (b'I', b"\x01b\0\0\0\x40\0\0\0\0\0\0\0\x01\0\0\0\0");

const FEW: Body = (b'I', b"\x01b\0\0\0\x3f\0\0\0\0\0\0\0\x01\0\0\0\0");

const MANY: Body = (b'I', b"\x01b\0\0\0\x41\0\0\0\0\0\0\0\x01\0\0\0\0");

const BEYOND: Body = (b'I', b"\x01b\0\0\0\x40\0\0\0\0\0\0\0\x02\0\0\0\0\0\0\0\x02");

// The two records after that of session `a`, whose two chunks have 64 and 8 bytes, the longest
// chunk, and what a replay of these three returns, and one of more: a bad record comes before a
// recipe, and no memory is taken for records that are not there.
static FIRST_DAMAGES: [(Body, Body, u32, Replayed, Replayed); 10] = [
    (B, DROP_0, 256, TWO, RECORD_3),
    (DROP_0, AGAIN, 256, TWO, RECORD_3),
    (RIGHT, DROP_1, 64, TWO, RECORD_3),
    (RIGHT, DROP_1, 63, RECORD_0, RECORD_0),
    (AGAIN, DROP_0, 256, RECORD_1, RECORD_1),
    (DROP_1, DROP_0, 256, RECORD_1, RECORD_1),
    (DROP_0, DROP_0, 256, RECORD_2, RECORD_2),
    (FEW, DROP_0, 256, RECIPE, RECORD_3),
    (MANY, DROP_0, 256, RECIPE, RECORD_3),
    (BEYOND, DROP_0, 256, RECIPE, RECORD_3),
];

// Whether replays of three records, and of more, return this, and record 0 if its last byte is
// changed or its chunks are too long.
fn replays_return(
    alloc: Global,
    bytes: &mut [u8],
    max: u32,
    three: Replayed,
    more: Replayed,
) -> bool {
    let right = replayed(alloc, bytes, 3, max) == three
        && replayed(alloc, bytes, 4, max) == more
        && replayed(alloc, bytes, u64::MAX, max) == more
        && replayed(alloc, bytes, 4, 63) == RECORD_0;
    flip(bytes, 138, 1);
    right && replayed(alloc, bytes, 3, max) == RECORD_0
}

fn damages_are(alloc: Global, bodies: &[Body], max: u32, three: Replayed, more: Replayed) -> bool {
    match sealed(alloc, bodies) {
        Some(mut bytes) => replays_return(alloc, bytes.as_mut_slice(), max, three, more),
        None => false,
    }
}

#[test]
fn the_first_damage_after_a_session_is_returned(rt: HostRuntime) {
    for (row, &(second, third, max, three, more)) in FIRST_DAMAGES.iter().enumerate() {
        let right = damages_are(rt.alloc(), &[A, second, third], max, three, more);
        assert!(rt; right, "row {row}");
    }
}

// The name of three letters of a number below 4096.
fn letters_of(session: u32) -> [u8; 3] {
    [
        b'a' + (session / 256 % 16) as u8,
        b'a' + (session / 16 % 16) as u8,
        b'a' + (session % 16) as u8,
    ]
}

// Appends a session of no bytes, named by this number.
fn append_empty(out: &mut Vec<u8>, session: u32) -> Result<(), AllocError> {
    let [a, b, c] = letters_of(session);
    append_sealed(out, b'I', &[3, a, b, c, 0, 0, 0, 0, 0, 0, 0, 0, 0, 0, 0, 0])
}

// Whether a session has its name and is found by it.
fn is_found(book: &Book, session: u32) -> bool {
    match book.session(session) {
        Some(entry) => {
            entry.name.as_bytes() == letters_of(session).as_slice()
                && book.find(&entry.name) == Some(session)
        }
        None => false,
    }
}

// Appends the records of as many sessions of no bytes as a book may have.
fn append_most(out: &mut Vec<u8>) -> Result<(), AllocError> {
    for session in 0..4096u32 {
        append_empty(out, session)?;
    }
    Ok(())
}

fn some_are_found(alloc: Global, bytes: &[u8]) -> bool {
    match Book::replay(alloc, bytes, 4096, 64) {
        Ok(book) => {
            is_found(&book, 0)
                && is_found(&book, 1)
                && is_found(&book, 2048)
                && is_found(&book, 4095)
        }
        Err(_) => false,
    }
}

// Appends the records of a drop and of one session more.
fn append_one_more(out: &mut Vec<u8>) -> Result<(), AllocError> {
    append_sealed(out, b'D', &[0; 4])?;
    append_empty(out, 0)
}

// Whether sessions of these records are found, and a drop may follow, but no further session.
fn most_are_replayed(alloc: Global) -> bool {
    let mut bytes = Vec::new(alloc);
    append_most(&mut bytes).is_ok()
        && some_are_found(alloc, &bytes)
        && append_one_more(&mut bytes).is_ok()
        && replayed(alloc, &bytes, 4097, 64) == Ok(4096)
        && replayed(alloc, &bytes, 4098, 64) == Err(BookFault::Damaged(Damage::Record(4097)))
}

#[test]
fn a_book_has_4096_sessions_which_are_found_by_their_names_and_not_one_more(rt: HostRuntime) {
    assert!(rt; most_are_replayed(rt.alloc()));
}

// Appends the lengths and names of 100,000 chunks of one byte each.
fn append_chunks(out: &mut Vec<u8>) -> Result<(), AllocError> {
    for _ in 0..100_000u32 {
        out.extend_from_slice(&[0, 0, 0, 1])?;
        out.extend_from_slice(&Z8)?;
    }
    Ok(())
}

// Appends the numbers below 100,000, as entries of a recipe.
fn append_entries(out: &mut Vec<u8>) -> Result<(), AllocError> {
    for n in 0..100_000u32 {
        out.extend_from_slice(&n.to_be_bytes())?;
    }
    Ok(())
}

// Appends the body of a session of these chunks, with a place for each: 100,000 is 0x186a0.
fn append_many(out: &mut Vec<u8>) -> Result<(), AllocError> {
    out.extend_from_slice(b"\x01c\0\x01\x86\xa0\0\x01\x86\xa0")?;
    append_chunks(out)?;
    out.extend_from_slice(b"\0\x01\x86\xa0")?;
    append_entries(out)
}

fn many_are_kept(alloc: Global) -> bool {
    let (mut body, mut bytes) = (Vec::new(alloc), Vec::new(alloc));
    append_many(&mut body).is_ok()
        && append_sealed(&mut bytes, b'I', &body).is_ok()
        && replayed(alloc, &bytes, 1, 64) == Ok(1)
        && replayed(alloc, &bytes, 2, 64) == RECORD_1
        && has_this_spelling(alloc, &bytes)
}

#[test]
fn a_session_of_100000_chunks_is_replayed_and_written(rt: HostRuntime) {
    assert!(rt; many_are_kept(rt.alloc()));
}
