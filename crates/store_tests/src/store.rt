use crate::steps::{
    NO_CALL, Row, chunk_of, first_wrong, joined, made, offer, opened, restores, take_in,
};
use chunk_names::{LengthNamer, Sha256Namer};
use edge_traits::MemShelf;
use std::alloc::Global;
use store_core::{Store, StoreFault};

// Making and opening a store takes 13 calls, taking in a session of two new chunks 11, and opening
// the store again 7. The last two calls of taking in append the byte of the seal and flush it.
const NOT_THERE: &str = "
    take a AB shelf_fault
    is_not_sound
    open
    sessions 0
    ";

const THERE: &str = "
    take a AB shelf_fault
    is_not_sound
    open
    sessions 1
    restore a done AB
    ";

static KEEPING: [Row; 13] = [
    (
        "a session comes back, and a repeat is stored once",
        NO_CALL,
        0,
        "
        take a ABA 0
        restore a done ABA
        container AB
        ",
    ),
    (
        "a commit appends one byte to the seal, and leaves no file loose",
        NO_CALL,
        0,
        "
        take a ABA 0
        flushed 135 1 172
        ",
    ),
    (
        "a store that is opened again stores new chunks alone",
        NO_CALL,
        0,
        "
        take a ABA 0
        open
        take b BC 1
        container ABC
        open
        restore a done ABA
        open
        restore b done BC
        ",
    ),
    (
        "a name is taken once, and an unknown one has no bytes",
        NO_CALL,
        0,
        "
        take a A 0
        open
        take a A name_taken
        open
        restore c no_session
        ",
    ),
    (
        "a changed byte of a chunk ends a restore",
        NO_CALL,
        0,
        "
        take a ABC 0
        change_b
        open
        restore a damaged A
        ",
    ),
    (
        "a changed byte of a chunk is found by an offer of it, and not by one of another",
        NO_CALL,
        0,
        "
        take a ABC 0
        change_b
        open
        offer C 2
        is_sound
        offer B damaged
        is_not_sound
        ",
    ),
    (
        "an unsealed tail is cut",
        NO_CALL,
        0,
        "
        take a AB 0
        tail_book
        tail_container
        open
        take b C 1
        container ABC
        open
        has_no_tail
        open
        restore b done C
        ",
    ),
    (
        "taking in a session of two chunks takes 11 calls",
        (24, 24),
        0,
        "
        take a AB 0
        next_call_fails
        ",
    ),
    (
        "a failed read of the second chunk ends a restore after the first",
        (32, 32),
        0,
        "
        take a AB 0
        open
        restore a shelf_fault A
        ",
    ),
    (
        "a session is not there if its byte was not appended",
        (13, 22),
        0,
        NOT_THERE,
    ),
    (
        "a session is not there if a call before that of its byte kept a byte",
        (13, 21),
        1,
        NOT_THERE,
    ),
    (
        "a session is there if its byte was appended",
        (23, 23),
        0,
        THERE,
    ),
    (
        "a session is there if its byte was appended by a call that failed",
        (22, 23),
        1,
        THERE,
    ),
];

#[test]
fn a_store_keeps_sessions_as_these_steps_say(rt: HostRuntime) {
    assert_eq!(rt; first_wrong(rt.alloc(), &KEEPING), None);
}

// A drop takes 5 calls. The last two append the byte of the seal and flush it.
const LIVE: &str = "
    take a AB 0
    drop a shelf_fault
    is_not_sound
    open
    counts 11-
    ";

const DROPPED: &str = "
    take a AB 0
    drop a shelf_fault
    is_not_sound
    open
    counts 00-
    ";

// 200 zeros are the chunks `ZZZz` under the small parameters.
static DROPPING: [Row; 8] = [
    (
        "a drop takes one reference for each place",
        NO_CALL,
        0,
        "
        take a ZZZz 0
        open
        take b ZZZz 1
        open
        counts 62-
        open
        drop a 4
        counts 31-
        open
        counts 31-
        open
        restore b done ZZZz
        open
        drop b 4
        counts 00-
        ",
    ),
    (
        "a drop writes 41 bytes of the book and one of the seal",
        NO_CALL,
        0,
        "
        take a ZZZz 0
        open
        take b ZZZz 1
        flushed 206 2 80
        open
        drop b 4
        counts 31-
        flushed 247 3 80
        ",
    ),
    (
        "a drop is of the live session of its name",
        NO_CALL,
        0,
        "
        take a ABA 0
        open
        drop a 3
        drop a no_session
        is_sound
        take a B 1
        counts 01-
        drop a 1
        counts 00-
        sessions 2
        ",
    ),
    (
        "an offered chunk has no count until it is committed",
        NO_CALL,
        0,
        "
        take a ABA 0
        open
        offer C 2
        counts 21-
        take b CAC 1
        counts 312
        ",
    ),
    (
        "a session is live if its byte was not appended",
        (24, 27),
        0,
        LIVE,
    ),
    (
        "a session is live if a call before that of its byte kept a byte",
        (24, 26),
        1,
        LIVE,
    ),
    (
        "a session is dropped if its byte was appended",
        (28, 28),
        0,
        DROPPED,
    ),
    (
        "a session is dropped if its byte was appended by a call that failed",
        (27, 28),
        1,
        DROPPED,
    ),
];

#[test]
fn a_store_drops_sessions_as_these_steps_say(rt: HostRuntime) {
    assert_eq!(rt; first_wrong(rt.alloc(), &DROPPING), None);
}

// Whether a restore writes the first 2,622 of 2,700 chunks and then the rest, if a write may fail.
fn come_back_in_pieces(
    alloc: Global,
    store: &Store<Sha256Namer>,
    shelf: &mut MemShelf,
    bytes: &[u8],
) -> bool {
    let (first, _) = bytes.split_at(bytes.len().min(262_200));
    let fault = Err(StoreFault::SinkFault);
    restores(alloc, store, shelf, &[0], b"a", b"", fault)
        && restores(alloc, store, shelf, &[1], b"a", first, fault)
        && restores(alloc, store, shelf, &[], b"a", bytes, Ok(()))
}

// Whether a session of 2,700 chunks is taken in and written so.
fn is_kept_in_pieces(alloc: Global, shelf: &mut MemShelf, bytes: &[u8]) -> bool {
    match opened(alloc, shelf) {
        Some(mut store) => {
            take_in(alloc, &mut store, shelf, b"a", &[b'B'; 2_700]) == Some(Ok(0))
                && come_back_in_pieces(alloc, &store, shelf, bytes)
        }
        None => false,
    }
}

fn is_written_in_pieces(alloc: Global) -> bool {
    match (made(alloc, &[]), joined(alloc, &[b'B'; 2_700])) {
        (Some(mut shelf), Some(bytes)) => is_kept_in_pieces(alloc, &mut shelf, &bytes),
        _ => false,
    }
}

// A piece is 262,144 bytes, and 2,622 chunks of 100 bytes are the first to have as many.
#[test]
fn a_session_is_written_in_pieces(rt: HostRuntime) {
    assert!(rt; is_written_in_pieces(rt.alloc()));
}

// Whether two chunks of one name that are offered in turn, twice each, have the numbers 0 and 1.
fn are_numbered(store: &mut Store<LengthNamer>, shelf: &mut MemShelf) -> bool {
    offer(&LengthNamer, store, shelf, chunk_of(b'A')) == Some(Ok(0))
        && offer(&LengthNamer, store, shelf, chunk_of(b'C')) == Some(Ok(1))
        && offer(&LengthNamer, store, shelf, chunk_of(b'A')) == Some(Ok(0))
        && offer(&LengthNamer, store, shelf, chunk_of(b'C')) == Some(Ok(1))
}

fn are_numbered_on(alloc: Global, shelf: &mut MemShelf) -> bool {
    match Store::open(alloc, shelf, LengthNamer) {
        Ok(mut store) => are_numbered(&mut store, shelf),
        Err(_) => false,
    }
}

fn are_numbered_by_bytes(alloc: Global) -> bool {
    match made(alloc, &[]) {
        Some(mut shelf) => are_numbered_on(alloc, &mut shelf),
        None => false,
    }
}

#[test]
fn offered_chunks_of_one_name_are_told_apart_by_their_bytes(rt: HostRuntime) {
    assert!(rt; are_numbered_by_bytes(rt.alloc()));
}
