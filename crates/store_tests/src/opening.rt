use crate::steps::{shelf_with, small_params};
use chunk_names::Sha256Namer;
use edge_traits::{EdgeFault, File, MemShelf, Shelf, ShelfFail};
use sd_base::{Damage, Params};
use std::alloc::Global;
use store_core::{Store, StoreFault, init, settings_of};

/// The head of a store with the small parameters.
const SMALL_HEAD: &[u8] =
    b"SSCH\x01\0\x0d\0\x80\0\0\0\0\0\0\x01\0\0\0\0\0\0\0\x40\0\0\x01\0\0\0\0\0S";

/// How opening the files of a shelf ends.
fn opened(alloc: Global, shelf: &mut MemShelf) -> Option<StoreFault> {
    Store::open(alloc, shelf, Sha256Namer).err()
}

/// Whether the files are those of a new store with the small parameters, and are not loose.
fn is_new(shelf: &MemShelf) -> bool {
    shelf.file(File::Head) == SMALL_HEAD
        && shelf.file(File::Seal(0)).is_empty()
        && !shelf.is_loose(File::Head)
        && !shelf.is_loose(File::Seal(0))
}

/// Whether a store has no sessions, the generation 0, and these parameters.
fn is_empty(store: &Store<Sha256Namer>, params: &Params) -> bool {
    store.book().sessions() == 0
        && store.generation() == 0
        && store.params() == params
        && settings_of(store.params()).as_slice() == &SMALL_HEAD[..32]
}

/// Whether the files open as such a store.
fn opens_empty(alloc: Global, shelf: &mut MemShelf, params: &Params) -> bool {
    match Store::open(alloc, shelf, Sha256Namer) {
        Ok(store) => is_empty(&store, params),
        Err(_) => false,
    }
}

/// Whether a store is made where there is none, is new then, and opens empty after it was refused
/// to be made again.
fn makes_once(alloc: Global, shelf: &mut MemShelf, params: &Params) -> bool {
    opened(alloc, shelf) == Some(StoreFault::NoStore)
        && init(alloc, shelf, params) == Ok(())
        && is_new(shelf)
        && init(alloc, shelf, params) == Err(StoreFault::StoreThere)
        && opens_empty(alloc, shelf, params)
}

/// A shelf with no store, on which an earlier run left a seal.
fn with_old_seal(alloc: Global, failing: &[ShelfFail]) -> Option<MemShelf> {
    let mut shelf = shelf_with(alloc, failing)?;
    shelf.put_file(File::Seal(0), b"old").ok()?;
    Some(shelf)
}

fn is_made_once(alloc: Global) -> bool {
    match (with_old_seal(alloc, &[]), small_params()) {
        (Some(mut shelf), Some(params)) => makes_once(alloc, &mut shelf, &params),
        _ => false,
    }
}

#[test]
fn a_store_is_made_once_and_opens_empty(rt: HostRuntime) {
    assert!(rt; is_made_once(rt.alloc()));
}

/// The record of an ingest of 8 bytes under the name `a`, with one new chunk, which is named by the
/// number 2 and whose place has the entry 0. The digest is that of SHA-256.
const RIGHT: &[u8] = b"I\0\0\0\x36\x01a\0\0\0\x08\0\0\0\x01\0\0\0\x08\
    \x02\x02\x02\x02\x02\x02\x02\x02\x02\x02\x02\x02\x02\x02\x02\x02\
    \x02\x02\x02\x02\x02\x02\x02\x02\x02\x02\x02\x02\x02\x02\x02\x02\
    \0\0\0\x01\0\0\0\0\
    \x5c\x2b\xbd\xe0\xe7\xc7\x9b\x73\xe2\xa1\x1a\x02\x73\x3f\xe1\x21\
    \x42\x40\x30\x89\x3d\x48\x1d\x8e\xeb\x46\xa1\x23\x25\x0a\xe1\x00";

/// The same with the entry 1.
const BEYOND: &[u8] = b"I\0\0\0\x36\x01a\0\0\0\x08\0\0\0\x01\0\0\0\x08\
    \x02\x02\x02\x02\x02\x02\x02\x02\x02\x02\x02\x02\x02\x02\x02\x02\
    \x02\x02\x02\x02\x02\x02\x02\x02\x02\x02\x02\x02\x02\x02\x02\x02\
    \0\0\0\x01\0\0\0\x01\
    \x31\x9f\xda\xb8\x6a\x03\xd6\xb9\x37\xa9\x32\x18\xc4\x06\xc0\xea\
    \xfe\xc8\x87\x88\x8c\x59\xc9\xdd\x6e\x1b\xd5\x06\x6e\x7a\x57\x77";

/// The head, the seal and the book of a store of generation 0, and its one container.
type Files = [&'static [u8]; 4];

/// Whether these files are put on a shelf.
fn put_files(shelf: &mut MemShelf, files: Files) -> bool {
    let [head, seal, book, container] = files;
    shelf.put_file(File::Head, head).is_ok()
        && shelf.put_file(File::Seal(0), seal).is_ok()
        && shelf.put_file(File::Book(0), book).is_ok()
        && shelf.put_file(File::Container(0, 0), container).is_ok()
}

const WHOLE: Files = [SMALL_HEAD, b"S", RIGHT, &[0; 16]];

const SHORT: StoreFault = StoreFault::Damaged(Damage::Container {
    number: 0,
    needed: 16,
    found: 15,
});

const FLAW: StoreFault = StoreFault::Damaged(Damage::Recipe {
    session: 0,
    place: 0,
});

/// Files, and how opening them ends.
static CASES: [(Files, Option<StoreFault>); 8] = [
    (WHOLE, None),
    ([SMALL_HEAD, b"S", RIGHT, &[0; 17]], None),
    ([SMALL_HEAD, b"", BEYOND, b""], None),
    (
        [&[0; 33], b"S", RIGHT, &[0; 16]],
        Some(StoreFault::Damaged(Damage::Head)),
    ),
    (
        [SMALL_HEAD, b"SS", RIGHT, &[0; 16]],
        Some(StoreFault::Damaged(Damage::Record(1))),
    ),
    (
        [SMALL_HEAD, b"S", b"I", b""],
        Some(StoreFault::Damaged(Damage::Record(0))),
    ),
    ([SMALL_HEAD, b"S", BEYOND, b""], Some(FLAW)),
    ([SMALL_HEAD, b"S", RIGHT, &[0; 15]], Some(SHORT)),
];

/// Whether opening these files ends so.
fn opening_ends(alloc: Global, files: Files, ends: Option<StoreFault>) -> bool {
    match shelf_with(alloc, &[]) {
        Some(mut shelf) => put_files(&mut shelf, files) && opened(alloc, &mut shelf) == ends,
        None => false,
    }
}

#[test]
fn the_first_damage_is_named(rt: HostRuntime) {
    for (row, &(files, ends)) in CASES.iter().enumerate() {
        assert!(rt; opening_ends(rt.alloc(), files, ends), "row {row}");
    }
}

/// Whether making a store, opening it and opening it again end so.
fn making_ends(alloc: Global, shelf: &mut MemShelf, ends: [Option<StoreFault>; 3]) -> bool {
    let [made, first, second] = ends;
    match small_params() {
        Some(params) => {
            init(alloc, shelf, &params).err() == made
                && opened(alloc, shelf) == first
                && opened(alloc, shelf) == second
        }
        None => false,
    }
}

/// Whether they end so if this call of the shelf fails.
fn ends_are(alloc: Global, call: u32, ends: [Option<StoreFault>; 3]) -> bool {
    match shelf_with(alloc, &[ShelfFail { call, kept: 0 }]) {
        Some(mut shelf) => making_ends(alloc, &mut shelf, ends),
        None => false,
    }
}

/// How they must end.
fn wanted(call: u32) -> [Option<StoreFault>; 3] {
    let fault = Some(StoreFault::ShelfFault);
    let no_store = Some(StoreFault::NoStore);
    match call {
        0..=6 => [fault, no_store, no_store],
        7 => [fault, None, None],
        8..=12 => [None, fault, None],
        _ => [None, None, fault],
    }
}

// Making a store takes 8 calls. The last two append the byte that opens it and flush it. Opening an
// empty store takes 5: it asks for the sizes of its head, its seal and its book, and reads the
// settings and an empty front of the book.
#[test]
fn a_failing_call_is_a_fault_of_the_shelf(rt: HostRuntime) {
    for call in 0..14 {
        assert!(rt;
            ends_are(rt.alloc(), call, wanted(call)),
            "call {call} fails"
        );
    }
}

/// Whether making a store ends in a fault of the shelf, and leaves so many bytes of the head and
/// the seal loose or not.
fn making_leaves(alloc: Global, shelf: &mut MemShelf, head: usize, loose: bool) -> bool {
    match small_params() {
        Some(params) => {
            init(alloc, shelf, &params) == Err(StoreFault::ShelfFault)
                && shelf.file(File::Head).len() == head
                && shelf.is_loose(File::Seal(0)) == loose
        }
        None => false,
    }
}

/// Whether this call leaves so, if it fails after a byte.
fn call_leaves(alloc: Global, call: u32, head: usize, loose: bool) -> bool {
    match with_old_seal(alloc, &[ShelfFail { call, kept: 1 }]) {
        Some(mut shelf) => making_leaves(alloc, &mut shelf, head, loose),
        None => false,
    }
}

#[test]
fn the_byte_that_opens_a_store_comes_last(rt: HostRuntime) {
    for (call, head, loose) in [
        (1, 0, true),
        (2, 0, true),
        (3, 0, false),
        (4, 1, false),
        (5, 32, false),
        (6, 33, false),
        (7, 33, false),
    ] {
        assert!(rt;
            call_leaves(rt.alloc(), call, head, loose),
            "call {call} fails"
        );
    }
}

/// Whether opening a store with one session ends well before this call of the shelf, which fails.
fn opens_before(alloc: Global, call: u32) -> bool {
    match shelf_with(alloc, &[ShelfFail { call, kept: 0 }]) {
        Some(mut shelf) => {
            put_files(&mut shelf, WHOLE)
                && opened(alloc, &mut shelf).is_none()
                && shelf.len(File::Head) == Err(EdgeFault::Failed)
        }
        None => false,
    }
}

// Four sizes are asked for; the settings, the head of the record and the record are read.
#[test]
fn opening_reads_each_record_once_and_no_container(rt: HostRuntime) {
    assert!(rt; opens_before(rt.alloc(), 7));
}
