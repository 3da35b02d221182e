//! Audits of stores with right records and right names that no run leaves behind.
use crate::audits::AUDIT;
use crate::notes::SIXTY_FOUR_ZEROS;
use crate::runs::Bytes::{Text, Zeros};
use crate::runs::ends_as;
use crate::steps::{MADE, Step, follow_on};
use crate::stores::EIGHT_ZEROS;
use backup_top::Outcome;
use edge_traits::{File, MemShelf};
use sd_base::{Damage, IngestRecord, MAX_CHUNK_LEN, Name, NewChunk, Record};
use session_book::encode_record;
use std::alloc::Global;
use std::test::Fail;
use std::thread::Threads;

/// A store of one session `a`, all of whose chunks are zeros.
struct Crafted {
    title: &'static str,
    /// The bytes of the session.
    length: u32,
    fresh: &'static [NewChunk],
    recipe: &'static [u32],
    is_dropped: bool,
    damage: Damage,
}

const EIGHT: NewChunk = NewChunk {
    length: 8,
    name: EIGHT_ZEROS,
};

const SIXTY_FOUR: NewChunk = NewChunk {
    length: 64,
    name: SIXTY_FOUR_ZEROS,
};

/// The name is by `sha256sum`.
const LONG: NewChunk = NewChunk {
    length: 128,
    name: [
        0x38, 0x72, 0x3a, 0x2e, 0x5e, 0x8a, 0x17, 0xaa, 0x79, 0x50, 0xdc, 0x00, 0x82, 0x09, 0x94,
        0x4e, 0x89, 0x8f, 0x69, 0xa7, 0xbd, 0x10, 0xa2, 0x3c, 0x83, 0x9d, 0x34, 0x1e, 0x93, 0x5f,
        0xd5, 0xca,
    ],
};

static CRAFTED: [Crafted; 7] = [
    Crafted {
        title: "equal chunks are found by their bytes",
        length: 128,
        fresh: &[SIXTY_FOUR, SIXTY_FOUR],
        recipe: &[0, 1],
        is_dropped: false,
        damage: Damage::Twin {
            first: 0,
            second: 1,
        },
    },
    Crafted {
        title: "the second chunk does not occur first",
        length: 72,
        fresh: &[SIXTY_FOUR, EIGHT],
        recipe: &[1, 0],
        is_dropped: false,
        damage: Damage::Order {
            session: 0,
            place: 0,
        },
    },
    Crafted {
        title: "a dropped session is looked at too",
        length: 72,
        fresh: &[SIXTY_FOUR, EIGHT],
        recipe: &[1, 0],
        is_dropped: true,
        damage: Damage::Order {
            session: 0,
            place: 0,
        },
    },
    Crafted {
        title: "a new chunk occurs",
        length: 64,
        fresh: &[SIXTY_FOUR, EIGHT],
        recipe: &[0],
        is_dropped: false,
        damage: Damage::Order {
            session: 0,
            place: 1,
        },
    },
    Crafted {
        title: "zeros are cut at the minimum",
        length: 128,
        fresh: &[LONG],
        recipe: &[0],
        is_dropped: false,
        damage: Damage::Cut {
            session: 0,
            place: 0,
        },
    },
    Crafted {
        title: "no chunk below the minimum is followed by another",
        length: 80,
        fresh: &[SIXTY_FOUR, EIGHT],
        recipe: &[0, 1, 1],
        is_dropped: true,
        damage: Damage::Cut {
            session: 0,
            place: 1,
        },
    },
    Crafted {
        title: "the last chunk is looked at",
        length: 192,
        fresh: &[SIXTY_FOUR, LONG],
        recipe: &[0, 1],
        is_dropped: false,
        damage: Damage::Cut {
            session: 0,
            place: 1,
        },
    },
];

// The book of a store, and its number of records. A record spells only chunks within the limits.
fn book_of(alloc: Global, store: &Crafted) -> Result<(Vec<u8>, usize), Fail> {
    let is_chunk = |chunk: &NewChunk| 1 <= chunk.length && chunk.length <= MAX_CHUNK_LEN;
    let fits = store.fresh.len() <= 2 && store.recipe.len() <= 3;
    if !fits || !store.fresh.iter().all(is_chunk) {
        return Err(Fail::from(store.title));
    }
    let record = Record::Ingest(IngestRecord {
        name: Name::read(b"a").ok().ok_or("a name")?,
        length: store.length,
        fresh: store.fresh.to_vec(alloc)?.into(),
        recipe: store.recipe.to_vec(alloc)?.into(),
    });
    let mut book = encode_record(alloc, &record)?;
    if !store.is_dropped {
        return Ok((book, 1));
    }
    book.extend_from_slice(&encode_record(alloc, &Record::Drop(0))?)?;
    Ok((book, 2))
}

// The container of the chunks of a store.
fn container_of(alloc: Global, store: &Crafted) -> Result<Vec<u8>, Fail> {
    let mut container = b"SSCP\0\0\0\0".to_vec(alloc)?;
    for chunk in store.fresh {
        container.extend_from_slice(&vec![in alloc; 0; chunk.length as usize]?)?;
    }
    Ok(container)
}

static HEAD: [Step; 1] = [MADE];

// The files of a store.
fn shelf_of<H: Threads + Sync>(rt: &H, alloc: Global, store: &Crafted) -> Result<MemShelf, Fail> {
    let mut shelf = MemShelf::new(alloc, Vec::new(alloc));
    follow_on(rt, alloc, &mut shelf, &HEAD)?;
    let (book, records) = book_of(alloc, store)?;
    shelf.put_file(File::Seal(0), &vec![in alloc; 1u8; records]?)?;
    shelf.put_file(File::Book(0), &book)?;
    shelf.put_file(File::Container(0, 0), &container_of(alloc, store)?)?;
    Ok(shelf)
}

#[test]
fn an_audit_names_what_no_run_leaves(rt: HostRuntime) -> Result<(), Fail> {
    for store in &CRAFTED {
        let mut shelf = shelf_of(&rt, rt.alloc(), store)?;
        let ending = Outcome::Damaged(store.damage);
        let is_found = ends_as(
            &rt,
            rt.alloc(),
            &mut shelf,
            AUDIT,
            &Zeros(0),
            ending,
            &Text(""),
        )?;
        assert!(rt; is_found, "{}", store.title);
    }
    Ok(())
}

// A restore goes by the records, and their chunks have their names.
#[test]
fn a_restore_passes_what_only_an_audit_finds(rt: HostRuntime) -> Result<(), Fail> {
    for store in &CRAFTED {
        if store.is_dropped {
            continue;
        }
        let mut shelf = shelf_of(&rt, rt.alloc(), store)?;
        let is_restored = ends_as(
            &rt,
            rt.alloc(),
            &mut shelf,
            "store,restore,a",
            &Zeros(0),
            Outcome::Done,
            &Zeros(store.length as usize),
        )?;
        assert!(rt; is_restored, "{}", store.title);
    }
    Ok(())
}
