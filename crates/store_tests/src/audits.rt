use crate::ingest::{take_in, two_chunks_twice};
use crate::steps::made;
use chunk_names::{LengthNamer, Sha256Namer};
use edge_traits::{File, MemShelf};
use ingest_core::{Audited, audit};
use sd_base::Damage;
use std::alloc::Global;
use std::thread::Threads;
use store_core::StoreFault;

/// What an audit returns of a store without a flaw.
fn counted(live: u32, ingested: u32, chunks: u32, containers: u32) -> Result<Audited, StoreFault> {
    Ok(Audited {
        live,
        ingested,
        chunks,
        containers,
    })
}

fn new_store_counts_nothing<H: Threads + Sync>(rt: &H, alloc: Global) -> bool {
    match made(alloc, &[]) {
        Some(mut shelf) => audit(rt, alloc, &mut shelf, &Sha256Namer) == counted(0, 0, 0, 0),
        None => false,
    }
}

#[test]
fn a_new_store_has_nothing_to_count(rt: HostRuntime) {
    assert!(rt; new_store_counts_nothing(&rt, rt.alloc()));
}

/// Whether two chunks of one name, each twice, are taken in under three names.
fn take_in_thrice<H: Threads + Sync>(rt: &H, alloc: Global, shelf: &mut MemShelf) -> bool {
    for name in [b"a", b"b", b"c"] {
        match take_in(rt, alloc, shelf, &two_chunks_twice(), &LengthNamer, name) {
            Some(Ok(_)) => {}
            _ => return false,
        }
    }
    true
}

/// Makes the second chunk zeros, as the first is. Its first byte was the one that differed.
fn make_alike(alloc: Global, shelf: &mut MemShelf) -> Option<()> {
    let mut bytes = shelf.file(File::Container(0, 0)).to_vec(alloc).ok()?;
    *bytes.get_mut(8 + 64)? = 0;
    shelf.put_file(File::Container(0, 0), &bytes).ok()
}

/// Whether two chunks of one name pass an audit, and are twins once their bytes are equal.
fn tells_twins_on<H: Threads + Sync>(rt: &H, alloc: Global, shelf: &mut MemShelf) -> bool {
    let twins = Err(StoreFault::Damaged(Damage::Twin {
        first: 0,
        second: 1,
    }));
    take_in_thrice(rt, alloc, shelf)
        && audit(rt, alloc, shelf, &LengthNamer) == counted(3, 3, 2, 1)
        && make_alike(alloc, shelf).is_some()
        && audit(rt, alloc, shelf, &LengthNamer) == twins
}

fn tells_twins<H: Threads + Sync>(rt: &H, alloc: Global) -> bool {
    match made(alloc, &[]) {
        Some(mut shelf) => tells_twins_on(rt, alloc, &mut shelf),
        None => false,
    }
}

#[test]
fn chunks_of_one_name_are_twins_only_if_their_bytes_are_equal(rt: HostRuntime) {
    assert!(rt; tells_twins(&rt, rt.alloc()));
}
