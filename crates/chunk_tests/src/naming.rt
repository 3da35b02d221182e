ghost use Rattle.sd_base.specs.Commands.{AreWorkers};
ghost use Rattle.sd_base.specs.Cutting.{RiseWithin};

use crate::gates::Watch;
use chunk_names::{LengthNamer, Namer, Sha256Namer, hex_of, name_all};
use sd_base::Stage;
use std::alloc::Global;
use std::thread::Threads;

// The name of `abc` is an example of FIPS 180-2, and that of no bytes is the first of NIST's test
// vectors of SHA-256 for short messages.
const OF_NOTHING: &str = "e3b0c44298fc1c149afbf4c8996fb92427ae41e4649b934ca495991b7852b855";

const OF_ABC: &str = "ba7816bf8f01cfea414140de5dae2223b00361a396177a9cb410ff61f20015ad";

const OF_64_BYTES: &str = "0000000000000000000000000000000000000000000000000000000000000040";

// The name of bytes by a namer that is borrowed.
fn name_by_borrowed<N: Namer>(namer: &N, bytes: &[u8]) -> [u8; 32] {
    let borrowed = &namer;
    borrowed.name(bytes)
}

// Whether a name is printed as these digits.
fn digits_are(alloc: Global, name: &[u8; 32], want: &str) -> bool {
    match hex_of(alloc, name) {
        Ok(text) => text.as_str() == want,
        Err(_) => false,
    }
}

// Whether four names are printed as their digits.
fn all_digits_are(alloc: Global) -> bool {
    digits_are(alloc, &Sha256Namer.name(b""), OF_NOTHING)
        && digits_are(alloc, &Sha256Namer.name(b"abc"), OF_ABC)
        && digits_are(alloc, &name_by_borrowed(&Sha256Namer, b"abc"), OF_ABC)
        && digits_are(alloc, &LengthNamer.name(&[7; 64]), OF_64_BYTES)
}

#[test]
fn names_are_printed_as_their_64_lower_case_digits(rt: HostRuntime) {
    assert!(rt; all_digits_are(rt.alloc()));
}

// Whether chunks of `abcde` have these names, and the gate had a call for each worker, of which the
// first 64 had these pieces.
fn names_are<H: Threads + Sync>(
    rt: &H,
    alloc: Global,
    start: u32,
    ends: &[u32],
    workers: u32,
    pieces: u64,
    want: &[[u8; 32]],
) -> bool
    requires rise { RiseWithin start 5 ends.now }
    requires workers { AreWorkers workers }
{
    let gate = Watch::new(Stage::Name, 0);
    match name_all(
        rt,
        alloc,
        &Sha256Namer,
        b"abcde",
        start,
        ends,
        workers,
        7,
        &gate,
    ) {
        Ok(names) => names.as_slice() == want && gate.has_noted(pieces, u64::from(workers)),
        Err(_) => false,
    }
}

fn name(bytes: &[u8]) -> [u8; 32] {
    Sha256Namer.name(bytes)
}

// Whether no chunk, `abc`, five chunks, and three from 1 on have their names.
fn workers_name<H: Threads + Sync>(rt: &H, alloc: Global, workers: u32, pieces: u64) -> bool
    requires workers { AreWorkers workers }
{
    let five = [name(b"a"), name(b"b"), name(b"c"), name(b"d"), name(b"e")];
    let three = [name(b"b"), name(b"cd"), name(b"e")];
    names_are(rt, alloc, 0, &[], workers, pieces, &[])
        && names_are(rt, alloc, 0, &[3], workers, pieces, &[name(b"abc")])
        && names_are(rt, alloc, 0, &[1, 2, 3, 4, 5], workers, pieces, &five)
        && names_are(rt, alloc, 1, &[2, 4, 5], workers, pieces, &three)
}

#[test]
fn any_workers_find_the_same_names_and_each_calls_the_gate_once(rt: HostRuntime) {
    for (workers, pieces) in [(1, 1), (2, 3), (3, 7), (4, 15), (64, u64::MAX)] {
        assert!(rt;
            workers_name(&rt, rt.alloc(), workers, pieces),
            "{workers} workers"
        );
    }
}

// Whether these are the names of chunks of 1 byte and of 2.
fn are_lengths(names: &[[u8; 32]]) -> bool {
    names == [LengthNamer.name(b"a"), LengthNamer.name(b"bc")].as_slice()
}

// Whether two workers name a chunk of 1 byte and one of 2, each while the other does.
fn two_meet<H: Threads + Sync>(rt: &H, alloc: Global) -> bool {
    let watch = Watch::new(Stage::Name, 3);
    match name_all(rt, alloc, &watch, b"abc", 0, &[1, 3], 2, 7, &watch) {
        Ok(names) => are_lengths(&names) && watch.has_noted(3, 2),
        Err(_) => false,
    }
}

#[test]
fn two_workers_name_at_the_same_time_each_after_its_gate(rt: HostRuntime) {
    assert!(rt; two_meet(&rt, rt.alloc()));
}
