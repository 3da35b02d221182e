ghost use Rattle.shard_plan.specs.FewNames.{few_name, length-few_name};

use crate::steps::{contained, container_is, made, made_with, restores, small_params};
use chunk_names::{LengthNamer, Namer, Sha256Namer};
use edge_traits::{File, MemShelf, MemSource, ShelfFail, Source};
use ingest_core::{IngestFault, Line, Summary, cuts_of_text, ingest, plan};
use sd_base::{
    DEFAULT_BATCH, DEFAULT_BITS, DEFAULT_MAX, DEFAULT_MIN, DEFAULT_POLYNOMIAL, DEFAULT_SEGMENT,
    DEFAULT_SHARDS, DEFAULT_TARGET, DEFAULT_WORKERS, Gate, How, MAX_SEGMENT, MAX_WORKERS, Name,
    OpenGate, Params, Stage,
};
use std::alloc::Global;
use std::sync::atomic::{AtomicU64, Ordering};
use std::thread::Threads;
use store_core::{Store, StoreFault};

const HOW: How = How {
    workers: DEFAULT_WORKERS,
    segment: DEFAULT_SEGMENT,
    batch: DEFAULT_BATCH,
    shards: DEFAULT_SHARDS,
};

const ZEROS: &[u8] = &[0; 200];

/// A source of these bytes, of which these reads fail.
fn source_of(alloc: Global, bytes: &[u8], failing: &[u32]) -> Option<MemSource> {
    let bytes = Vec::from_slice(alloc, bytes).ok()?;
    let failing = Vec::from_slice(alloc, failing).ok()?;
    Some(MemSource::new(alloc, bytes, Vec::new(alloc), failing))
}

/// How a source is taken in.
fn take_source<H: Threads + Sync, N: Namer>(
    rt: &H,
    alloc: Global,
    source: &mut MemSource,
    shelf: &mut MemShelf,
    namer: &N,
    name: &[u8],
) -> Option<Result<Summary, IngestFault>> {
    let name = Name::read(name).ok()?;
    Some(ingest(rt, alloc, source, shelf, namer, &name, &HOW))
}

/// How an input is taken in, if these reads fail.
fn take_failing<H: Threads + Sync, N: Namer>(
    rt: &H,
    alloc: Global,
    shelf: &mut MemShelf,
    input: &[u8],
    failing: &[u32],
    namer: &N,
    name: &[u8],
) -> Option<Result<Summary, IngestFault>> {
    let mut source = source_of(alloc, input, failing)?;
    take_source(rt, alloc, &mut source, shelf, namer, name)
}

/// How an input is taken in.
pub(crate) fn take_in<H: Threads + Sync, N: Namer>(
    rt: &H,
    alloc: Global,
    shelf: &mut MemShelf,
    input: &[u8],
    namer: &N,
    name: &[u8],
) -> Option<Result<Summary, IngestFault>> {
    take_failing(rt, alloc, shelf, input, &[], namer, name)
}

/// Whether zeros are cut at these positions by three workers.
fn zeros_have_cuts<H: Threads + Sync>(rt: &H, alloc: Global, want: &[u32]) -> Option<bool> {
    let params = small_params()?;
    let cuts = cuts_of_text(rt, alloc, &params, ZEROS, 47, 3, &OpenGate).ok()?;
    Some(cuts.as_slice() == want)
}

#[test]
fn zeros_are_cut_at_the_minimum(rt: HostRuntime) {
    assert!(rt; zeros_have_cuts(&rt, rt.alloc(), &[64, 128, 192, 200]) == Some(true));
}

/// A gate that counts the segments and the shares of names that begin.
#[derive(Drop)]
struct Counting {
    segments: AtomicU64,
    shares: AtomicU64,
}

impl Counting {
    fn new() -> Counting {
        Counting {
            segments: AtomicU64::new(0),
            shares: AtomicU64::new(0),
        }
    }
}

impl Gate for Counting {
    fn at(&self, stage: Stage, batch: u32, piece: u32) {
        if stage == Stage::Scan {
            self.segments.fetch_add(1, Ordering::SeqCst);
        }
        if stage == Stage::Name {
            self.shares.fetch_add(1, Ordering::SeqCst);
        }
    }
}

/// Whether the plan of a text has these lines, if the numbers are in their ranges.
fn plan_is<H: Threads + Sync, N: Namer>(
    rt: &H,
    alloc: Global,
    params: &Params,
    text: &[u8],
    (segment, workers): (u32, u32),
    namer: &N,
    gate: &Counting,
    want: &[Line],
) -> bool {
    if text.len() > 200
        || segment == 0
        || segment > MAX_SEGMENT
        || workers == 0
        || workers > MAX_WORKERS
    {
        return false;
    }
    match plan(rt, alloc, params, text, segment, workers, namer, gate) {
        Ok(lines) => lines.as_slice() == want,
        Err(_) => false,
    }
}

fn line(offset: u32, length: u32, name: [u8; 32]) -> Line {
    Line {
        offset,
        length,
        name,
    }
}

/// The lines of the plan of zeros.
fn lines_of_zeros() -> [Line; 4] {
    let whole = LengthNamer.name(&[0; 64]);
    let last = LengthNamer.name(&[0; 8]);
    [
        line(0, 64, whole),
        line(64, 64, whole),
        line(128, 64, whole),
        line(192, 8, last),
    ]
}

/// Whether the plan of zeros has its lines, and so many segments and a share of names for each
/// worker begin.
fn plan_of_zeros_is_right<H: Threads + Sync>(
    rt: &H,
    alloc: Global,
    segment: u32,
    workers: u32,
    segments: u64,
) -> bool {
    let Some(params) = small_params() else {
        return false;
    };
    let (gate, want) = (Counting::new(), lines_of_zeros());
    plan_is(
        rt,
        alloc,
        &params,
        ZEROS,
        (segment, workers),
        &LengthNamer,
        &gate,
        &want,
    ) && gate.segments.load(Ordering::SeqCst) == segments
        && gate.shares.load(Ordering::SeqCst) == u64::from(workers)
}

// The positions from 1 to 200 are shared in segments.
#[test]
fn a_plan_has_a_line_for_each_chunk_and_is_shared_by_its_workers(rt: HostRuntime) {
    for (segment, workers, segments) in [
        (DEFAULT_SEGMENT, 1, 1),
        (48, 2, 5),
        (1, 64, 200),
        (48, 3, 5),
        (200, 64, 1),
        (199, 1, 2),
    ] {
        assert!(rt;
            plan_of_zeros_is_right(&rt, rt.alloc(), segment, workers, segments),
            "segment {segment}, {workers} workers"
        );
    }
}

fn default_params() -> Option<Params> {
    Params::new(
        DEFAULT_POLYNOMIAL,
        DEFAULT_BITS,
        DEFAULT_TARGET,
        DEFAULT_MIN,
        DEFAULT_MAX,
    )
    .ok()
}

/// Whether the plan of `abc` under the defaults is one line.
fn default_plan_is_a_line<H: Threads + Sync>(rt: &H, alloc: Global) -> bool {
    let Some(params) = default_params() else {
        return false;
    };
    let shares = (DEFAULT_SEGMENT, DEFAULT_WORKERS);
    let (gate, want) = (Counting::new(), [line(0, 3, Sha256Namer.name(b"abc"))]);
    plan_is(
        rt,
        alloc,
        &params,
        b"abc",
        shares,
        &Sha256Namer,
        &gate,
        &want,
    )
}

#[test]
fn a_short_input_is_one_line_under_the_defaults(rt: HostRuntime) {
    assert!(rt; default_plan_is_a_line(&rt, rt.alloc()));
}

/// What is answered of a session of so many bytes and chunks, of which so many chunks are new.
fn summary(
    session: u32,
    bytes: u64,
    places: u32,
    fresh: u32,
) -> Option<Result<Summary, IngestFault>> {
    Some(Ok(Summary {
        session,
        bytes,
        places,
        fresh,
    }))
}

/// Whether zeros are taken in as this session with so many new chunks, and container 0 has its
/// header and the chunks of 64 and 8 zeros then.
fn takes_in_zeros<H: Threads + Sync>(
    rt: &H,
    alloc: Global,
    shelf: &mut MemShelf,
    session: u32,
    name: &[u8],
    fresh: u32,
) -> bool {
    take_in(rt, alloc, shelf, ZEROS, &Sha256Namer, name) == summary(session, 200, 4, fresh)
        && container_is(shelf, b"Zz")
}

/// Whether an ingest under the taken name `a` is refused, and the byte of its source is read after
/// that.
fn is_refused_unread<H: Threads + Sync>(rt: &H, alloc: Global, shelf: &mut MemShelf) -> bool {
    let ends = Some(Err(IngestFault::Store(StoreFault::NameTaken)));
    match source_of(alloc, b"x", &[]) {
        Some(mut source) => {
            take_source(rt, alloc, &mut source, shelf, &Sha256Namer, b"a") == ends
                && source.read(&mut [0; 2]) == Ok(1)
        }
        None => false,
    }
}

fn stores_zeros_once<H: Threads + Sync>(rt: &H, alloc: Global) -> bool {
    match made(alloc, &[]) {
        Some(mut shelf) => {
            takes_in_zeros(rt, alloc, &mut shelf, 0, b"a", 2)
                && takes_in_zeros(rt, alloc, &mut shelf, 1, b"b", 0)
                && is_refused_unread(rt, alloc, &mut shelf)
        }
        None => false,
    }
}

#[test]
fn an_input_is_stored_once_under_two_names_and_a_taken_name_is_refused_unread(rt: HostRuntime) {
    assert!(rt; stores_zeros_once(&rt, rt.alloc()));
}

/// Whether a store that is opened for it restores the session `name` as these bytes.
fn comes_back<N: Namer>(
    alloc: Global,
    shelf: &mut MemShelf,
    namer: N,
    name: &[u8],
    bytes: &[u8],
) -> bool {
    match Store::open(alloc, shelf, namer) {
        Ok(store) => restores(alloc, &store, shelf, &[], name, bytes, Ok(())),
        Err(_) => false,
    }
}

/// Four chunks of 64 bytes: zeros, zeros after a one, and both again.
pub(crate) fn two_chunks_twice() -> [u8; 256] {
    let mut input = [0; 256];
    input[64] = 1;
    input[192] = 1;
    input
}

/// Whether these chunks are taken in, then the second and the third of them, two are stored, and
/// both sessions come back. All chunks have the same name.
fn are_kept_apart_on<H: Threads + Sync>(
    rt: &H,
    alloc: Global,
    shelf: &mut MemShelf,
    input: &[u8; 256],
) -> bool {
    let (all, some) = (input.as_slice(), &input[64..192]);
    take_in(rt, alloc, shelf, all, &LengthNamer, b"a") == summary(0, 256, 4, 2)
        && take_in(rt, alloc, shelf, some, &LengthNamer, b"b") == summary(1, 128, 2, 0)
        && contained(shelf) == Some(&input[..128])
        && comes_back(alloc, shelf, LengthNamer, b"a", all)
        && comes_back(alloc, shelf, LengthNamer, b"b", some)
}

fn are_kept_apart<H: Threads + Sync>(rt: &H, alloc: Global) -> bool {
    match made(alloc, &[]) {
        Some(mut shelf) => are_kept_apart_on(rt, alloc, &mut shelf, &two_chunks_twice()),
        None => false,
    }
}

#[test]
fn chunks_of_one_name_are_kept_apart(rt: HostRuntime) {
    assert!(rt; are_kept_apart(&rt, rt.alloc()));
}

/// Whether no byte is committed.
fn is_unsealed(shelf: &MemShelf) -> bool {
    shelf.file(File::Seal(0)).is_empty()
}

/// Whether a read that fails ends an ingest, and no byte is committed or stored.
fn failed_read_leaves_store<H: Threads + Sync>(rt: &H, alloc: Global) -> bool {
    let ends = Some(Err(IngestFault::SourceFault));
    match made(alloc, &[]) {
        Some(mut shelf) => {
            take_failing(rt, alloc, &mut shelf, ZEROS, &[1], &Sha256Namer, b"a") == ends
                && is_unsealed(&shelf)
                && shelf.file(File::Container(0, 0)).is_empty()
        }
        None => false,
    }
}

#[test]
fn a_failed_read_leaves_the_store(rt: HostRuntime) {
    assert!(rt; failed_read_leaves_store(&rt, rt.alloc()));
}

/// Whether this call fails in an ingest, no byte is committed, and the next ingest is the first
/// one.
fn failed_write_leaves_store<H: Threads + Sync>(rt: &H, alloc: Global, call: u32) -> bool {
    let ends = Some(Err(IngestFault::Store(StoreFault::ShelfFault)));
    match made(alloc, &[ShelfFail { call, kept: 0 }]) {
        Some(mut shelf) => {
            take_in(rt, alloc, &mut shelf, ZEROS, &Sha256Namer, b"a") == ends
                && is_unsealed(&shelf)
                && takes_in_zeros(rt, alloc, &mut shelf, 0, b"a", 2)
        }
        None => false,
    }
}

// Making and opening a store takes 13 calls. The next one is the first on a container.
#[test]
fn a_failed_write_leaves_the_store(rt: HostRuntime) {
    assert!(rt; failed_write_leaves_store(&rt, rt.alloc(), 13));
}

/// Names bytes by their number modulo 3, so that most chunks share a name.
#[derive(Clone, Copy)]
struct FewNamer;

impl Namer for FewNamer {
    ghost name_of = { few_name };

    fn name(&self, bytes: &[u8]) -> [u8; 32] {
        [(bytes.len() % 3) as u8; 32]
    }

    ghost whole = { length-few_name };
}

/// Parameters under which about one window in 16 is a match.
fn drawn_params() -> Option<Params> {
    Params::new(DEFAULT_POLYNOMIAL, 4, 0, 64, 256).ok()
}

/// The next number of a linear congruential generator.
fn next(number: u32) -> u32 {
    number.wrapping_mul(1_664_525).wrapping_add(1_013_904_223)
}

/// An input of 12 drawn blocks of 150 bytes, of which there are four.
fn drawn_input(state: &mut u32) -> [u8; 1800] {
    let mut input = [0; 1800];
    let mut number = 0;
    let mut place = 0u32;
    for byte in &mut input {
        if place == 0 {
            *state = next(*state);
            number = *state >> 30;
        }
        number = next(number);
        *byte = (number >> 24) as u8;
        place = place.wrapping_add(1) % 150;
    }
    input
}

/// A shelf with a store of no sessions with these parameters.
fn drawn_shelf(alloc: Global) -> Option<MemShelf> {
    made_with(alloc, &[], &drawn_params()?)
}

/// Where the chunks of a drawn input end.
fn drawn_cuts<H: Threads + Sync>(rt: &H, alloc: Global, input: &[u8; 1800]) -> Option<Vec<u32>> {
    match drawn_params() {
        Some(params) => cuts_of_text(rt, alloc, &params, input, 1000, 1, &OpenGate).ok(),
        None => None,
    }
}

/// The bytes of the chunk at a place.
fn chunk_at<'a>(input: &'a [u8], cuts: &[u32], place: usize) -> Option<&'a [u8]> {
    let start = match place {
        0 => Some(&0),
        _ => cuts.get(place - 1),
    };
    match (start, cuts.get(place)) {
        (Some(start), Some(end)) => input.get(*start as usize..*end as usize),
        _ => None,
    }
}

/// The first place of a chunk with the bytes of the one at a place.
fn first_same(input: &[u8], cuts: &[u32], place: usize) -> usize {
    for first in 0..place {
        if chunk_at(input, cuts, first) == chunk_at(input, cuts, place) {
            return first;
        }
    }
    place
}

/// How many different chunks an input has, if a recipe gives each place its number: that of the
/// first place with its bytes, or the next one if it is the first.
fn different_chunks(input: &[u8], cuts: &[u32], recipe: &[u32]) -> Option<u32> {
    let mut next = 0u32;
    for (place, number) in recipe.iter().enumerate() {
        let first = first_same(input, cuts, place);
        if first == place && *number == next {
            next = next.wrapping_add(1);
        } else if first == place || recipe.get(first) != Some(number) {
            return None;
        }
    }
    Some(next)
}

/// Whether the first session of a store has a place for each chunk, numbered so, and so many
/// different chunks.
fn numbers_chunks(store: &Store<FewNamer>, input: &[u8], cuts: &[u32], fresh: u32) -> bool {
    match store.book().session(0) {
        Some(entry) => {
            entry.recipe.as_slice().len() == cuts.len()
                && different_chunks(input, cuts, entry.recipe.as_slice()) == Some(fresh)
        }
        None => false,
    }
}

/// The same of a store that is opened for it.
fn numbers_chunks_anew(
    alloc: Global,
    shelf: &mut MemShelf,
    input: &[u8],
    cuts: &[u32],
    fresh: u32,
) -> bool {
    match Store::open(alloc, shelf, FewNamer) {
        Ok(store) => numbers_chunks(&store, input, cuts, fresh),
        Err(_) => false,
    }
}

/// Whether the repeats in an input are numbered so, there are some, and the input comes back.
fn numbers_repeats<H: Threads + Sync>(
    rt: &H,
    alloc: Global,
    shelf: &mut MemShelf,
    input: &[u8; 1800],
    cuts: &[u32],
) -> bool {
    match take_in(rt, alloc, shelf, input, &FewNamer, b"a") {
        Some(Ok(taken)) => {
            (taken.fresh as usize) < cuts.len()
                && numbers_chunks_anew(alloc, shelf, input, cuts, taken.fresh)
                && comes_back(alloc, shelf, FewNamer, b"a", input)
        }
        _ => false,
    }
}

fn numbers_repeats_on<H: Threads + Sync>(
    rt: &H,
    alloc: Global,
    shelf: &mut MemShelf,
    input: &[u8; 1800],
) -> bool {
    match drawn_cuts(rt, alloc, input) {
        Some(cuts) => numbers_repeats(rt, alloc, shelf, input, &cuts),
        None => false,
    }
}

fn numbers_drawn_repeats<H: Threads + Sync>(rt: &H, alloc: Global, input: &[u8; 1800]) -> bool {
    match drawn_shelf(alloc) {
        Some(mut shelf) => numbers_repeats_on(rt, alloc, &mut shelf, input),
        None => false,
    }
}

#[test]
fn a_repeat_has_the_number_of_the_first_chunk_with_its_bytes(rt: HostRuntime) {
    let mut state = 1;
    for _ in 0..10 {
        let input = drawn_input(&mut state);
        assert!(rt; numbers_drawn_repeats(&rt, rt.alloc(), &input));
    }
}

/// Whether an input is taken in although this call fails.
fn is_taken_in<H: Threads + Sync>(rt: &H, alloc: Global, call: u32, input: &[u8]) -> Option<bool> {
    match made(alloc, &[ShelfFail { call, kept: 0 }]) {
        Some(mut shelf) => match take_in(rt, alloc, &mut shelf, input, &Sha256Namer, b"a") {
            Some(outcome) => Some(outcome.is_ok()),
            None => None,
        },
        None => None,
    }
}

/// Whether one chunk is taken in although this call fails. This chunk three times must end alike.
fn both_end<H: Threads + Sync>(rt: &H, alloc: Global, call: u32) -> Option<bool> {
    let is_taken = is_taken_in(rt, alloc, call, &[0; 64])?;
    if is_taken_in(rt, alloc, call, &[0; 192])? != is_taken {
        return None;
    }
    Some(is_taken)
}

// Each call of the shelf fails once, in an ingest of one chunk and in one of this chunk three
// times. The calls begin with one that the ingests make, and reach past their last one.
#[test]
fn a_repeat_costs_no_call_of_the_shelf(rt: HostRuntime) {
    for call in 13..40 {
        assert!(rt;
            both_end(&rt, rt.alloc(), call).is_some(),
            "call {call} fails"
        );
    }
    assert!(rt;
        both_end(&rt, rt.alloc(), 13) == Some(false) && both_end(&rt, rt.alloc(), 39) == Some(true)
    );
}
