//! Tests of a store are texts with a step on each line, as `take a AB 0`: a call, its arguments and
//! what it has to return, or what has to be so then. So the proof of a test carries neither a store
//! nor what its calls ensure. Chunks are named by letters, and a fault by its word.
ghost use Rattle.std.specs.Prelude.{◌≡◌, ◌<◌, ◌≤◌, ◌++◌, [], length, slice_index_or, IfSome, IsTrue};
ghost use Rattle.std.specs.List.{All};
ghost use Rattle.sd_base.specs.Books.{bytes_named};
ghost use Rattle.store_core.specs.Recipes.{IsInOrder};
ghost use Rattle.store_core.specs.StoreStates.{chunks_of_store};

use chunk_names::{Namer, Sha256Namer};
use edge_traits::{EdgeFault, File, MemShelf, MemSink, Shelf, ShelfFail};
use sd_base::{Damage, MAX_CHUNK_LEN, Name, NewChunk, Params};
use std::alloc::Global;
use store_core::{Store, StoreFault, init};

/// The header of container 0.
const HEADER: &[u8] = b"SSCP\0\0\0\0";

/// The bytes of the chunk of a letter: `A`, `B`, `C` of the length of `A`, `Z` of 64 zeros, and `z`
/// of 8.
pub(crate) fn chunk_of(letter: u8) -> &'static [u8] {
    match letter {
        b'A' => &[1; 64],
        b'B' => &[2; 100],
        b'C' => &[3; 64],
        b'Z' => &[0; 64],
        _ => &[0; 8],
    }
}

/// The bytes of these chunks, one after another.
pub(crate) fn joined(alloc: Global, letters: &[u8]) -> Option<Vec<u8>> {
    let mut bytes = Vec::new(alloc);
    for letter in letters {
        bytes.extend_from_slice(chunk_of(*letter)).ok()?;
    }
    Some(bytes)
}

/// The parameters under which every window of zeros is a match.
pub(crate) fn small_params() -> Option<Params> {
    Params::new(0x8000_0000_0000_0001, 13, 0, 64, 256).ok()
}

/// A shelf of which these calls fail.
pub(crate) fn shelf_with(alloc: Global, failing: &[ShelfFail]) -> Option<MemShelf> {
    Some(MemShelf::new(alloc, Vec::from_slice(alloc, failing).ok()?))
}

/// A shelf with a store of no sessions with these parameters, of which these calls fail.
pub(crate) fn made_with(alloc: Global, failing: &[ShelfFail], params: &Params) -> Option<MemShelf> {
    let mut shelf = shelf_with(alloc, failing)?;
    match init(alloc, &mut shelf, params) {
        Ok(()) => Some(shelf),
        Err(_) => None,
    }
}

/// The same with the small parameters.
pub(crate) fn made(alloc: Global, failing: &[ShelfFail]) -> Option<MemShelf> {
    made_with(alloc, failing, &small_params()?)
}

pub(crate) fn opened(alloc: Global, shelf: &mut MemShelf) -> Option<Store<Sha256Namer>> {
    Store::open(alloc, shelf, Sha256Namer).ok()
}

/// Whether a recipe names the chunks from number `known` on in order, up to `total`.
fn is_in_order(known: usize, recipe: &[u32], total: usize) -> bool
    ensures { IsTrue result → IsInOrder known recipe.now total }
{
    let Some((first, rest)) = recipe.split_first() else {
        return known == total;
    };
    let first = *first as usize;
    if first < known {
        is_in_order(known, rest, total)
    } else {
        first == known && known < total && is_in_order(known + 1, rest, total)
    }
}

/// The chunk of a number.
fn chunk_at(committed: &[NewChunk], offered: &[NewChunk], number: usize) -> NewChunk
    requires { number < length (committed.now ++ offered.now) }
    ensures { result ≡ slice_index_or (committed.now ++ offered.now) number (record { length = 0; name = [] }) }
{
    if number < committed.len() {
        committed[number]
    } else {
        offered[number - committed.len()]
    }
}

/// The sum of the lengths of the chunks that a recipe names, if it names chunks alone.
fn length_of(committed: &[NewChunk], offered: &[NewChunk], recipe: &[u32]) -> Option<u32>
    ensures { IfSome result (λ sum. bytes_named (committed.now ++ offered.now) recipe.now ≡ sum) }
{
    let Some((first, rest)) = recipe.split_first() else {
        return Some(0);
    };
    let first = *first as usize;
    if first >= committed.len() + offered.len() {
        return None;
    }
    let length = chunk_at(committed, offered, first).length;
    length.checked_add(length_of(committed, offered, rest)?)
}

/// The sum of the lengths of the chunks of a store that a recipe names, if it names chunks alone.
fn length_in(store: &Store<Sha256Namer>, recipe: &[u32]) -> Option<u32>
    ensures { IfSome result (λ sum. bytes_named (chunks_of_store store.now) recipe.now ≡ sum) }
{
    length_of(store.book().chunks(), store.offered(), recipe)
}

/// Whether no chunk is longer than a maximum.
fn are_short(chunks: &[NewChunk], max: u32) -> bool
    ensures { IsTrue result → All (λ chunk. chunk.length ≤ max) chunks.now }
{
    chunks.iter().all(|chunk| chunk.length <= max)
}

/// How a chunk is offered.
pub(crate) fn offer<N: Namer>(
    namer: &N,
    store: &mut Store<N>,
    shelf: &mut MemShelf,
    chunk: &[u8],
) -> Option<Result<u32, StoreFault>> {
    if chunk.is_empty() || chunk.len() > MAX_CHUNK_LEN as usize || !store.is_sound() {
        return None;
    }
    Some(store.offer(shelf, chunk, &namer.name(chunk)))
}

/// How a session of a recipe is committed.
fn commit(
    store: &mut Store<Sha256Namer>,
    shelf: &mut MemShelf,
    name: &[u8],
    recipe: &[u32],
) -> Option<Result<u32, StoreFault>> {
    let length = length_in(store, recipe)?;
    let (committed, offered) = (store.book().chunks(), store.offered());
    let is_whole = is_in_order(committed.len(), recipe, committed.len() + offered.len());
    if !is_whole || !are_short(offered, store.params().max) || !store.is_sound() {
        return None;
    }
    Some(store.commit(shelf, &Name::read(name).ok()?, length, recipe))
}

/// How a session of these chunks is taken in: they are offered in turn up to the first fault, and
/// then committed.
pub(crate) fn take_in(
    alloc: Global,
    store: &mut Store<Sha256Namer>,
    shelf: &mut MemShelf,
    name: &[u8],
    letters: &[u8],
) -> Option<Result<u32, StoreFault>> {
    let mut recipe = Vec::new(alloc);
    for letter in letters {
        match offer(&Sha256Namer, store, shelf, chunk_of(*letter))? {
            Ok(number) => recipe.push(number).ok()?,
            Err(fault) => return Some(Err(fault)),
        }
    }
    commit(store, shelf, name, &recipe)
}

/// How a session is dropped.
fn drop_session(
    store: &mut Store<Sha256Namer>,
    shelf: &mut MemShelf,
    name: &[u8],
) -> Option<Result<u32, StoreFault>> {
    if !store.is_sound() || !store.offered().is_empty() {
        return None;
    }
    Some(store.drop_session(shelf, &Name::read(name).ok()?))
}

/// Whether a restore of a session into a sink ends so, after these bytes.
fn restores_into<N: Namer>(
    store: &Store<N>,
    shelf: &mut MemShelf,
    sink: &mut MemSink,
    name: &[u8],
    bytes: &[u8],
    ends: Result<(), StoreFault>,
) -> bool {
    match Name::read(name) {
        Ok(name) => store.restore(shelf, sink, &name) == ends && sink.written() == bytes,
        Err(_) => false,
    }
}

/// The same into a sink of which these calls fail.
pub(crate) fn restores<N: Namer>(
    alloc: Global,
    store: &Store<N>,
    shelf: &mut MemShelf,
    failing: &[u32],
    name: &[u8],
    bytes: &[u8],
    ends: Result<(), StoreFault>,
) -> bool {
    match Vec::from_slice(alloc, failing) {
        Ok(failing) => {
            let mut sink = MemSink::new(alloc, failing);
            restores_into(store, shelf, &mut sink, name, bytes, ends)
        }
        Err(_) => false,
    }
}

/// The fault of a word. `damaged` is what is found of chunk 1 if it was `B` and is changed.
fn fault_of(word: &str) -> Option<StoreFault> {
    match word {
        "damaged" => {
            let mut changed = [2; 100];
            changed[99] = 7;
            Some(StoreFault::Damaged(Damage::Chunk {
                number: 1,
                kept: Sha256Namer.name(&[2; 100]),
                found: Sha256Namer.name(&changed),
            }))
        }
        "name_taken" => Some(StoreFault::NameTaken),
        "no_session" => Some(StoreFault::NoSession),
        "shelf_fault" => Some(StoreFault::ShelfFault),
        _ => None,
    }
}

/// Whether an outcome is this number or fault.
fn is_outcome(outcome: Option<Result<u32, StoreFault>>, word: &str) -> bool {
    match outcome {
        Some(Ok(number)) => word.parse::<u32>() == Ok(number),
        Some(Err(fault)) => fault_of(word) == Some(fault),
        None => false,
    }
}

/// The first word of a text, and what comes after it.
pub(crate) fn first_word(text: &str) -> (&str, &str) {
    match text.split_once(' ') {
        Some((word, rest)) => (word, rest),
        None => (text, ""),
    }
}

/// Whether a restore goes as a step says: the name, a fault or `done`, and the chunks that are
/// written.
fn restore_goes_well(
    alloc: Global,
    store: &Store<Sha256Namer>,
    shelf: &mut MemShelf,
    step: &str,
) -> bool {
    let (name, rest) = first_word(step);
    let (word, letters) = first_word(rest);
    let ends = match fault_of(word) {
        Some(fault) => Err(fault),
        None => Ok(()),
    };
    match joined(alloc, letters.as_bytes()) {
        Some(bytes) => restores(alloc, store, shelf, &[], name.as_bytes(), &bytes, ends),
        None => false,
    }
}

/// Whether a step of one session goes as it has to.
fn call_goes_well(
    alloc: Global,
    store: &mut Store<Sha256Namer>,
    shelf: &mut MemShelf,
    call: &str,
    step: &str,
) -> bool {
    let (name, rest) = first_word(step);
    match call {
        "offer" => match name.as_bytes() {
            [letter] => is_outcome(offer(&Sha256Namer, store, shelf, chunk_of(*letter)), rest),
            _ => false,
        },
        "take" => {
            let (letters, wanted) = first_word(rest);
            is_outcome(
                take_in(alloc, store, shelf, name.as_bytes(), letters.as_bytes()),
                wanted,
            )
        }
        "drop" => is_outcome(drop_session(store, shelf, name.as_bytes()), rest),
        "restore" => restore_goes_well(alloc, store, shelf, step),
        _ => is_so(store, shelf, call, step),
    }
}

/// Whether chunks from 0 on have the counts of these digits. A chunk that was not committed has
/// `-`.
fn counts_are(store: &Store<Sha256Namer>, digits: &str) -> bool {
    let mut number = 0u32;
    for digit in digits.as_bytes() {
        let want = match *digit {
            b'-' => None,
            digit => Some(u32::from(digit.wrapping_sub(b'0'))),
        };
        if store.refs(number) != want {
            return false;
        }
        number = number.wrapping_add(1);
    }
    true
}

/// Whether the book, the seal and container 0 have this many bytes, all flushed.
fn are_flushed(shelf: &MemShelf, sizes: &str) -> bool {
    let mut rest = sizes;
    for file in [File::Book(0), File::Seal(0), File::Container(0, 0)] {
        let (size, after) = first_word(rest);
        if size.parse::<usize>() != Ok(shelf.file(file).len()) || shelf.is_loose(file) {
            return false;
        }
        rest = after;
    }
    true
}

/// The bytes of container 0 after its header.
pub(crate) fn contained(shelf: &MemShelf) -> Option<&[u8]> {
    shelf.file(File::Container(0, 0)).strip_prefix(HEADER)
}

/// Whether container 0 is its header and these chunks.
pub(crate) fn container_is(shelf: &MemShelf, letters: &[u8]) -> bool {
    let Some(mut rest) = contained(shelf) else {
        return false;
    };
    for letter in letters {
        let Some(after) = rest.strip_prefix(chunk_of(*letter)) else {
            return false;
        };
        rest = after;
    }
    rest.is_empty()
}

/// Whether a store and its shelf are as a step says.
fn is_so(store: &Store<Sha256Namer>, shelf: &mut MemShelf, word: &str, rest: &str) -> bool {
    match word {
        "is_sound" => store.is_sound(),
        "is_not_sound" => !store.is_sound(),
        "sessions" => rest.parse::<u32>() == Ok(store.book().sessions()),
        "counts" => counts_are(store, rest),
        "container" => container_is(shelf, rest.as_bytes()),
        "flushed" => are_flushed(shelf, rest),
        "has_no_tail" => store.book().used() == shelf.file(File::Book(0)).len() as u64,
        "next_call_fails" => shelf.len(File::Head) == Err(EdgeFault::Failed),
        _ => false,
    }
}

/// Changes the last byte of `B` in container 0, which begins with the header, `A` and `B`.
fn change_b(alloc: Global, shelf: &mut MemShelf) -> Option<()> {
    let mut bytes = shelf.file(File::Container(0, 0)).to_vec(alloc).ok()?;
    *bytes.get_mut(8 + 64 + 99)? = 7;
    shelf.put_file(File::Container(0, 0), &bytes).ok()
}

/// Appends bytes to a file that no commit has sealed.
fn add_tail(alloc: Global, shelf: &mut MemShelf, file: File) -> Option<()> {
    let mut bytes = shelf.file(file).to_vec(alloc).ok()?;
    bytes.extend_from_slice(b"tail").ok()?;
    shelf.put_file(file, &bytes).ok()
}

/// Whether a step goes as it has to.
fn goes_well(
    alloc: Global,
    store: &mut Store<Sha256Namer>,
    shelf: &mut MemShelf,
    step: &str,
) -> bool {
    let (word, rest) = first_word(step);
    match word {
        "open" => match opened(alloc, shelf) {
            Some(opened) => {
                *store = opened;
                true
            }
            None => false,
        },
        "change_b" => change_b(alloc, shelf).is_some(),
        "tail_book" => add_tail(alloc, shelf, File::Book(0)).is_some(),
        "tail_container" => add_tail(alloc, shelf, File::Container(0, 0)).is_some(),
        _ => call_goes_well(alloc, store, shelf, word, rest),
    }
}

/// The first line that does not go as it has to, counted from 0.
fn wrong_step(
    alloc: Global,
    store: &mut Store<Sha256Namer>,
    shelf: &mut MemShelf,
    steps: &str,
) -> Option<usize> {
    for (number, line) in steps.lines().enumerate() {
        let step = line.trim();
        if !step.is_empty() && !goes_well(alloc, store, shelf, step) {
            return Some(number);
        }
    }
    None
}

fn wrong_step_on(alloc: Global, shelf: &mut MemShelf, steps: &str) -> Option<usize> {
    match opened(alloc, shelf) {
        Some(mut store) => wrong_step(alloc, &mut store, shelf, steps),
        None => Some(0),
    }
}

/// The same on a new store, of whose shelf a call fails. On line 0 the store is made.
fn wrong_line(alloc: Global, fail: ShelfFail, steps: &str) -> Option<usize> {
    match made(alloc, &[fail]) {
        Some(mut shelf) => wrong_step_on(alloc, &mut shelf, steps),
        None => Some(0),
    }
}

/// What steps show, the first and the last call of the shelf that fails in a run of them, how many
/// bytes it keeps, and the steps.
pub(crate) type Row = (&'static str, (u32, u32), u32, &'static str);

/// No run has as many calls.
pub(crate) const NO_CALL: (u32, u32) = (u32::MAX, u32::MAX);

/// The first run that goes wrong: what it was to show, the call that failed, and the line.
pub(crate) fn first_wrong(alloc: Global, rows: &[Row]) -> Option<(&'static str, u32, usize)> {
    for &(shows, (first, last), kept, steps) in rows {
        for call in first..=last {
            if let Some(line) = wrong_line(alloc, ShelfFail { call, kept }, steps) {
                return Some((shows, call, line));
            }
        }
    }
    None
}
