use edge_traits::{EdgeFault, File, Shelf};
use sd_base::MAX_CHUNK_LEN;

// A test of a shelf is a text with a step on each line, as `head read 0 4 ab`: a file, a call, its
// arguments, and what it has to return, which is `done`, `failed`, a number or bytes. So the proof
// of a test carries neither a shelf nor what its calls ensure. `nothing` is no bytes, and `longest`
// is a chunk of the greatest length.

static LONGEST: [u8; MAX_CHUNK_LEN as usize] = [7; MAX_CHUNK_LEN as usize];

/// The first word of a step, and what comes after it.
pub(crate) fn first_word(step: &str) -> (&str, &str) {
    match step.split_once(' ') {
        Some((word, rest)) => (word, rest),
        None => (step, ""),
    }
}

pub(crate) fn bytes_of(word: &str) -> &[u8] {
    match word {
        "nothing" => b"",
        "longest" => &LONGEST,
        _ => word.as_bytes(),
    }
}

/// The number that a word spells, or else the greatest, as which it fails.
pub(crate) fn number_of(word: &str) -> u64 {
    word.parse::<u64>().unwrap_or(u64::MAX)
}

pub(crate) fn file_of(name: &str) -> Option<File> {
    Some(match name {
        "head" => File::Head,
        "seal.0" => File::Seal(0),
        "seal.1" => File::Seal(1),
        "book.0" => File::Book(0),
        "container.0.0" => File::Container(0, 0),
        "container.0.1" => File::Container(0, 1),
        "container.1.0" => File::Container(1, 0),
        "container.3.0" => File::Container(3, 0),
        "container.3.1" => File::Container(3, 1),
        _ => return None,
    })
}

/// Whether a call returns what it has to.
pub(crate) fn returns<S: Shelf>(shelf: &mut S, file: File, step: &str) -> bool {
    let (call, rest) = first_word(step);
    let (argument, wanted) = first_word(rest);
    match call {
        "len" => is_number(shelf.len(file), rest),
        "read" => reads(shelf, file, number_of(argument), wanted),
        "append" => is_done(shelf.append(file, bytes_of(argument)), wanted),
        "cut" => is_done(shelf.cut(file, number_of(argument)), wanted),
        "flush" => is_done(shelf.flush(file), rest),
        _ => false,
    }
}

/// Whether a read into so much room of a piece of eight bytes returns these bytes, as `4 ab`. Only
/// those that were read may change in the piece.
fn reads<S: Shelf>(shelf: &mut S, file: File, at: u64, rest: &str) -> bool {
    let (room, wanted) = first_word(rest);
    let room = room.parse::<usize>().unwrap_or(8).min(8);
    let mut into = [0u8; 8];
    match shelf.read_at(file, at, &mut into[..room]) {
        Ok(count) => is_front(into, count, bytes_of(wanted)),
        Err(fault) => is_failure(fault, wanted),
    }
}

/// Whether these are the first bytes of a piece, so many, and the others are zeros.
fn is_front(piece: [u8; 8], count: usize, bytes: &[u8]) -> bool {
    let mut wanted = [0u8; 8];
    let length = bytes.len().min(8);
    wanted[..length].copy_from_slice(&bytes[..length]);
    count == bytes.len() && piece == wanted
}

pub(crate) fn is_number(found: Result<u64, EdgeFault>, wanted: &str) -> bool {
    match found {
        Ok(number) => wanted.parse::<u64>() == Ok(number),
        Err(fault) => is_failure(fault, wanted),
    }
}

pub(crate) fn is_done(done: Result<(), EdgeFault>, wanted: &str) -> bool {
    match done {
        Ok(()) => wanted == "done",
        Err(fault) => is_failure(fault, wanted),
    }
}

pub(crate) fn is_failure(fault: EdgeFault, wanted: &str) -> bool {
    fault == EdgeFault::Failed && wanted == "failed"
}
