ghost use Rattle.std.specs.Prelude.{◌≡◌, ◌+◌, ◌<◌, ◌++◌, IfOk, OnOk, drop, length, string_bytes};
ghost use Rattle.sd_base.specs.Books.{chunks_in};
ghost use Rattle.sd_base.specs.References.{live_book_places};
ghost use Rattle.sd_base.specs.Rows.{book_chunk_rows, reference_rows_of_book};
ghost use Rattle.sd_base.specs.Texts.{refs_line, refs_text};

use crate::line_fields::{push_name, push_number};
use chunk_names::Sha256Namer;
use sd_base::{DIGEST_LEN, NewChunk, OutOfMemory};
use std::alloc::Global;
use store_core::Store;

/// The bytes of the longest line: by the limits of a store its numbers have at most 7, 8 and 7
/// digits. Room is taken for all lines at once, since a text that grows is moved.
const MAX_LINE: usize = 7 + 8 + 7 + 2 * DIGEST_LEN + 4;

/// The text of `refs`: a line for each stored chunk, in the order of their numbers. It fails only if
/// memory runs out.
pub fn text_of_refs(alloc: Global, store: &Store<Sha256Namer>) -> Result<String, OutOfMemory>
    ensures { IfOk result (λ lines. string_bytes lines ≡ refs_text (reference_rows_of_book store.now.opened.book)) }
{
    let chunks = store.book().chunk_count();
    let mut lines = String::with_capacity(alloc, chunks as usize * MAX_LINE)?;
    for number in 0..chunks {
        push_chunk(&mut lines, store, number)?;
    }
    Ok(lines)
}

// Appends the line of a chunk.
fn push_chunk(
    lines: &mut String,
    store: &Store<Sha256Namer>,
    number: u32,
) -> Result<(), OutOfMemory>
    requires { number < length (chunks_in store.now.opened.book.sessions) }
    ensures { OnOk result (
        let sessions = store.now.opened.book.sessions in
        let places = live_book_places sessions in
        string_bytes lines.new ++ refs_text (book_chunk_rows places (number + 1) (drop (number + 1) (chunks_in sessions)))
        ≡ string_bytes lines.old ++ refs_text (book_chunk_rows places number (drop number (chunks_in sessions)))) }
{
    let chunk = &store.book().chunks()[number as usize];
    match store.refs(number) {
        Some(count) => push_line(lines, number, count, chunk),
        None => Ok(()),
    }
}

// Allocates nothing but what the line adds to the text.
fn push_line(
    lines: &mut String,
    number: u32,
    count: u32,
    chunk: &NewChunk,
) -> Result<(), OutOfMemory>
    ensures { OnOk result (string_bytes lines.new ≡ string_bytes lines.old ++ refs_line (record {
      number = number;
      count = count;
      length = chunk.now.length;
      name = chunk.now.name;
    })) }
{
    push_number(lines, number)?;
    push_number(lines, count)?;
    push_number(lines, chunk.length)?;
    push_name(lines, &chunk.name)
}
