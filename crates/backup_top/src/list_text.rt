ghost use Rattle.std.specs.Prelude.{◌≡◌, ◌+◌, ◌<◌, ◌++◌, IfOk, OnOk, drop, length, string_bytes};
ghost use Rattle.sd_base.specs.Rows.{live_book_rows, rows_of_book};
ghost use Rattle.sd_base.specs.Texts.{list_line, list_text};

use crate::name_text::text_of_name;
use sd_base::{IngestRecord, OutOfMemory};
use session_book::Book;
use std::alloc::Global;

/// The text of `list`: a line for each live session of a book, in the order of their numbers. It
/// fails only if memory runs out.
pub fn text_of_list(alloc: Global, book: &Book) -> Result<String, OutOfMemory>
    ensures { IfOk result (λ lines. string_bytes lines ≡ list_text (rows_of_book book.now)) }
{
    let mut lines = String::new(alloc);
    for number in 0..book.sessions() {
        push_session(&mut lines, book, number)?;
    }
    Ok(lines)
}

// Appends the line of a session, if it is live.
fn push_session(lines: &mut String, book: &Book, number: u32) -> Result<(), OutOfMemory>
    requires { number < length book.now.sessions }
    ensures { OnOk result (
        string_bytes lines.new ++ list_text (live_book_rows (number + 1) (drop (number + 1) book.now.sessions))
        ≡ string_bytes lines.old ++ list_text (live_book_rows number (drop number book.now.sessions))) }
{
    if !book.live(number) {
        return Ok(());
    }
    match book.session(number) {
        Some(session) => push_line(lines, number, session),
        None => Ok(()),
    }
}

fn push_line(lines: &mut String, number: u32, session: &IngestRecord) -> Result<(), OutOfMemory>
    ensures { OnOk result (string_bytes lines.new ≡ string_bytes lines.old ++ list_line (record {
      number = number;
      name = session.now.name;
      bytes = session.now.length;
      places = length session.now.recipe;
    })) }
{
    let name = text_of_name(&session.name);
    let bytes = session.length;
    let places = session.recipe.as_slice().len();
    writeln!(lines, "{number} {name} {bytes} {places}")?;
    Ok(())
}
