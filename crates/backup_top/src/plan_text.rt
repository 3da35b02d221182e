ghost use Rattle.std.specs.Prelude.{◌≡◌, ◌++◌, IfOk, OnOk, string_bytes};
ghost use Rattle.backup_top.specs.Lines.{printed_line, printed_lines};

use crate::line_fields::{push_name, push_number};
use ingest_core::Line;
use sd_base::{DIGEST_LEN, OutOfMemory};
use std::alloc::Global;

/// The bytes of the longest line: by the limits of an input its offset has at most 9 digits and its
/// length at most 7. Room is taken for all lines at once, since a text that grows is moved.
const MAX_LINE: usize = 9 + 7 + 2 * DIGEST_LEN + 3;

/// The text of `plan`: a line for each chunk of an input, in order. It fails only if memory runs
/// out.
pub fn text_of_plan(alloc: Global, lines: &[Line]) -> Result<String, OutOfMemory>
    ensures { IfOk result (λ text. string_bytes text ≡ printed_lines lines.now) }
{
    let mut text = String::with_capacity(alloc, lines.len().saturating_mul(MAX_LINE))?;
    for line in lines {
        push_line(&mut text, line)?;
    }
    Ok(text)
}

fn push_line(text: &mut String, line: &Line) -> Result<(), OutOfMemory>
    ensures { OnOk result (string_bytes text.new ≡ string_bytes text.old ++ printed_line line.now) }
{
    push_number(text, line.offset)?;
    push_number(text, line.length)?;
    push_name(text, &line.name)
}
