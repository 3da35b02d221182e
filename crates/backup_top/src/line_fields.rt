//! The fields of the lines that `refs` and `plan` print. There may be millions of lines, and these
//! calls take fewer instructions than the formatting of `write!`, and no memory beside the text.
ghost use Rattle.std.specs.Prelude.{◌≡◌, ◌++◌, ◌∷◌, [], OnOk, string_bytes};
ghost use Rattle.std.specs.Fmt.{decimal};
ghost use Rattle.hex.specs.Hex.{encode_lower};

use crate::name_digits::{digits_of, text_of_digits};
use itoa::Buffer;
use sd_base::{DIGEST_LEN, OutOfMemory};

/// Appends a number and a space.
pub fn push_number(text: &mut String, number: u32) -> Result<(), OutOfMemory>
    ensures { OnOk result (string_bytes text.new ≡ string_bytes text.old ++ decimal number ++ 32 ∷ []) }
{
    let mut digits = Buffer::new();
    text.push_str(digits.format(number))?;
    text.push(' ')?;
    Ok(())
}

/// Appends the name of a chunk, and ends the line.
pub fn push_name(text: &mut String, name: &[u8; DIGEST_LEN]) -> Result<(), OutOfMemory>
    ensures { OnOk result (string_bytes text.new ≡ string_bytes text.old ++ encode_lower name.now ++ 10 ∷ []) }
{
    let digits = digits_of(name);
    text.push_str(text_of_digits(&digits))?;
    text.push('\n')?;
    Ok(())
}
