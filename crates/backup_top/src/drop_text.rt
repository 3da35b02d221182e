ghost use Rattle.std.specs.Prelude.{◌≡◌, IfOk, string_bytes};
ghost use Rattle.sd_base.specs.Texts.{dropped_text};

use crate::name_text::text_of_name;
use sd_base::{Name, OutOfMemory};
use std::alloc::Global;

/// The text of `drop`: the name of the session and the number of its places. It fails only if memory
/// runs out.
pub fn text_of_drop(alloc: Global, name: &Name, places: usize) -> Result<String, OutOfMemory>
    ensures { IfOk result (λ text. string_bytes text ≡ dropped_text name.now places) }
{
    let name = text_of_name(name);
    let mut text = String::new(alloc);
    writeln!(text, "dropped {name} {places} places")?;
    Ok(text)
}
