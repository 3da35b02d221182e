ghost use Rattle.std.specs.Prelude.{◌≡◌, IfOk, string_bytes};
ghost use Rattle.sd_base.specs.Texts.{ingested_text};

use crate::name_text::text_of_name;
use sd_base::{Name, OutOfMemory};
use std::alloc::Global;

/// The text of `ingest`: the name of the session, the number of its bytes, of its places and of its
/// new chunks. It fails only if memory runs out.
pub fn text_of_ingest(
    alloc: Global,
    name: &Name,
    bytes: u64,
    places: u32,
    fresh: u32,
) -> Result<String, OutOfMemory>
    ensures { IfOk result (λ text. string_bytes text ≡ ingested_text name.now bytes places fresh) }
{
    let name = text_of_name(name);
    let mut text = String::new(alloc);
    write!(text, "ingested {name} {bytes} bytes ")?;
    writeln!(text, "{places} places {fresh} new")?;
    Ok(text)
}
