ghost use Rattle.std.specs.Prelude.{◌≡◌, IfOk, string_bytes};
ghost use Rattle.hex.specs.Hex.{encode_lower};

use sd_base::OutOfMemory;
use std::alloc::Global;

/// A name in 64 lower-case hexadecimal digits. It fails only if memory runs out.
pub fn hex_of(alloc: Global, name: &[u8; 32]) -> Result<String, OutOfMemory>
    ensures digits { IfOk result (λ text. string_bytes text ≡ encode_lower name.now) }
{
    Ok(hex::encode(alloc, name.as_slice())?)
}
