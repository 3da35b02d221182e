ghost use Rattle.chunk_names.specs.LengthNames.{length_name, length-length_name};

use crate::Namer;

/// Names bytes by their number alone: 24 zeros, and the number as eight bytes, the high byte first.
/// It is for tests of what happens if different chunks have the same name.
#[derive(Clone, Copy, Debug, PartialEq, Eq)]
pub struct LengthNamer;

impl Namer for LengthNamer {
    ghost name_of = { length_name };

    fn name(&self, bytes: &[u8]) -> [u8; 32] {
        let mut name = [0; 32];
        name[24..].copy_from_slice(&(bytes.len() as u64).to_be_bytes());
        name
    }

    ghost whole = { length-length_name };
}
