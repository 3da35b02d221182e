//! The name of the session of `bulk`.
ghost use Rattle.std.specs.Prelude.{◌≡◌, ◌+◌, ◌≤◌, ◌++◌, length, take};
ghost use Rattle.sd_base.specs.Commands.{AreBlocks};
ghost use Rattle.sd_base.specs.Generator.{bulk_name};
ghost use Rattle.sd_base.specs.declared.limits.TheConstants.{MAX_NAME};

use itoa::Buffer;
use sd_base::{MAX_NAME, Name};

/// The name of the session that `bulk` takes in: `bulk.SEED.BLOCKS`, both in decimal. It takes no
/// memory.
pub fn name_of_bulk(seed: u64, blocks: u32) -> Name
    requires { AreBlocks blocks }
    ensures { result ≡ bulk_name seed blocks }
{
    let mut bytes = [0; MAX_NAME];
    let len = append(&mut bytes, 0, b"bulk.");
    let len = append(&mut bytes, len, Buffer::new().format(seed).as_bytes());
    let len = append(&mut bytes, len, b".");
    let len = append(&mut bytes, len, Buffer::new().format(blocks).as_bytes());
    Name::read(&bytes[..len]).unwrap()
}

// Puts a part after the first `len` bytes, and returns how many there are then.
fn append(bytes: &mut [u8; MAX_NAME], len: usize, part: &[u8]) -> usize
    requires { len + length part.now ≤ MAX_NAME }
    ensures len { result ≡ len + length part.now }
    ensures bytes { take result bytes.new ≡ take len bytes.old ++ part.now }
{
    let end = len + part.len();
    bytes[len..end].copy_from_slice(part);
    end
}
