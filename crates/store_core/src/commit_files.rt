//! What a commit writes.
ghost use Rattle.std.specs.Prelude.{◌≡◌, ◌≢◌, ◌⊎◌, ◌∷◌, ◌++◌, [], ℕ, List, length, take, false, option_map, OnOk, OnErr, IsErrOf};
ghost use Rattle.container_pack.specs.Packer.{generation_of, chunk_count, IsBehind, IsUnflushed};
ghost use Rattle.edge_traits.specs.Shelf.{content, Appended, ChangesOnly};
ghost use Rattle.sd_base.specs.declared.file.File.{File};
ghost use Rattle.sd_base.specs.declared.file.File.TheVariants.{Book, Seal};
ghost use Rattle.sd_base.specs.declared.limits.TheConstants.{COMMIT_BYTE};
ghost use Rattle.store_core.specs.Commits.{AreFlushed, CommitsNothing, CommitsRecord};
ghost use Rattle.store_core.specs.Shelves.{CountsFaults};

use crate::commit_byte::append_commit_byte;
use container_pack::Packer;
use edge_traits::{EdgeFault, File, Shelf};

/// Commits the bytes of a record, which come after the first `used` bytes of the book. All that
/// they count on is flushed before the byte of the seal that commits them is appended.
pub(crate) fn commit_bytes<F: Shelf>(
    shelf: &mut F,
    packer: &mut Packer,
    generation: u32,
    used: u64,
    bytes: &[u8],
) -> Result<(), EdgeFault>
    requires { generation_of packer.old ≡ generation }

    ensures committed { OnOk result
        (CommitsRecord generation used bytes.now (F.files shelf.old) (F.files shelf.new)) }
    ensures flushed { OnOk result (AreFlushed generation (IsUnflushed packer.old) (F.loose shelf.new)) }
    ensures sealed { OnOk result (F.loose shelf.new (Seal generation) ≡ false) }
    ensures refused { OnErr result (CommitsNothing generation used (F.files shelf.old) (F.files shelf.new)
        ⊎ (CommitsRecord generation used bytes.now (F.files shelf.old) (F.files shelf.new)
        × AreFlushed generation (IsUnflushed packer.old) (F.loose shelf.new))) }

    ensures generation { generation_of packer.new ≡ generation_of packer.old }
    ensures behind { (lengths : List ℕ) → IsBehind packer.old lengths → IsBehind packer.new lengths }
    ensures none_left { (k : ℕ) → OnOk result (IsUnflushed packer.new k → ⊥) }

    ensures counts { CountsFaults (IsErrOf result EdgeFault.Failed) F.faults F.faultless shelf.old shelf.new }
{
    write_record(shelf, packer, generation, used, bytes)?;
    append_commit_byte(shelf, File::Seal(generation))
}

// Writes a record into the book and flushes it, after the containers.
fn write_record<F: Shelf>(
    shelf: &mut F,
    packer: &mut Packer,
    generation: u32,
    used: u64,
    bytes: &[u8],
) -> Result<(), EdgeFault>
    requires { generation_of packer.old ≡ generation }

    ensures written { OnOk result (content (F.files shelf.new) (Book generation)
        ≡ option_map (λ had. take used had ++ bytes.now) (content (F.files shelf.old) (Book generation))) }
    ensures other_files { ChangesOnly (Book generation) (F.files shelf.old) (F.files shelf.new) }
    ensures flushed { OnOk result (AreFlushed generation (IsUnflushed packer.old) (F.loose shelf.new)) }
    ensures refused { OnErr result (CommitsNothing generation used (F.files shelf.old) (F.files shelf.new)) }

    ensures generation { generation_of packer.new ≡ generation_of packer.old }
    ensures behind { (lengths : List ℕ) → IsBehind packer.old lengths → IsBehind packer.new lengths }
    ensures none_left { (k : ℕ) → OnOk result (IsUnflushed packer.new k → ⊥) }

    ensures counts { CountsFaults (IsErrOf result EdgeFault.Failed) F.faults F.faultless shelf.old shelf.new }
{
    let book = File::Book(generation);
    shelf.cut(book, used)?;
    shelf.append(book, bytes)?;
    packer.flush(shelf)?;
    shelf.flush(book)
}
