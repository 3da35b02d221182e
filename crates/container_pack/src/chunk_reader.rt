//! Chunks read back from their spots.
ghost use Rattle.std.specs.Prelude.{◌≡◌, ◌≤◌, ℕ, List, vec_len, IfOk, IfSome, IsErrOf};
ghost use Rattle.sd_base.specs.declared.file.File.TheVariants.{Container};
ghost use Rattle.edge_traits.specs.Faults.{Rose};
ghost use Rattle.edge_traits.specs.Shelf.{content, SameFiles, SameLoose, IsReadAt};
ghost use Rattle.container_pack.specs.Containers.{IsStored};

use crate::Spot;
use edge_traits::{EdgeFault, File, Shelf};
use std::alloc::Global;

/// Reads the bytes at a spot: `length` of them, or fewer if the file ends before. Changes no file.
/// It takes memory for `length` bytes. `Failed` is returned only if the shelf's count of faults
/// rose.
pub fn read_chunk<F: Shelf>(
    alloc: Global,
    shelf: &mut F,
    generation: u32,
    spot: Spot,
    length: u32,
) -> Result<Vec<u8>, EdgeFault>
    ensures bytes { IfOk result (λ chunk. IsReadAt
        (content (F.files shelf.old) (Container generation spot.container)) spot.offset length chunk.items) }
    ensures stored { (stored : List ℕ) → IsStored (F.files shelf.old) generation spot length stored
        → IfOk result (λ chunk. IfSome
        (content (F.files shelf.old) (Container generation spot.container)) (λ _. chunk.items ≡ stored)) }
    ensures bound { IfOk result (λ chunk. vec_len chunk ≤ length) }

    ensures same_files { SameFiles (F.files shelf.old) (F.files shelf.new) }
    ensures same_loose { SameLoose (F.loose shelf.old) (F.loose shelf.new) }

    ensures failed { IsErrOf result EdgeFault.Failed → Rose (F.faults shelf.old) (F.faults shelf.new) }
    ensures never_falls { F.faults shelf.old ≤ F.faults shelf.new }

    ensures faultless_serves { F.faultless shelf.old → IsErrOf result EdgeFault.Failed → ⊥ }
    ensures faultless_counts_none { F.faultless shelf.old → F.faults shelf.new ≡ F.faults shelf.old }
    ensures stays_faultless { F.faultless shelf.old → F.faultless shelf.new }
{
    let mut chunk = vec![in alloc; 0; length as usize]?;
    let file = File::Container(generation, spot.container);
    let count = shelf.read_at(file, u64::from(spot.offset), &mut chunk)?;
    chunk.truncate(count);
    Ok(chunk)
}
