//! The containers of a store against the chunks of its book.
ghost use Rattle.std.specs.Prelude.{◌≡◌, ◌≤◌, ◌<◌, ℕ, length, slice_index_or, IfSome, OnOk, OnErr};
ghost use Rattle.sd_base.specs.Packing.{container_sizes};
ghost use Rattle.sd_base.specs.declared.damage.Damage.{Damage};
ghost use Rattle.sd_base.specs.declared.file.File.TheVariants.{Container};
ghost use Rattle.sd_base.specs.declared.limits.TheConstants.{MAX_CHUNKS};
ghost use Rattle.store_core.specs.Containers.{IsFirstShort, OnlyFinds};
ghost use Rattle.store_core.specs.Faults.{IsOfOpening};
ghost use Rattle.store_core.specs.Shelves.{OnlyReads};

use crate::StoreFault;
use container_pack::container_sizes;
use edge_traits::{File, Shelf};
use sd_base::Damage;
use std::alloc::Global;

/// Looks whether each container of a generation has at least the bytes that chunks of these lengths
/// need of it. The first that has fewer is named. No byte of a container is read.
pub(crate) fn check_containers<F: Shelf>(
    alloc: Global,
    shelf: &mut F,
    generation: u32,
    lengths: &[u32],
) -> Result<(), StoreFault>
    requires within_limit { length lengths.now ≤ MAX_CHUNKS }

    ensures long_enough { OnOk result (IfSome (F.files shelf.old) (λ files.
        (k : ℕ) → k < length (container_sizes lengths.now)
        → slice_index_or (container_sizes lengths.now) k 0 ≤ length (files (Container generation k)))) }
    ensures damaged { (damage : Damage) → result ≡ Err (StoreFault.Damaged damage)
        → IfSome (F.files shelf.old) (λ files.
        IsFirstShort files generation (container_sizes lengths.now) damage) }
    ensures kind { (damage : Damage) → result ≡ Err (StoreFault.Damaged damage) → IsOfOpening damage }
    ensures refused { OnErr result (OnlyFinds result) }

    ensures reads { OnlyReads (result ≡ Err StoreFault.ShelfFault) F.files F.loose F.faults F.faultless
        shelf.old shelf.new }
{
    let sizes = container_sizes(alloc, lengths)?;
    for (number, needed) in sizes.iter().enumerate() {
        let number = number as u32;
        let found = shelf.len(File::Container(generation, number))?;
        if found < *needed {
            let needed = *needed;
            return Err(StoreFault::Damaged(Damage::Container {
                number,
                needed,
                found,
            }));
        }
    }
    Ok(())
}
