//! The marks of the containers of a store.
ghost use Rattle.std.specs.Prelude.{◌≡◌, ◌≤◌, ◌<◌, ℕ, length, take, IfOk, IfSome, OnOk, OnErr};
ghost use Rattle.edge_traits.specs.Shelf.{content};
ghost use Rattle.ingest_core.specs.AuditMarks.{IsMarked, MayBeUnmarked};
ghost use Rattle.sd_base.specs.Firsts.{HoldsBelow};
ghost use Rattle.sd_base.specs.Flaws.{HasMark, IsMarkFlaw};
ghost use Rattle.sd_base.specs.Opening.{OpenAs, Opened, needed_sizes};
ghost use Rattle.sd_base.specs.Packing.{header_of};
ghost use Rattle.sd_base.specs.declared.damage.Damage.{Damage};
ghost use Rattle.sd_base.specs.declared.file.File.TheVariants.{Container};
ghost use Rattle.sd_base.specs.declared.limits.TheConstants.{CONTAINER_HEADER};
ghost use Rattle.store_core.specs.Containers.{OnlyFinds};
ghost use Rattle.store_core.specs.Shelves.{OnlyReads};

use edge_traits::{EdgeFault, File, Shelf};
use sd_base::{CONTAINER_HEADER, Damage};
use store_core::StoreFault;

/// Looks whether each of the containers of a generation begins with its header. The first that does
/// not is named. Only the first bytes of a container are read.
pub(crate) fn check_marks<F: Shelf>(
    shelf: &mut F,
    generation: u32,
    containers: u32,
) -> Result<(), StoreFault>
    ensures marked { (opened : Opened) → opened.head.generation ≡ generation
        → length (needed_sizes opened.book) ≡ containers → OnOk result (IfSome (F.files shelf.old) (λ files.
        OpenAs files opened → HoldsBelow (length (needed_sizes opened.book)) (HasMark files opened))) }
    ensures damaged { (opened : Opened) → opened.head.generation ≡ generation
        → length (needed_sizes opened.book) ≡ containers
        → (damage : Damage) → result ≡ Err (StoreFault.Damaged damage) → IfSome (F.files shelf.old) (λ files.
        OpenAs files opened → IsMarkFlaw files opened damage) }
    ensures refused { OnErr result (OnlyFinds result) }

    ensures reads { OnlyReads (result ≡ Err StoreFault.ShelfFault) F.files F.loose F.faults F.faultless
        shelf.old shelf.new }
{
    for number in 0..containers {
        check_mark(shelf, generation, number)?;
    }
    Ok(())
}

// Looks whether a container begins with its header.
fn check_mark<F: Shelf>(shelf: &mut F, generation: u32, number: u32) -> Result<(), StoreFault>
    ensures marked { OnOk result
        (IfSome (content (F.files shelf.old) (Container generation number)) (IsMarked number)) }
    ensures damaged { (damage : Damage) → result ≡ Err (StoreFault.Damaged damage)
        → IfSome (content (F.files shelf.old) (Container generation number)) (MayBeUnmarked number damage) }
    ensures refused { OnErr result (OnlyFinds result) }

    ensures reads { OnlyReads (result ≡ Err StoreFault.ShelfFault) F.files F.loose F.faults F.faultless
        shelf.old shelf.new }
{
    let found = first_bytes(shelf, generation, number)?;
    if found == header(number) {
        return Ok(());
    }
    Err(StoreFault::Damaged(Damage::Mark {
        number,
        found: u64::from_be_bytes(found),
    }))
}

// The first bytes of a container. If it has fewer, any bytes follow them.
fn first_bytes<F: Shelf>(
    shelf: &mut F,
    generation: u32,
    number: u32,
) -> Result<[u8; CONTAINER_HEADER as usize], EdgeFault>
    ensures bytes { IfOk result (λ found.
        IfSome (content (F.files shelf.old) (Container generation number)) (λ bytes.
        CONTAINER_HEADER ≤ length bytes → take CONTAINER_HEADER bytes ≡ found)) }
    ensures reads { OnlyReads (result ≡ Err EdgeFault.Failed) F.files F.loose F.faults F.faultless
        shelf.old shelf.new }
{
    let mut found = [0; CONTAINER_HEADER as usize];
    shelf.read_at(File::Container(generation, number), 0, &mut found)?;
    Ok(found)
}

// The header of a container: `SSCP` and its number, the most significant byte first.
fn header(number: u32) -> [u8; CONTAINER_HEADER as usize]
    ensures { result ≡ header_of number }
{
    let [a, b, c, d] = number.to_be_bytes();
    [b'S', b'S', b'C', b'P', a, b, c, d]
}
