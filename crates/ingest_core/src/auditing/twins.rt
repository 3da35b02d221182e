//! Stored chunks with equal bytes.
ghost use Rattle.std.specs.Prelude.{◌≡◌, ◌≢◌, ◌≤◌, ◌<◌, ◌+◌, ◌↔◌, ℕ, IsTrue, List, length, map, nat_eq, slice_index_or, [], IfOk, IfSome, OnOk, OnErr};
ghost use Rattle.std.specs.HashSet.{contains};
ghost use Rattle.ingest_core.specs.AuditChunks.{AreKeptNames, AreStored, kept_at};
ghost use Rattle.ingest_core.specs.AuditTwins.{HasOwnName, HasSeen, IsEarlierTwin, IsFirstTwin, short_name};
ghost use Rattle.sd_base.specs.Firsts.{HoldsBelow};
ghost use Rattle.sd_base.specs.Flaws.{AreNew};
ghost use Rattle.sd_base.specs.declared.damage.Damage.{Damage};
ghost use Rattle.sd_base.specs.declared.limits.TheConstants.{MAX_CHUNKS};
ghost use Rattle.store_core.specs.Containers.{OnlyFinds};
ghost use Rattle.store_core.specs.Shelves.{OnlyReads};

use container_pack::{Spot, read_chunk};
use edge_traits::{EdgeFault, Shelf};
use sd_base::{Damage, NewChunk};
use std::alloc::Global;
use std::collections::HashSet;
use store_core::StoreFault;

/// Looks for the first chunk that has the bytes of an earlier one. It presumes that the kept names
/// are those of the bytes. Two such chunks have the same name, so only the bytes of chunks with the
/// same name are compared. If no two names are equal, nothing is read.
pub(crate) fn check_twins<F: Shelf>(
    alloc: Global,
    shelf: &mut F,
    generation: u32,
    kept: &[NewChunk],
    spots: &[Spot],
) -> Result<(), StoreFault>
    requires within_limit { length kept.now ≤ MAX_CHUNKS }
    requires spots { length spots.now ≡ length kept.now }

    ensures different { (name_of : List ℕ → List ℕ) (stored : List (List ℕ)) → OnOk result
        (IfSome (F.files shelf.old) (λ files. AreStored files generation spots.now kept.now stored
        → AreKeptNames kept.now (map name_of stored) → AreNew stored)) }
    ensures damaged { (name_of : List ℕ → List ℕ) (stored : List (List ℕ)) (damage : Damage)
        → result ≡ Err (StoreFault.Damaged damage) → IfSome (F.files shelf.old) (λ files.
        AreStored files generation spots.now kept.now stored
        → AreKeptNames kept.now (map name_of stored) → IsFirstTwin stored damage) }
    ensures refused { OnErr result (OnlyFinds result) }

    ensures unread { HoldsBelow (length kept.now) (HasOwnName kept.now) → shelf.new ≡ shelf.old }
    ensures reads { OnlyReads (result ≡ Err StoreFault.ShelfFault) F.files F.loose F.faults F.faultless
        shelf.old shelf.new }
{
    let mut seen = HashSet::with_capacity(alloc, kept.len())?;
    for number in 0..kept.len() as u32 {
        let found = earlier_twin(alloc, shelf, generation, kept, spots, &mut seen, number)?;
        if let Some(first) = found {
            return Err(StoreFault::Damaged(Damage::Twin {
                first,
                second: number,
            }));
        }
    }
    Ok(())
}

// The least number of an earlier chunk that has the bytes of this one. If the short name of this
// chunk is new, there is none, and otherwise the names of all earlier ones are looked through.
fn earlier_twin<F: Shelf>(
    alloc: Global,
    shelf: &mut F,
    generation: u32,
    kept: &[NewChunk],
    spots: &[Spot],
    seen: &mut HashSet<u64>,
    number: u32,
) -> Result<Option<u32>, EdgeFault>
    requires within { number < length kept.now }
    requires spots { length spots.now ≡ length kept.now }
    requires seen { HasSeen (contains nat_eq seen.old) kept.now number }

    ensures twin { (name_of : List ℕ → List ℕ) (stored : List (List ℕ)) → IfOk result (λ found.
        IfSome (F.files shelf.old) (λ files. AreStored files generation spots.now kept.now stored
        → AreKeptNames kept.now (map name_of stored) → IsEarlierTwin stored number found)) }
    ensures seen { OnOk result (HasSeen (contains nat_eq seen.new) kept.now (number + 1)) }

    ensures unread { HasOwnName kept.now number → shelf.new ≡ shelf.old }
    ensures reads { OnlyReads (result ≡ Err EdgeFault.Failed) F.files F.loose F.faults F.faultless
        shelf.old shelf.new }
{
    if seen.insert(short_name(&kept[number as usize].name))? {
        return Ok(None);
    }
    first_twin(alloc, shelf, generation, kept, spots, number)
}

// The first eight bytes of a name. They tell nearly all names apart, in a quarter of the memory.
fn short_name(name: &[u8; 32]) -> u64
    ensures { result ≡ short_name name.now }
{
    let [a, b, c, d, e, f, g, h, ..] = *name;
    u64::from_be_bytes([a, b, c, d, e, f, g, h])
}

// The least number of an earlier chunk that has the name and the bytes of this one.
fn first_twin<F: Shelf>(
    alloc: Global,
    shelf: &mut F,
    generation: u32,
    kept: &[NewChunk],
    spots: &[Spot],
    number: u32,
) -> Result<Option<u32>, EdgeFault>
    requires within { number < length kept.now }
    requires spots { length spots.now ≡ length kept.now }

    ensures twin { (name_of : List ℕ → List ℕ) (stored : List (List ℕ)) → IfOk result (λ found.
        IfSome (F.files shelf.old) (λ files. AreStored files generation spots.now kept.now stored
        → AreKeptNames kept.now (map name_of stored) → IsEarlierTwin stored number found)) }

    ensures unread { HasOwnName kept.now number → shelf.new ≡ shelf.old }
    ensures reads { OnlyReads (result ≡ Err EdgeFault.Failed) F.files F.loose F.faults F.faultless
        shelf.old shelf.new }
{
    for earlier in 0..number {
        if are_twins(alloc, shelf, generation, kept, spots, earlier, number)? {
            return Ok(Some(earlier));
        }
    }
    Ok(None)
}

// Whether two chunks have the same name and the same bytes.
fn are_twins<F: Shelf>(
    alloc: Global,
    shelf: &mut F,
    generation: u32,
    kept: &[NewChunk],
    spots: &[Spot],
    first: u32,
    second: u32,
) -> Result<bool, EdgeFault>
    requires first { first < length kept.now }
    requires second { second < length kept.now }
    requires spots { length spots.now ≡ length kept.now }

    ensures twins { (name_of : List ℕ → List ℕ) (stored : List (List ℕ)) → IfOk result (λ same.
        IfSome (F.files shelf.old) (λ files. AreStored files generation spots.now kept.now stored
        → AreKeptNames kept.now (map name_of stored)
        → IsTrue same ↔ (slice_index_or stored first [] ≡ slice_index_or stored second []))) }

    ensures unread { (kept_at kept.now first).name ≢ (kept_at kept.now second).name
        → shelf.new ≡ shelf.old }
    ensures reads { OnlyReads (result ≡ Err EdgeFault.Failed) F.files F.loose F.faults F.faultless
        shelf.old shelf.new }
{
    if kept[first as usize].name != kept[second as usize].name {
        return Ok(false);
    }
    let bytes = read_stored(alloc, shelf, generation, kept, spots, first)?;
    let others = read_stored(alloc, shelf, generation, kept, spots, second)?;
    Ok(bytes == others)
}

// The bytes of a chunk.
fn read_stored<F: Shelf>(
    alloc: Global,
    shelf: &mut F,
    generation: u32,
    kept: &[NewChunk],
    spots: &[Spot],
    number: u32,
) -> Result<Vec<u8>, EdgeFault>
    requires within { number < length kept.now }
    requires spots { length spots.now ≡ length kept.now }

    ensures bytes { (stored : List (List ℕ)) → IfOk result (λ bytes.
        IfSome (F.files shelf.old) (λ files. AreStored files generation spots.now kept.now stored
        → bytes.items ≡ slice_index_or stored number [])) }

    ensures reads { OnlyReads (result ≡ Err EdgeFault.Failed) F.files F.loose F.faults F.faultless
        shelf.old shelf.new }
{
    let (chunk, spot) = (&kept[number as usize], spots[number as usize]);
    read_chunk(alloc, shelf, generation, spot, chunk.length)
}
