//! The names and the cuts of the chunks of a store, from their bytes.
ghost use Rattle.std.specs.Prelude.{◌≡◌, ◌≤◌, ◌<◌, ◌+◌, ℕ, List, ◌++◌, length, map, take, drop, vec_len, IfOk, IfSome, OnOk, OnErr, MatchOption};
ghost use Rattle.std.specs.List.{All, concat, slice_range};
ghost use Rattle.edge_traits.specs.Shelf.{content};
ghost use Rattle.ingest_core.specs.AuditCuts.{AreCutsOfAll};
ghost use Rattle.ingest_core.specs.AuditChunks.{AreKeptNames, AreStored, IsMisnamed, bytes_kept, ends_from, lengths_kept};
ghost use Rattle.ingest_core.specs.declared.auditing.chunks.TheConstants.{MAX_BATCH};
ghost use Rattle.sd_base.specs.Params.{numbers_of};
ghost use Rattle.sd_base.specs.declared.damage.Damage.{Damage};
ghost use Rattle.sd_base.specs.declared.file.File.TheVariants.{Container};
ghost use Rattle.sd_base.specs.declared.limits.TheConstants.{MAX_CHUNK_LEN, MAX_CHUNKS, MAX_INPUT};
ghost use Rattle.store_core.specs.Containers.{OnlyFinds};
ghost use Rattle.store_core.specs.Shelves.{OnlyReads};

use crate::auditing::batch_cuts::cuts_of_batch;
use crate::auditing::batch_names::first_misnamed;
use crate::auditing::chunk_cuts::ChunkCuts;
use crate::auditing::rules::ChunkRules;
use chunk_names::Namer;
use container_pack::{Spot, read_chunk};
use edge_traits::Shelf;
use sd_base::{Damage, MAX_CHUNK_LEN, MAX_INPUT, NewChunk, OutOfMemory};
use std::alloc::Global;
use std::thread::Threads;
use store_core::StoreFault;

// The most bytes of a batch: eight of the longest chunks.
const MAX_BATCH: u32 = 8 * MAX_CHUNK_LEN;

const _: () = prove!(MAX_BATCH <= MAX_INPUT);

/// Reads the chunks of a generation at their spots, names them side by side and looks at their cuts,
/// a batch of whole chunks at a time. The first chunk whose name is not the one that is kept is
/// damaged. The result is what is kept of the cuts of each chunk.
pub(crate) fn check_chunks<H: Threads + Sync, N: Namer, F: Shelf>(
    rt: &H,
    alloc: Global,
    rules: &ChunkRules<N>,
    shelf: &mut F,
    generation: u32,
    kept: &[NewChunk],
    spots: &[Spot],
) -> Result<Vec<ChunkCuts>, StoreFault>
    requires none_empty { All (λ n. 1 ≤ n) (lengths_kept kept.now) }
    requires bounded { All (λ n. n ≤ MAX_CHUNK_LEN) (lengths_kept kept.now) }
    requires within_limit { length kept.now ≤ MAX_CHUNKS }
    requires spots { length spots.now ≡ length kept.now }

    ensures one_each { IfOk result (λ cuts. length cuts.items ≡ length kept.now) }
    ensures named { (stored : List (List ℕ)) → OnOk result (IfSome (F.files shelf.old) (λ files.
        AreStored files generation spots.now kept.now stored → AreKeptNames kept.now (map N.name_of stored))) }
    ensures cut { (stored : List (List ℕ)) → IfOk result (λ cuts. IfSome (F.files shelf.old) (λ files.
        AreStored files generation spots.now kept.now stored
        → AreCutsOfAll (numbers_of rules.now.params) stored cuts.items)) }
    ensures damaged { (stored : List (List ℕ)) (damage : Damage) → result ≡ Err (StoreFault.Damaged damage)
        → IfSome (F.files shelf.old) (λ files. AreStored files generation spots.now kept.now stored
        → IsMisnamed kept.now (map N.name_of stored) 0 damage) }
    ensures refused { OnErr result (OnlyFinds result) }

    ensures reads { OnlyReads (result ≡ Err StoreFault.ShelfFault) F.files F.loose F.faults F.faultless
        shelf.old shelf.new }
{
    let mut cuts = Vec::with_capacity(alloc, kept.len())?;
    let mut first = 0;
    while first < kept.len() {
        let end = batch_end(kept, first);
        let (batch, at) = (&kept[first..end], &spots[first..end]);
        let found = check_batch(rt, alloc, rules, shelf, generation, batch, at, first as u32)?;
        cuts.extend_from_slice(&found)?;
        first = end;
    }
    Ok(cuts)
}

// Where the batch ends that begins with this chunk: it has as many chunks as it may.
fn batch_end(kept: &[NewChunk], first: usize) -> usize
    requires some { first < length kept.now }
    requires bounded { All (λ n. n ≤ MAX_CHUNK_LEN) (lengths_kept kept.now) }
    ensures some { first < result }
    ensures within { result ≤ length kept.now }
    ensures fits { bytes_kept (slice_range kept.now first result) ≤ MAX_BATCH }
{
    let mut bytes = 0;
    for number in first..kept.len() {
        bytes += kept[number].length;
        if bytes > MAX_BATCH {
            return number;
        }
    }
    kept.len()
}

// Reads the chunks of a batch, which lie at these spots, names them side by side and looks at their
// cuts. The first whose name is not the one that is kept is damaged. The chunks have their numbers
// from `number` on.
fn check_batch<H: Threads + Sync, N: Namer, F: Shelf>(
    rt: &H,
    alloc: Global,
    rules: &ChunkRules<N>,
    shelf: &mut F,
    generation: u32,
    kept: &[NewChunk],
    spots: &[Spot],
    number: u32,
) -> Result<Vec<ChunkCuts>, StoreFault>
    requires none_empty { All (λ n. 1 ≤ n) (lengths_kept kept.now) }
    requires fits { bytes_kept kept.now ≤ MAX_INPUT }
    requires spots { length spots.now ≡ length kept.now }
    requires numbers { number + length kept.now ≤ MAX_CHUNKS }

    ensures one_each { IfOk result (λ cuts. length cuts.items ≡ length kept.now) }
    ensures named { (stored : List (List ℕ)) → OnOk result (IfSome (F.files shelf.old) (λ files.
        AreStored files generation spots.now kept.now stored → AreKeptNames kept.now (map N.name_of stored))) }
    ensures cut { (stored : List (List ℕ)) → IfOk result (λ cuts. IfSome (F.files shelf.old) (λ files.
        AreStored files generation spots.now kept.now stored
        → AreCutsOfAll (numbers_of rules.now.params) stored cuts.items)) }
    ensures damaged { (stored : List (List ℕ)) (damage : Damage) → result ≡ Err (StoreFault.Damaged damage)
        → IfSome (F.files shelf.old) (λ files. AreStored files generation spots.now kept.now stored
        → IsMisnamed kept.now (map N.name_of stored) number damage) }
    ensures refused { OnErr result (OnlyFinds result) }

    ensures reads { OnlyReads (result ≡ Err StoreFault.ShelfFault) F.files F.loose F.faults F.faultless
        shelf.old shelf.new }
{
    let ends = ends_of(alloc, kept)?;
    let text = read_text(alloc, shelf, generation, kept, spots)?;
    if let Some(damage) = first_misnamed(rt, rules.namer, &text, &ends, kept, number) {
        return Err(StoreFault::Damaged(damage));
    }
    Ok(cuts_of_batch(rt, alloc, rules, &text, &ends)?)
}

/// The lengths of chunks. Fails only if memory runs out.
pub(crate) fn lengths_of(alloc: Global, kept: &[NewChunk]) -> Result<Vec<u32>, OutOfMemory>
    ensures lengths { IfOk result (λ lengths. lengths.items ≡ lengths_kept kept.now) }
{
    let mut lengths = Vec::with_capacity(alloc, kept.len())?;
    for chunk in kept {
        lengths.push(chunk.length)?;
    }
    Ok(lengths)
}

// Where chunks end that follow one another in one text.
fn ends_of(alloc: Global, kept: &[NewChunk]) -> Result<Vec<u32>, OutOfMemory>
    requires fits { bytes_kept kept.now ≤ MAX_INPUT }
    ensures ends { IfOk result (λ ends. ends.items ≡ ends_from 0 kept.now) }
{
    let mut ends = Vec::with_capacity(alloc, kept.len())?;
    let mut offset = 0u32;
    for chunk in kept {
        offset += chunk.length;
        ends.push(offset)?;
    }
    Ok(ends)
}

// The bytes of chunks at their spots, in one text. A container that ends before a chunk does is
// damaged.
fn read_text<F: Shelf>(
    alloc: Global,
    shelf: &mut F,
    generation: u32,
    kept: &[NewChunk],
    spots: &[Spot],
) -> Result<Vec<u8>, StoreFault>
    requires spots { length spots.now ≡ length kept.now }
    ensures text { (stored : List (List ℕ)) → IfOk result (λ text. IfSome (F.files shelf.old) (λ files.
        AreStored files generation spots.now kept.now stored → text.items ≡ concat stored)) }
    ensures size { IfOk result (λ text. length text.items ≡ bytes_kept kept.now) }
    ensures whole { (stored : List (List ℕ)) (damage : Damage) → result ≡ Err (StoreFault.Damaged damage)
        → IfSome (F.files shelf.old) (λ files.
        AreStored files generation spots.now kept.now stored → ⊥) }
    ensures refused { OnErr result (OnlyFinds result) }

    ensures reads { OnlyReads (result ≡ Err StoreFault.ShelfFault) F.files F.loose F.faults F.faultless
        shelf.old shelf.new }
{
    let mut text = Vec::new(alloc);
    for (place, chunk) in kept.iter().enumerate() {
        read_onto(
            alloc,
            shelf,
            generation,
            spots[place],
            chunk.length,
            &mut text,
        )?;
    }
    Ok(text)
}

// Reads `size` bytes at a spot to the end of a text. The container is damaged if it ends before.
fn read_onto<F: Shelf>(
    alloc: Global,
    shelf: &mut F,
    generation: u32,
    spot: Spot,
    size: u32,
    text: &mut Vec<u8>,
) -> Result<(), StoreFault>
    ensures bytes { OnOk result (IfSome (content (F.files shelf.old) (Container generation spot.container))
        (λ bytes. text.new.items ≡ text.old.items ++ take size (drop spot.offset bytes))) }
    ensures size { OnOk result (length text.new.items ≡ length text.old.items + size) }
    ensures short { (damage : Damage) → result ≡ Err (StoreFault.Damaged damage)
        → IfSome (content (F.files shelf.old) (Container generation spot.container)) (λ bytes.
        length (take size (drop spot.offset bytes)) < size) }
    ensures found { (damage : Damage) → result ≡ Err (StoreFault.Damaged damage)
        → IfSome (content (F.files shelf.old) (Container generation spot.container)) (λ bytes.
        damage ≡ Damage.Container spot.container (spot.offset + size)
        (spot.offset + length (take size (drop spot.offset bytes)))) }
    ensures refused { OnErr result (OnlyFinds result) }

    ensures reads { OnlyReads (result ≡ Err StoreFault.ShelfFault) F.files F.loose F.faults F.faultless
        shelf.old shelf.new }
{
    let chunk = read_chunk(alloc, shelf, generation, spot, size)?;
    let found = chunk.len() as u64;
    if found < u64::from(size) {
        return Err(StoreFault::Damaged(Damage::Container {
            number: spot.container,
            needed: u64::from(spot.offset) + u64::from(size),
            found: u64::from(spot.offset) + found,
        }));
    }
    text.extend_from_slice(&chunk)?;
    Ok(())
}
