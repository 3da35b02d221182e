//! The chunks and the sessions of a store that opens.
ghost use Rattle.std.specs.Prelude.{◌≡◌, ◌≤◌, ◌⊎◌, ℕ, List, [], length, Err, IfSome, None, OnErr, OnOk};
ghost use Rattle.std.specs.List.{All};
ghost use Rattle.ingest_core.specs.AuditCuts.{AreCutsOfAll, IsFirstNotCut};
ghost use Rattle.ingest_core.specs.AuditOrder.{IsFirstOutOfOrder};
ghost use Rattle.sd_base.specs.Books.{chunks_in, recipe_damage};
ghost use Rattle.sd_base.specs.CuttingLaws.{AreFilled};
ghost use Rattle.sd_base.specs.Flaws.{AreCut, AreFlawless, AreInOrder, HaveChunks, IsFlawAmong};
ghost use Rattle.sd_base.specs.Opening.{chunk_lengths};
ghost use Rattle.sd_base.specs.Parameters.{IsValid};
ghost use Rattle.sd_base.specs.declared.damage.Damage.{Damage};
ghost use Rattle.sd_base.specs.declared.limits.TheConstants.{MAX_CHUNK_LEN, MAX_CHUNKS};
ghost use Rattle.sd_base.specs.declared.raw_params.RawParams.{RawParams};
ghost use Rattle.store_core.specs.Containers.{OnlyFinds};
ghost use Rattle.store_core.specs.Shelves.{OnlyReads};

use crate::auditing::chunk_cuts::ChunkCuts;
use crate::auditing::chunks::check_chunks;
use crate::auditing::cuts::cut_flaw;
use crate::auditing::order::order_flaw;
use crate::auditing::rules::ChunkRules;
use crate::auditing::twins::check_twins;
use chunk_names::Namer;
use container_pack::places;
use edge_traits::Shelf;
use session_book::Book;
use std::alloc::Global;
use std::thread::Threads;
use store_core::{Store, StoreFault};

/// Looks whether the chunks of a store have their names, whether two are equal, and whether sessions
/// have their chunks in order and are cut by the parameters, in this order. The first flaw is
/// returned. The clauses on flaws presume that the containers have chunks of these lengths.
pub(crate) fn check_contents<H: Threads + Sync, N: Namer, F: Shelf>(
    rt: &H,
    alloc: Global,
    namer: &N,
    shelf: &mut F,
    store: &Store<&N>,
    lengths: &[u32],
) -> Result<(), StoreFault>
    requires lengths { lengths.now ≡ chunk_lengths store.now.opened.book }
    requires none_empty { All (λ n. 1 ≤ n) lengths.now }
    requires bounded { All (λ n. n ≤ MAX_CHUNK_LEN) lengths.now }
    requires within_limit { length lengths.now ≤ MAX_CHUNKS }
    requires recipes { recipe_damage [] 0 store.now.opened.book.sessions ≡ None }

    ensures flawless { (chunks : List (List ℕ)) → OnOk result (IfSome (F.files shelf.old) (λ files.
        HaveChunks files store.now.opened chunks → AreFlawless N.name_of store.now.opened chunks)) }
    ensures damaged { (chunks : List (List ℕ)) (damage : Damage) → result ≡ Err (StoreFault.Damaged damage)
        → IfSome (F.files shelf.old) (λ files.
        HaveChunks files store.now.opened chunks → IsFlawAmong N.name_of store.now.opened chunks damage) }
    ensures refused { OnErr result (OnlyFinds result) }

    ensures reads { OnlyReads (result ≡ Err StoreFault.ShelfFault) F.files F.loose F.faults F.faultless
        shelf.old shelf.new }
{
    let spots = places(alloc, lengths)?;
    let rules = ChunkRules::new(namer, store.params());
    let generation = store.generation();
    let kept = store.book().chunks();
    let cuts = check_chunks(rt, alloc, &rules, shelf, generation, kept, &spots)?;
    check_twins(alloc, shelf, generation, kept, &spots)?;
    check_sessions(store.book(), &cuts)
}

// Looks whether the sessions of a book have their chunks in order, and then whether they are cut by
// the parameters.
fn check_sessions(book: &Book, cuts: &[ChunkCuts]) -> Result<(), StoreFault>
    requires recipes { recipe_damage [] 0 book.now.sessions ≡ None }
    requires one_each { length cuts.now ≡ length (chunks_in book.now.sessions) }

    ensures ordered { OnOk result (AreInOrder book.now) }
    ensures cut { (params : RawParams) (chunks : List (List ℕ)) → OnOk result (IsValid params → AreFilled chunks
        → AreCutsOfAll params chunks cuts.now → AreCut params book.now chunks) }
    ensures damaged { (params : RawParams) (chunks : List (List ℕ)) (damage : Damage)
        → result ≡ Err (StoreFault.Damaged damage) → IsValid params → AreFilled chunks
        → AreCutsOfAll params chunks cuts.now
        → IsFirstOutOfOrder book.now damage ⊎ (AreInOrder book.now × IsFirstNotCut params book.now chunks damage) }
    ensures refused { OnErr result ((damage : Damage) × (result ≡ Err (StoreFault.Damaged damage))) }
{
    if let Some(damage) = order_flaw(book) {
        return Err(StoreFault::Damaged(damage));
    }
    match cut_flaw(book, cuts) {
        Some(damage) => Err(StoreFault::Damaged(damage)),
        None => Ok(()),
    }
}
