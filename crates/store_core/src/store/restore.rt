//! A session is restored from a store.
ghost use Rattle.std.specs.Prelude.{◌≡◌, ◌⊎◌, ◌↔◌, ◌^◌, ◌<◌, ◌∷◌, [], ℕ, List, length, nat_le, IfOk, IfSome, OnOk, OnErr, Err, Some, None};
ghost use Rattle.std.specs.List.{position};
ghost use Rattle.edge_traits.specs.Sink.{Appends, AppendsPrefix};
ghost use Rattle.sd_base.specs.Books.{live_session};
ghost use Rattle.sd_base.specs.States.{State};
ghost use Rattle.sd_base.specs.declared.damage.Damage.{Damage};
ghost use Rattle.sd_base.specs.declared.damage.Damage.TheVariants.{Recipe};
ghost use Rattle.store_core.specs.Containers.{OnlyFinds};
ghost use Rattle.store_core.specs.Faults.{IsOfChunk};
ghost use Rattle.store_core.specs.Offers.{IsReadDamaged};
ghost use Rattle.store_core.specs.Restores.{FindsDamage, HoldsBack, HoldsBackPart, IsIntact, OnlyRestores, RestoresAll, RestoresPart, RestoresState, recipe_named, unknown_place};
ghost use Rattle.store_core.specs.Shelves.{CountsFaults, OnlyReads};
ghost use Rattle.store_core.specs.StoreStates.{StandsFor, chunk_as_read, chunks_of_store, kept_chunk};

use super::Store;
use crate::StoreFault;
use chunk_names::Namer;
use edge_traits::{EdgeFault, Shelf, Sink, write_all};
use sd_base::{Damage, MAX_CHUNK_LEN, Name};

/// Bytes that are written at once, so that a write costs little beside the reading of its chunks.
const PIECE_LEN: usize = 262_144;

impl<N: Namer> Store<N> {
    /// Writes the bytes of the live session of a name to a sink: the chunks of its recipe, in order, as
    /// they are read. Changes no file.
    ///
    /// `NoSession` is returned exactly if no live session has the name. `Damaged` is returned if the
    /// recipe names no chunk at some place, and then nothing was read or written. Otherwise it is
    /// returned only if the bytes of a chunk, as they are read, have another name than the one that is
    /// kept, and then exactly the chunks of the places before it were written. `ShelfFault` is returned
    /// only if the shelf's count of faults rose, `SinkFault` only if the sink's did. After them, and if
    /// memory runs out, a prefix of the bytes of the first chunks was written, all of which have their
    /// names.
    pub fn restore<F: Shelf, K: Sink>(
        &self,
        shelf: &mut F,
        sink: &mut K,
        name: &Name,
    ) -> Result<(), StoreFault>
        ensures no_session { (result ≡ Err StoreFault.NoSession) ↔ (live_session self.now.opened.book.sessions name.now ≡ None) }
        ensures refused { OnErr result (OnlyRestores result) }
        ensures kind { (damage : Damage) → result ≡ Err (StoreFault.Damaged damage)
            → unknown_place self.now (recipe_named self.now name.now) ≡ None → IsOfChunk damage }

        // Nothing is read or written if there is no such session, or if its recipe names no chunk at
        // some place.
        ensures untouched { result ≡ Err StoreFault.NoSession → (shelf.new ≡ shelf.old) × (sink.new ≡ sink.old) }
        ensures unknown { (session place : ℕ) → live_session self.now.opened.book.sessions name.now ≡ Some session
            → unknown_place self.now (recipe_named self.now name.now) ≡ Some place
            → (result ≡ Err (StoreFault.Damaged (Recipe session place))) × (shelf.new ≡ shelf.old) × (sink.new ≡ sink.old) }

        // If the recipe is empty, the sink is unchanged.
        ensures nothing { recipe_named self.now name.now ≡ [] → sink.new ≡ sink.old }

        // The chunks are written as they are read, and only if they have their names.
        ensures restored { OnOk result (IfSome (F.files shelf.old) (λ files. RestoresAll N.name_of files
            self.now (recipe_named self.now name.now) (K.written sink.old) (K.written sink.new))) }
        ensures damaged { (damage : Damage) → result ≡ Err (StoreFault.Damaged damage)
            → unknown_place self.now (recipe_named self.now name.now) ≡ None
            → IfSome (F.files shelf.old) (λ files. FindsDamage N.name_of files self.now (recipe_named self.now name.now)
            damage (K.written sink.old) (K.written sink.new)) }
        ensures prefix { OnErr result (IfSome (F.files shelf.old) (λ files. RestoresPart N.name_of files
            self.now (recipe_named self.now name.now) (K.written sink.old) (K.written sink.new))) }

        ensures reads { OnlyReads (result ≡ Err StoreFault.ShelfFault) F.files F.loose F.faults F.faultless
            shelf.old shelf.new }
        ensures counts { CountsFaults (result ≡ Err StoreFault.SinkFault) K.faults K.faultless sink.old sink.new }

        // If the store stands for a state, these are the bytes of the state's session.
        ensures stands { (state : State) (offered : List (List ℕ)) → IfSome (F.files shelf.old) (λ files.
            StandsFor N.name_of self.now files state offered
            → RestoresState state name.now result (K.written sink.old) (K.written sink.new)) }
    {
        let Some(session) = self.book.find(name) else {
            return Err(StoreFault::NoSession);
        };
        let Some(entry) = self.book.session(session) else {
            return Err(StoreFault::NoSession);
        };
        let recipe = entry.recipe.as_slice();
        if let Some(place) = self.unknown_place(recipe) {
            prove!(recipe.len() <= self.book.places() as usize);
            let place = place as u32;
            return Err(StoreFault::Damaged(Damage::Recipe { session, place }));
        }
        self.restore_places(shelf, sink, recipe)
    }

    // The first place of a recipe at which no chunk is named.
    fn unknown_place(&self, recipe: &[u32]) -> Option<usize>
        ensures { result ≡ unknown_place self.now recipe.now }
    {
        let count = self.count();
        recipe.iter().position(|number| count <= *number)
    }

    // Restores place after place of a recipe. The chunks are held back until they are a piece, so that
    // a write takes many chunks, and no more than a piece and a chunk is held in memory.
    fn restore_places<F: Shelf, K: Sink>(
        &self,
        shelf: &mut F,
        sink: &mut K,
        recipe: &[u32],
    ) -> Result<(), StoreFault>
        requires known { unknown_place self.now recipe.now ≡ None }

        ensures nothing { recipe.now ≡ [] → sink.new ≡ sink.old }
        ensures restored { OnOk result (IfSome (F.files shelf.old) (λ files.
            RestoresAll N.name_of files self.now recipe.now (K.written sink.old) (K.written sink.new))) }
        ensures damaged { (damage : Damage) → result ≡ Err (StoreFault.Damaged damage)
            → IfSome (F.files shelf.old) (λ files.
            FindsDamage N.name_of files self.now recipe.now damage (K.written sink.old) (K.written sink.new)) }
        ensures prefix { OnErr result (IfSome (F.files shelf.old) (λ files.
            RestoresPart N.name_of files self.now recipe.now (K.written sink.old) (K.written sink.new))) }
        ensures kind { (damage : Damage) → result ≡ Err (StoreFault.Damaged damage) → IsOfChunk damage }
        ensures refused { OnErr result (OnlyRestores result) }
        ensures session { result ≡ Err StoreFault.NoSession → ⊥ }

        ensures reads { OnlyReads (result ≡ Err StoreFault.ShelfFault) F.files F.loose F.faults F.faultless
            shelf.old shelf.new }
        ensures counts { CountsFaults (result ≡ Err StoreFault.SinkFault) K.faults K.faultless sink.old sink.new }
    {
        let mut held = Vec::with_capacity(self.alloc, PIECE_LEN + MAX_CHUNK_LEN as usize)?;
        for number in recipe {
            self.hold_back(shelf, sink, &mut held, *number)?;
        }
        write_piece(sink, &held)
    }

    // Reads one chunk and holds it back. What is held back is written once it is a piece, and if the
    // chunk cannot be read, so that the chunks before it are written.
    fn hold_back<F: Shelf, K: Sink>(
        &self,
        shelf: &mut F,
        sink: &mut K,
        held: &mut Vec<u8>,
        number: u32,
    ) -> Result<(), StoreFault>
        requires within { number < length (chunks_of_store self.now) }

        ensures held { OnOk result (IfSome (F.files shelf.old) (λ files. HoldsBack N.name_of files self.now
            (number ∷ []) held.old.items (K.written sink.old) (K.written sink.new) held.new.items)) }
        ensures damaged { (damage : Damage) → result ≡ Err (StoreFault.Damaged damage)
            → IfSome (F.files shelf.old) (λ files. IsReadDamaged N.name_of files self.now number damage
            × Appends (K.written sink.old) (K.written sink.new) held.old.items) }
        ensures prefix { OnErr result (IfSome (F.files shelf.old) (λ files. HoldsBackPart N.name_of files
            self.now (number ∷ []) held.old.items (K.written sink.old) (K.written sink.new))) }
        ensures kind { (damage : Damage) → result ≡ Err (StoreFault.Damaged damage) → IsOfChunk damage }
        ensures refused { OnErr result (OnlyRestores result) }
        ensures session { result ≡ Err StoreFault.NoSession → ⊥ }

        ensures reads { OnlyReads (result ≡ Err StoreFault.ShelfFault) F.files F.loose F.faults F.faultless
            shelf.old shelf.new }
        ensures counts { CountsFaults (result ≡ Err StoreFault.SinkFault) K.faults K.faultless sink.old sink.new }
    {
        let chunk = match self.intact_chunk(shelf, number) {
            Ok(chunk) => chunk,
            Err(fault) => {
                write_piece(sink, held)?;
                return Err(fault);
            }
        };
        held.extend_from_slice(&chunk)?;
        if held.len() >= PIECE_LEN {
            write_piece(sink, held)?;
            held.clear();
        }
        Ok(())
    }

    // The bytes of a chunk as they are read. They must have its name.
    fn intact_chunk<F: Shelf>(&self, shelf: &mut F, number: u32) -> Result<Vec<u8>, StoreFault>
        requires within { number < length (chunks_of_store self.now) }

        ensures bytes { IfOk result (λ chunk. IfSome (F.files shelf.old) (λ files.
            chunk.items ≡ chunk_as_read files self.now number)) }
        ensures intact { IfOk result (λ chunk. N.name_of chunk.items ≡ (kept_chunk self.now number).name) }
        ensures damaged { (damage : Damage) → result ≡ Err (StoreFault.Damaged damage)
            → IfSome (F.files shelf.old) (λ files. IsReadDamaged N.name_of files self.now number damage) }
        ensures kind { (damage : Damage) → result ≡ Err (StoreFault.Damaged damage) → IsOfChunk damage }
        ensures refused { OnErr result (OnlyFinds result) }

        ensures reads { OnlyReads (result ≡ Err StoreFault.ShelfFault) F.files F.loose F.faults F.faultless
            shelf.old shelf.new }
    {
        let chunk = self.read(shelf, number)?;
        let (kept, found) = (self.chunk(number).name, self.namer.name(&chunk));
        if found != kept {
            return Err(StoreFault::Damaged(Damage::Chunk {
                number,
                kept,
                found,
            }));
        }
        Ok(chunk)
    }
}

// Writes a whole piece; an empty one needs no write. A fault is that of the sink.
fn write_piece<K: Sink>(sink: &mut K, bytes: &[u8]) -> Result<(), StoreFault>
    ensures written { OnOk result (Appends (K.written sink.old) (K.written sink.new) bytes.now) }
    ensures prefix { OnErr result (AppendsPrefix (K.written sink.old) (K.written sink.new) bytes.now) }
    ensures no_call { length bytes.now ≡ 0 → sink.new ≡ sink.old }
    ensures refused { OnErr result ((result ≡ Err StoreFault.SinkFault) ⊎ (result ≡ Err StoreFault.OutOfMemory)) }
    ensures counts { CountsFaults (result ≡ Err StoreFault.SinkFault) K.faults K.faultless sink.old sink.new }
{
    match write_all(sink, bytes) {
        Ok(()) => Ok(()),
        Err(EdgeFault::Failed) => Err(StoreFault::SinkFault),
        Err(EdgeFault::OutOfMemory) => Err(StoreFault::OutOfMemory),
    }
}
