//! A session is committed to a store.
ghost use Rattle.std.specs.Prelude.{◌≡◌, ◌⊎◌, ◌≤◌, [], ℕ, List, length as number_of, Err, None, Some, false, IsTrue, IfOk, IfSome, IfNone, OnOk, OnErr};
ghost use Rattle.std.specs.List.{All};
ghost use Rattle.sd_base.specs.Books.{bytes_named, chunks_in};
ghost use Rattle.sd_base.specs.Records.{IsIngest};
ghost use Rattle.sd_base.specs.States.{IsCutting, State};
ghost use Rattle.sd_base.specs.Stores.{AreClean, HoldState};
ghost use Rattle.sd_base.specs.declared.file.File.TheVariants.{Seal};
ghost use Rattle.sd_base.specs.declared.limits.TheConstants.{MAX_CHUNKS};
ghost use Rattle.store_core.specs.CleanFiles.{AreCleanWith};
ghost use Rattle.store_core.specs.Commits.{AreFlushed, CommitsIngest, CommitsNothing, HasOffered, OnlyFails, committed_state, committed_store, early_refusal, recipe_chunks, session_record};
ghost use Rattle.store_core.specs.Faults.{stays_sound};
ghost use Rattle.store_core.specs.Recipes.{IsInOrder};
ghost use Rattle.store_core.specs.Shelves.{CountsFaults};
ghost use Rattle.store_core.specs.StoreStates.{StandsFor, chunks_of_store};

use super::Store;
use crate::StoreFault;
use crate::commit_files::commit_bytes;
use chunk_names::Namer;
use edge_traits::Shelf;
use sd_base::{
    IngestRecord, MAX_PLACES, MAX_SESSIONS, Name, NewChunks, OutOfMemory, Recipe, Record,
};
use session_book::encode_record;

impl<N: Namer> Store<N> {
    /// Commits a session under a name: `length` bytes, in the chunks that the recipe names by their
    /// numbers. The chunks that were offered since the last commit become its new chunks. Returns the
    /// number of the session.
    ///
    /// `NameTaken`, `TooManySessions` and `TooManyPlaces` are tried in this order, before anything is
    /// written, and leave the store with its offered chunks as it was. `ShelfFault` is returned only
    /// if the shelf's count of faults rose. After it, and if memory runs out, the store is not sound:
    /// nothing may be offered to it, and it must not be written to again. The record is then committed
    /// whole or not at all.
    pub fn commit<F: Shelf>(
        &mut self,
        shelf: &mut F,
        name: &Name,
        length: u32,
        recipe: &[u32],
    ) -> Result<u32, StoreFault>
        requires sound { IsTrue self.old.sound }
        requires in_order { IsInOrder (number_of (chunks_in self.old.opened.book.sessions)) recipe.now
            (number_of (chunks_of_store self.old)) }
        requires short { All (λ chunk. chunk.length ≤ self.old.opened.head.params.max) self.old.offered }
        requires sums { bytes_named (chunks_of_store self.old) recipe.now ≡ length }

        ensures early { IfSome (early_refusal self.old.opened.book name.now (number_of recipe.now)) (λ fault.
            (result ≡ Err fault) × (self.new ≡ self.old) × (shelf.new ≡ shelf.old)) }
        ensures late { IfNone (early_refusal self.old.opened.book name.now (number_of recipe.now)) (OnErr result (OnlyFails result)) }
        ensures number { IfOk result (λ session. session ≡ number_of self.old.opened.book.sessions) }
        ensures committed { OnOk result (self.new ≡ committed_store self.old (session_record self.old name.now length recipe.now)) }
        ensures head { self.new.opened.head ≡ self.old.opened.head }
        ensures sound { self.new.sound ≡ stays_sound result }

        // What is written: the record and one byte of the seal, or nothing that counts.
        ensures written { OnOk result (CommitsIngest self.old (session_record self.old name.now length recipe.now)
            (F.files shelf.old) (F.files shelf.new)) }
        ensures not_written { OnErr result
            (CommitsNothing self.old.opened.head.generation self.old.opened.book.used
            (F.files shelf.old) (F.files shelf.new)
            ⊎ CommitsIngest self.old (session_record self.old name.now length recipe.now)
            (F.files shelf.old) (F.files shelf.new)) }

        // The record and the offered chunks are flushed, and so is the byte that commits them.
        ensures flushed { OnOk result
            (AreFlushed self.old.opened.head.generation (HasOffered self.old) (F.loose shelf.new)) }
        ensures sealed { OnOk result (F.loose shelf.new (Seal self.old.opened.head.generation) ≡ false) }

        // If the store stands for a state and the recipe names a cutting, it then stands for the state
        // with the session, and nothing is offered. After a fault the files hold one of the two.
        ensures stands { (state : State) (offered : List (List ℕ)) → IfSome (F.files shelf.old) (λ before.
            StandsFor N.name_of self.old before state offered
            → IsCutting state.params (recipe_chunks state offered recipe.now)
            → IfSome (F.files shelf.new) (λ after.
            OnOk result (StandsFor N.name_of self.new after (committed_state state offered name.now recipe.now) [])
            × OnErr result (HoldState N.name_of after state
            ⊎ HoldState N.name_of after (committed_state state offered name.now recipe.now)))) }

        // If the files had nothing but the state and the offered chunks, they are clean after Ok.
        ensures clean { (state : State) (offered : List (List ℕ)) → IfSome (F.files shelf.old) (λ before.
            StandsFor N.name_of self.old before state offered → AreCleanWith N.name_of before state offered
            → OnOk result (IfSome (F.files shelf.new) (λ after.
            AreClean N.name_of after (Some (committed_state state offered name.now recipe.now))))) }

        ensures counts { CountsFaults (result ≡ Err StoreFault.ShelfFault) F.faults F.faultless shelf.old shelf.new }
    {
        if let Some(fault) = self.refusal_of(name, recipe) {
            return Err(fault);
        }
        let outcome = self.commit_session(shelf, name, length, recipe);
        self.is_sound = outcome.is_ok();
        outcome
    }

    // Why a session may not be added, if it may not.
    fn refusal_of(&self, name: &Name, recipe: &[u32]) -> Option<StoreFault>
        ensures { result ≡ early_refusal self.now.opened.book name.now (number_of recipe.now) }
    {
        if self.book.find(name).is_some() {
            Some(StoreFault::NameTaken)
        } else if self.book.sessions() >= MAX_SESSIONS {
            Some(StoreFault::TooManySessions)
        } else if self.book.places() as usize + recipe.len() > MAX_PLACES as usize {
            Some(StoreFault::TooManyPlaces)
        } else {
            None
        }
    }

    // All that takes memory comes before the first file changes.
    fn commit_session<F: Shelf>(
        &mut self,
        shelf: &mut F,
        name: &Name,
        length: u32,
        recipe: &[u32],
    ) -> Result<u32, StoreFault>
        requires sound { IsTrue self.old.sound }
        requires room { early_refusal self.old.opened.book name.now (number_of recipe.now) ≡ None }
        requires in_order { IsInOrder (number_of (chunks_in self.old.opened.book.sessions)) recipe.now
            (number_of (chunks_of_store self.old)) }
        requires short { All (λ chunk. chunk.length ≤ self.old.opened.head.params.max) self.old.offered }

        ensures number { IfOk result (λ session. session ≡ number_of self.old.opened.book.sessions) }
        ensures committed { OnOk result
            (self.new ≡ committed_store self.old (session_record self.old name.now length recipe.now)) }
        ensures written { OnOk result (CommitsIngest self.old (session_record self.old name.now length recipe.now)
            (F.files shelf.old) (F.files shelf.new)) }
        ensures flushed { OnOk result
            (AreFlushed self.old.opened.head.generation (HasOffered self.old) (F.loose shelf.new)) }
        ensures sealed { OnOk result (F.loose shelf.new (Seal self.old.opened.head.generation) ≡ false) }
        ensures lawful { OnOk result (IsIngest (session_record self.old name.now length recipe.now)) }

        ensures refused { OnErr result (OnlyFails result) }
        ensures not_written { OnErr result
            (CommitsNothing self.old.opened.head.generation self.old.opened.book.used
            (F.files shelf.old) (F.files shelf.new)
            ⊎ CommitsIngest self.old (session_record self.old name.now length recipe.now)
            (F.files shelf.old) (F.files shelf.new)) }
        ensures head { self.new.opened.head ≡ self.old.opened.head }
        ensures limit { number_of (chunks_of_store self.old) ≤ MAX_CHUNKS }

        ensures counts { CountsFaults (result ≡ Err StoreFault.ShelfFault) F.faults F.faultless shelf.old shelf.new }
    {
        let (session, used) = (self.book.sessions(), self.book.used());
        let entry = Record::Ingest(self.session_record(name, length, recipe)?);
        let bytes = encode_record(self.alloc, &entry)?;
        let chunks = self.count();
        self.counts.reserve(chunks)?;
        self.book.add(entry)?;
        self.counts.add(recipe);
        self.offered.clear();
        commit_bytes(shelf, &mut self.packer, self.generation, used, &bytes)?;
        Ok(session)
    }

    // The record of a session whose new chunks are those offered.
    fn session_record(
        &self,
        name: &Name,
        length: u32,
        recipe: &[u32],
    ) -> Result<IngestRecord, OutOfMemory>
        ensures { IfOk result (λ entry. entry ≡ session_record self.now name.now length recipe.now) }
    {
        let mut fresh = Vec::new(self.alloc);
        fresh.extend_from_slice(&self.offered)?;
        let mut places = Vec::new(self.alloc);
        places.extend_from_slice(recipe)?;
        Ok(IngestRecord {
            name: *name,
            length,
            fresh: NewChunks::from(fresh),
            recipe: Recipe::from(places),
        })
    }
}
