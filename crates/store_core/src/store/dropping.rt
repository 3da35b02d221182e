//! A session of a store is dropped.
ghost use Rattle.std.specs.Prelude.{◌≡◌, ◌⊎◌, [], ℕ, List, length, Err, None, Some, false, IsTrue, IfOk, IfSome, OnOk, OnErr};
ghost use Rattle.sd_base.specs.Books.{is_live, live_session};
ghost use Rattle.sd_base.specs.States.{State, live_session_named, places_of_number, sessions_in};
ghost use Rattle.sd_base.specs.Stores.{AreClean, HoldState};
ghost use Rattle.sd_base.specs.declared.file.File.TheVariants.{Book, Seal};
ghost use Rattle.store_core.specs.Commits.{CommitsNothing, OnlyFails};
ghost use Rattle.store_core.specs.Counting.{recipe_at};
ghost use Rattle.store_core.specs.Drops.{CommitsDrop, dropped_state, dropped_store};
ghost use Rattle.store_core.specs.Faults.{stays_sound};
ghost use Rattle.store_core.specs.Restores.{recipe_named};
ghost use Rattle.store_core.specs.Shelves.{CountsFaults};
ghost use Rattle.store_core.specs.StoreStates.{StandsFor};

use super::Store;
use super::counting::uncount;
use crate::StoreFault;
use crate::commit_files::commit_bytes;
use chunk_names::Namer;
use edge_traits::Shelf;
use sd_base::{Name, Record};
use session_book::encode_record;

impl<N: Namer> Store<N> {
    /// Drops the live session of a name, and returns how many places it had. Its chunks stay stored.
    /// A record of 41 bytes and one byte of the seal are written, whatever the size of the store.
    ///
    /// `NoSession` is returned exactly if no live session has the name, and then nothing has changed.
    /// `ShelfFault` is returned only if the shelf's count of faults rose. After it, and if memory runs
    /// out, the store is not sound: nothing may be offered to it, and it must not be written to again.
    /// The record is then committed whole or not at all.
    pub fn drop_session<F: Shelf>(&mut self, shelf: &mut F, name: &Name) -> Result<u32, StoreFault>
        requires sound { IsTrue self.old.sound }
        requires none_offered { self.old.offered ≡ [] }

        ensures no_session { live_session self.old.opened.book.sessions name.now ≡ None
            → (result ≡ Err StoreFault.NoSession) × (self.new ≡ self.old) × (shelf.new ≡ shelf.old) }
        ensures late { (session : ℕ) → live_session self.old.opened.book.sessions name.now ≡ Some session
            → OnErr result (OnlyFails result) }
        ensures places { IfOk result (λ places. places ≡ length (recipe_named self.old name.now)) }
        ensures dropped { (session : ℕ) → live_session self.old.opened.book.sessions name.now ≡ Some session
            → OnOk result (self.new ≡ dropped_store self.old session) }
        ensures head { self.new.opened.head ≡ self.old.opened.head }
        ensures sound { self.new.sound ≡ stays_sound result }

        // What is written: the record and one byte of the seal, or nothing that counts.
        ensures written { (session : ℕ) → live_session self.old.opened.book.sessions name.now ≡ Some session
            → OnOk result (CommitsDrop self.old session (F.files shelf.old) (F.files shelf.new)) }
        ensures not_written { (session : ℕ) → live_session self.old.opened.book.sessions name.now ≡ Some session
            → OnErr result (CommitsNothing self.old.opened.head.generation self.old.opened.book.used
            (F.files shelf.old) (F.files shelf.new)
            ⊎ CommitsDrop self.old session (F.files shelf.old) (F.files shelf.new)) }

        // The record is flushed, and so is the byte that commits it.
        ensures flushed { OnOk result (F.loose shelf.new (Book self.old.opened.head.generation) ≡ false) }
        ensures sealed { OnOk result (F.loose shelf.new (Seal self.old.opened.head.generation) ≡ false) }

        // If the store stands for a state in which a live session has the name, it then stands for the
        // state with the drop. After a fault the files hold one of the two.
        ensures stands { (state : State) (session : ℕ) → IfSome (F.files shelf.old) (λ before.
            StandsFor N.name_of self.old before state []
            → live_session_named (sessions_in state) name.now ≡ Some session
            → IfSome (F.files shelf.new) (λ after.
            OnOk result (StandsFor N.name_of self.new after (dropped_state state session) [])
            × OnErr result (HoldState N.name_of after state
            ⊎ HoldState N.name_of after (dropped_state state session)))) }
        ensures places_dropped { (state : State) (session : ℕ) → IfSome (F.files shelf.old) (λ before.
            StandsFor N.name_of self.old before state []
            → live_session_named (sessions_in state) name.now ≡ Some session
            → IfOk result (λ places. places ≡ places_of_number state session)) }

        // If no live session of the state has the name, there is no such session.
        ensures unknown { (state : State) → IfSome (F.files shelf.old) (λ before.
            StandsFor N.name_of self.old before state []
            → live_session_named (sessions_in state) name.now ≡ None
            → result ≡ Err StoreFault.NoSession) }

        // If the files had nothing but the state, they are clean after Ok.
        ensures clean { (state : State) (session : ℕ) → IfSome (F.files shelf.old) (λ before.
            StandsFor N.name_of self.old before state []
            → live_session_named (sessions_in state) name.now ≡ Some session
            → AreClean N.name_of before (Some state)
            → OnOk result (IfSome (F.files shelf.new) (λ after.
            AreClean N.name_of after (Some (dropped_state state session))))) }

        ensures counts { CountsFaults (result ≡ Err StoreFault.ShelfFault) F.faults F.faultless shelf.old shelf.new }
    {
        let Some(session) = self.book.find(name) else {
            return Err(StoreFault::NoSession);
        };
        let outcome = self.drop_live(shelf, session);
        self.is_sound = outcome.is_ok();
        outcome
    }

    // Drops a live session. All that takes memory comes before the first file changes.
    fn drop_live<F: Shelf>(&mut self, shelf: &mut F, session: u32) -> Result<u32, StoreFault>
        requires sound { IsTrue self.old.sound }
        requires none_offered { self.old.offered ≡ [] }
        requires live { IsTrue (is_live self.old.opened.book.sessions session) }

        ensures places { IfOk result (λ places. places ≡ length (recipe_at self.old.opened.book.sessions session)) }
        ensures dropped { OnOk result (self.new ≡ dropped_store self.old session) }
        ensures written { OnOk result (CommitsDrop self.old session (F.files shelf.old) (F.files shelf.new)) }
        ensures flushed { OnOk result (F.loose shelf.new (Book self.old.opened.head.generation) ≡ false) }
        ensures sealed { OnOk result (F.loose shelf.new (Seal self.old.opened.head.generation) ≡ false) }

        ensures refused { OnErr result (OnlyFails result) }
        ensures not_written { OnErr result
            (CommitsNothing self.old.opened.head.generation self.old.opened.book.used
            (F.files shelf.old) (F.files shelf.new)
            ⊎ CommitsDrop self.old session (F.files shelf.old) (F.files shelf.new)) }
        ensures head { self.new.opened.head ≡ self.old.opened.head }

        ensures counts { CountsFaults (result ≡ Err StoreFault.ShelfFault) F.faults F.faultless shelf.old shelf.new }
    {
        let used = self.book.used();
        let entry = Record::Drop(session);
        let bytes = encode_record(self.alloc, &entry)?;
        let places = uncount(&mut self.counts, &self.book, session);
        self.book.add(entry)?;
        commit_bytes(shelf, &mut self.packer, self.generation, used, &bytes)?;
        Ok(places)
    }
}
