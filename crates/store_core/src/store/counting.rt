//! The places of the live sessions of a store are counted.
ghost use Rattle.std.specs.Prelude.{◌≡◌, ◌+◌, ◌<◌, ◌≤◌, ◌++◌, [], ℕ, List, None, length, IfOk, IsTrue};
ghost use Rattle.std.specs.List.{All, sum};
ghost use Rattle.sd_base.specs.Books.{chunks_in, is_live, places_in, recipe_damage, without};
ghost use Rattle.sd_base.specs.References.{references_in_book, references_in_state};
ghost use Rattle.sd_base.specs.States.{State};
ghost use Rattle.sd_base.specs.declared.file.File.{File};
ghost use Rattle.sd_base.specs.declared.limits.TheConstants.{MAX_CHUNKS, MAX_PLACES};
ghost use Rattle.store_core.specs.Counting.{AreCounted, CountPlaces, places_at, recipe_at};
ghost use Rattle.store_core.specs.StoreStates.{StandsFor};

use super::Store;
use chunk_names::Namer;
use ref_ledger::Ledger;
use sd_base::OutOfMemory;
use session_book::Book;
use std::alloc::Global;

impl<N: Namer> Store<N> {
    /// How many places of live sessions name a committed chunk. There is no count exactly if no
    /// committed chunk has the number: a chunk that is only offered has none.
    pub fn refs(&self, chunk: u32) -> Option<u32>
        ensures counted { result ≡ references_in_book self.now.opened.book.sessions chunk }

        // If the store stands for a state, this is the count of the state.
        ensures state { (files : File → List ℕ) (state : State) (offered : List (List ℕ)) → StandsFor N.name_of self.now files state offered
            → result ≡ references_in_state state chunk }
    {
        if (chunk as usize) < self.book.chunks().len() {
            Some(self.counts.count(chunk))
        } else {
            None
        }
    }
}

/// The counts of a book. They take memory for each chunk, and none for a place.
pub(super) fn counts_of(alloc: Global, book: &Book) -> Result<Ledger, OutOfMemory>
    requires recipes { recipe_damage [] 0 book.now.sessions ≡ None }
    requires few_places { places_in book.now.sessions ≤ MAX_PLACES }
    requires few_chunks { length (chunks_in book.now.sessions) ≤ MAX_CHUNKS }
    ensures counted { IfOk result (λ counts. AreCounted book.now.sessions counts) }
{
    let mut counts = Ledger::new(alloc);
    counts.reserve(book.chunks().len() as u32)?;
    for session in 0..book.sessions() {
        count_session(&mut counts, book, session);
    }
    Ok(counts)
}

// Counts the places of one more session of a book, if it is live.
fn count_session(counts: &mut Ledger, book: &Book, session: u32)
    requires known { All (λ place. place < length counts.old) (places_at book.now.sessions session) }
    requires room { sum counts.old + length (places_at book.now.sessions session) ≤ MAX_PLACES }
    ensures counted { (places : List ℕ) → CountPlaces places counts.old
        → CountPlaces (places ++ places_at book.now.sessions session) counts.new }
    ensures chunks { length counts.new ≡ length counts.old }
{
    if book.live(session) {
        if let Some(entry) = book.session(session) {
            counts.add(entry.recipe.as_slice());
        }
    }
}

/// Takes the places of a live session of a book from the counts, and returns how many they are.
pub(super) fn uncount(counts: &mut Ledger, book: &Book, session: u32) -> u32
    requires live { IsTrue (is_live book.now.sessions session) }
    requires counted { AreCounted book.now.sessions counts.old }
    ensures counted { AreCounted (without session book.now.sessions) counts.new }
    ensures places { result ≡ length (recipe_at book.now.sessions session) }
{
    let Some(entry) = book.session(session) else {
        return 0;
    };
    let places = entry.recipe.as_slice();
    counts.drop_places(places);
    prove!(places.len() <= book.places() as usize);
    places.len() as u32
}
