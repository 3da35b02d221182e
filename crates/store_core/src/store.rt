//! A store as one value.
ghost use Rattle.std.specs.Prelude.{◌≡◌, ◌<◌, ◌≤◌, [], length, true, None, IfOk, IfSome, OnErr, IsErrOf};
ghost use Rattle.std.specs.List.{All};
ghost use Rattle.sd_base.specs.Books.{chunks_in, places_in, recipe_damage};
ghost use Rattle.sd_base.specs.Opening.{IsOpeningDamage, OpenAs, chunk_lengths};
ghost use Rattle.sd_base.specs.Params.{numbers_of};
ghost use Rattle.sd_base.specs.States.{IsLawful, State};
ghost use Rattle.sd_base.specs.Stores.{HoldNoStore, HoldState};
ghost use Rattle.sd_base.specs.declared.damage.Damage.{Damage};
ghost use Rattle.sd_base.specs.declared.limits.TheConstants.{MAX_CHUNK_LEN, MAX_CHUNKS, MAX_PLACES};
ghost use Rattle.store_core.specs.Faults.{IsOfOpening};
ghost use Rattle.store_core.specs.Heads.{OnlyOpens, head_state};
ghost use Rattle.store_core.specs.Shelves.{OnlyReads};
ghost use Rattle.store_core.specs.StoreStates.{StandsFor, chunk_as_read, chunks_of_store, kept_chunk};

mod commit;
mod counting;
mod dropping;
mod offer;
mod restore;

use crate::StoreFault;
use crate::book_file::read_book;
use crate::chunk_list::chunk_of;
use crate::containers::check_containers;
use crate::head_file::{StoreHead, read_head};
use crate::name_index::NameIndex;
use chunk_names::Namer;
use container_pack::{Packer, Spot, places, read_chunk};
use counting::counts_of;
use edge_traits::{EdgeFault, Shelf};
use ref_ledger::Ledger;
use sd_base::{NewChunk, OutOfMemory, Params};
use session_book::Book;
use std::alloc::Global;
use std::marker::Model;

/// A store that was opened: its parameters, the generation of its files, the book of its committed
/// records, and the chunks that were offered since the last commit.
#[derive(Drop)]
pub struct Store<N: Namer> {
    alloc: Global,
    namer: N,
    params: Params,
    generation: u32,
    book: Book,
    /// How many places of live sessions name each chunk of the book.
    counts: Ledger,
    /// The chunks that were offered since the last commit.
    offered: Vec<NewChunk>,
    /// Where the chunks lie, those offered too.
    spots: Vec<Spot>,
    packer: Packer,
    /// The names of chunks. It is made when the first chunk is offered.
    index: NameIndex,
    is_sound: bool,
}

impl<N: Namer> Model for Store<N> {
    ghost use Rattle.std.specs.Prelude.{◌≡◌, ◌++◌, length};
    ghost use Rattle.sd_base.specs.Books.{chunks_in};
    ghost use Rattle.sd_base.specs.Params.{numbers_of};
    ghost use Rattle.store_core.specs.Counting.{AreCounted};
    ghost use Rattle.store_core.specs.StoreFields.{ArePlaced, AreUnflushed};
    ghost use Rattle.store_core.specs.StoreStates.{StoreState};

    ghost Value = { StoreState };

    ghost view = { λ store. record {
      opened = record {
        head = record { params = numbers_of store.params; generation = store.generation };
        book = store.book;
      };
      offered = store.offered.items;
      sound = store.is_sound;
    } };

    ghost invariant = { λ store. (store.book.max ≡ store.params.max)
        × ArePlaced (chunks_in store.book.sessions ++ store.offered.items) store.generation store.spots.items store.packer store.index
        × AreUnflushed (length (chunks_in store.book.sessions)) store.spots.items store.packer
        × AreCounted store.book.sessions store.counts };
}

impl<N: Namer> Store<N> {
    /// Opens the store on a shelf, and writes nothing. The verdict is that of the definition: there
    /// is no store if the head has fewer than 33 bytes; otherwise the first damage is returned, of
    /// the head, the records, the recipes and the sizes of the containers, in this order; otherwise
    /// the store. `ShelfFault` is returned only if the shelf's count of faults rose.
    pub fn open<F: Shelf>(alloc: Global, shelf: &mut F, namer: N) -> Result<Store<N>, StoreFault>
        ensures opened { IfOk result (λ store. IfSome (F.files shelf.old) (λ files. OpenAs files store.opened)) }
        ensures no_store { result ≡ Err StoreFault.NoStore → IfSome (F.files shelf.old) HoldNoStore }
        ensures damaged { (damage : Damage) → result ≡ Err (StoreFault.Damaged damage)
            → IfSome (F.files shelf.old) (λ files. IsOpeningDamage files damage) }
        ensures refused { OnErr result (OnlyOpens result) }
        ensures kind { (damage : Damage) → result ≡ Err (StoreFault.Damaged damage) → IsOfOpening damage }
        ensures fresh { IfOk result (λ store. (store.offered ≡ []) × (store.sound ≡ true)) }
        ensures recipes { IfOk result (λ store. recipe_damage [] 0 store.opened.book.sessions ≡ None) }
        ensures none_empty { IfOk result (λ store. All (λ n. 1 ≤ n) (chunk_lengths store.opened.book)) }
        ensures bounded { IfOk result (λ store. All (λ n. n ≤ MAX_CHUNK_LEN) (chunk_lengths store.opened.book)) }

        // If the files hold a state, the store stands for it, with nothing offered.
        ensures stands { (state : State) → IfSome (F.files shelf.old) (λ before. IsLawful state
            → HoldState N.name_of before state → IfOk result (λ store. IfSome (F.files shelf.new) (λ after.
            StandsFor N.name_of store after state []))) }

        ensures reads { OnlyReads (result ≡ Err StoreFault.ShelfFault) F.files F.loose F.faults F.faultless
            shelf.old shelf.new }
    {
        let head = read_head(shelf)?;
        let generation = head.generation;
        let book = read_book(alloc, shelf, generation, head.params.max)?;
        let lengths = lengths_of(alloc, &book)?;
        check_containers(alloc, shelf, generation, &lengths)?;
        Ok(opened_store(alloc, namer, head, book, &lengths)?)
    }

    /// The parameters of cutting.
    pub fn params(&self) -> &Params
        ensures params { numbers_of result.now ≡ self.now.opened.head.params }
    {
        &self.params
    }

    /// The generation of the files.
    pub fn generation(&self) -> u32
        ensures generation { result ≡ self.now.opened.head.generation }
    {
        self.generation
    }

    /// The book of the committed records.
    pub fn book(&self) -> &Book
        ensures book { result.now ≡ self.now.opened.book }
        ensures chunk_limit { length (chunks_in result.now.sessions) ≤ MAX_CHUNKS }
    {
        &self.book
    }

    /// The chunks that were offered since the last commit, in order. They have the numbers after those
    /// of the book.
    pub fn offered(&self) -> &[NewChunk]
        ensures offered { result.now ≡ self.now.offered }
    {
        &self.offered
    }

    /// Whether `offer`, `commit` and `drop_session` may be called: true until one of them returns
    /// `Damaged`, `ShelfFault` or `OutOfMemory`. Nothing may be offered to a store that is not sound,
    /// and it must not be written to.
    pub fn is_sound(&self) -> bool
        ensures sound { result ≡ self.now.sound }
    {
        self.is_sound
    }

    // The number of chunks, those offered too.
    fn count(&self) -> u32
        ensures count { result ≡ length (chunks_of_store self.now) }
        ensures limit { result ≤ MAX_CHUNKS }
    {
        (self.book.chunks().len() + self.offered.len()) as u32
    }

    // The bytes of a chunk, as the shelf has them.
    fn read<F: Shelf>(&self, shelf: &mut F, number: u32) -> Result<Vec<u8>, EdgeFault>
        requires within { number < length (chunks_of_store self.now) }
        ensures read { IfOk result (λ read. IfSome (F.files shelf.old) (λ files.
            read.items ≡ chunk_as_read files self.now number)) }
        ensures reads { OnlyReads (IsErrOf result EdgeFault.Failed) F.files F.loose F.faults F.faultless
            shelf.old shelf.new }
    {
        let spot = self.spots[number as usize];
        let length = self.chunk(number).length;
        read_chunk(self.alloc, shelf, self.generation, spot, length)
    }

    // A chunk by its length and name.
    fn chunk(&self, number: u32) -> NewChunk
        requires within { number < length (chunks_of_store self.now) }
        ensures chunk { result ≡ kept_chunk self.now number }
    {
        chunk_of(self.book.chunks(), &self.offered, number)
    }
}

// The lengths of the chunks of a book, in order.
fn lengths_of(alloc: Global, book: &Book) -> Result<Vec<u32>, OutOfMemory>
    ensures lengths { IfOk result (λ lengths. lengths.items ≡ chunk_lengths book.now) }
{
    let chunks = book.chunks();
    let mut lengths = Vec::with_capacity(alloc, chunks.len())?;
    for chunk in chunks {
        lengths.push(chunk.length)?;
    }
    Ok(lengths)
}

// The store of a head and a book, with no chunk offered.
fn opened_store<N: Namer>(
    alloc: Global,
    namer: N,
    head: StoreHead,
    book: Book,
    lengths: &[u32],
) -> Result<Store<N>, OutOfMemory>
    requires max { book.max ≡ head.params.max }
    requires lengths { lengths.now ≡ chunk_lengths book }
    requires none_empty { All (λ n. 1 ≤ n) lengths.now }
    requires bounded { All (λ n. n ≤ MAX_CHUNK_LEN) lengths.now }
    requires recipes { recipe_damage [] 0 book.sessions ≡ None }
    requires few_places { places_in book.sessions ≤ MAX_PLACES }

    ensures opened { IfOk result (λ store. store ≡ record {
      opened = record { head = head_state head; book = book };
      offered = [];
      sound = true;
    }) }
{
    let spots = places(alloc, lengths)?;
    let counts = counts_of(alloc, &book)?;
    Ok(Store {
        alloc,
        namer,
        params: head.params,
        generation: head.generation,
        book,
        counts,
        offered: Vec::new(alloc),
        spots,
        packer: Packer::resume(head.generation, lengths),
        index: NameIndex::new(alloc),
        is_sound: true,
    })
}
