//! A chunk is offered to a store.
ghost use Rattle.std.specs.Prelude.{◌≡◌, ◌≢◌, ◌⊎◌, ◌≤◌, ◌<◌, ◌++◌, ◌∷◌, [], ℕ, List, length, map, true, false, IsTrue, MatchOption, IfOk, IfSome, OnOk, OnErr, Err, Some};
ghost use Rattle.std.specs.List.{All, position};
ghost use Rattle.std.specs.Str.{bytes_eq};
ghost use Rattle.container_pack.specs.Containers.{ContainersBegin};
ghost use Rattle.edge_traits.specs.Shelf.{SameFiles, SameLoose, content};
ghost use Rattle.sd_base.specs.Distinct.{new_chunks};
ghost use Rattle.sd_base.specs.Packing.{packing};
ghost use Rattle.sd_base.specs.States.{State, stored_chunks};
ghost use Rattle.sd_base.specs.Stores.{HoldState};
ghost use Rattle.sd_base.specs.declared.damage.Damage.{Damage};
ghost use Rattle.sd_base.specs.declared.file.File.{File};
ghost use Rattle.sd_base.specs.declared.file.File.TheVariants.{Container};
ghost use Rattle.sd_base.specs.declared.limits.TheConstants.{MAX_CHUNK_LEN, MAX_CHUNKS};
ghost use Rattle.store_core.specs.CleanFiles.{AreCleanWith, ContainersAre};
ghost use Rattle.store_core.specs.Commits.{OnlyFails};
ghost use Rattle.store_core.specs.Containers.{OnlyFinds};
ghost use Rattle.store_core.specs.Faults.{stays_sound};
ghost use Rattle.store_core.specs.Offers.{IsFoundDamaged, IsIntactIfNamed, IsLeastSame, IsNamedDamage, IsNewBelow, IsOffered, IsReadDamaged, IsRefused, IsSame, OffersAt, OnlyOffers, with_offer};
ghost use Rattle.store_core.specs.Shelves.{CountsFaults, OnlyReads};
ghost use Rattle.store_core.specs.StoreFields.{lengths_of, names_of};
ghost use Rattle.store_core.specs.StoreStates.{StandsFor, chunk_as_read, chunks_of_store, kept_chunk};

use super::Store;
use crate::StoreFault;
use crate::chunk_list::add_names;
use crate::fault::stays_sound;
use chunk_names::Namer;
use edge_traits::Shelf;
use sd_base::{Damage, MAX_CHUNKS, NewChunk, OutOfMemory};

impl<N: Namer> Store<N> {
    /// Returns the least number of a chunk, committed or offered before, that has this name and
    /// length and, as read, these bytes. If there is none, the chunk is appended to the containers
    /// and gets the next number.
    ///
    /// `Damaged` is returned only if the bytes of a chunk of this name, as read, have another name,
    /// and no chunk before it is the same. The damage is that of the first such chunk.
    /// `TooManyChunks` is returned only if no chunk is the same, the bytes of each chunk of this
    /// name have it, and there are 2^22 chunks. `ShelfFault` is returned only if the shelf's count
    /// of faults rose.
    ///
    /// No file changes if the chunk is found, or `Damaged` or `TooManyChunks` is returned. After
    /// `TooManyChunks` the store is as it was. After each other refusal it is not sound:
    /// nothing more may be offered to it, and it must not be written to again.
    pub fn offer<F: Shelf>(
        &mut self,
        shelf: &mut F,
        chunk: &[u8],
        name: &[u8; 32],
    ) -> Result<u32, StoreFault>
        requires sound { IsTrue self.old.sound }
        requires not_empty { 1 ≤ length chunk.now }
        requires bounded { length chunk.now ≤ MAX_CHUNK_LEN }
        requires named { name.now ≡ N.name_of chunk.now }

        // Whatever the shelf holds: the number is that of a chunk of this name and length that was
        // there, or the next one. A damage is of a chunk of this name, and names another one.
        ensures kept { IfOk result (λ i. OffersAt self.old (record { length = length chunk.now; name = name.now }) i self.new) }
        ensures damage { (damage : Damage) → result ≡ Err (StoreFault.Damaged damage)
            → IsNamedDamage self.old name.now damage }
        ensures refused { OnErr result (OnlyOffers result) }
        ensures sound { OnErr result (self.new ≡ record self.old { sound = stays_sound result }) }

        // The number is the least of a chunk that is the same, as read; the chunk is new if none
        // is. A damage is that of the first chunk of this name whose bytes have another one. No
        // chunk before either is the same, and the bytes of each chunk of this name before either
        // have it.
        ensures found { IfOk result (λ i. IfSome (F.files shelf.old) (λ files.
            i < length (chunks_of_store self.old) → IsLeastSame N.name_of files self.old chunk.now i)) }
        ensures new { IfOk result (λ i. IfSome (F.files shelf.old) (λ files.
            i ≡ length (chunks_of_store self.old) → IsNewBelow N.name_of files self.old chunk.now i)) }
        ensures damaged { (damage : Damage) → result ≡ Err (StoreFault.Damaged damage)
            → IfSome (F.files shelf.old) (λ files. IsFoundDamaged N.name_of files self.old chunk.now damage) }
        ensures too_many { result ≡ Err StoreFault.TooManyChunks
            → (length (chunks_of_store self.old) ≡ MAX_CHUNKS) × IfSome (F.files shelf.old) (λ files.
            IsNewBelow N.name_of files self.old chunk.now MAX_CHUNKS) }

        // No file changes if the chunk is found, or `Damaged` or `TooManyChunks` is returned.
        // Otherwise only containers of the store's generation change.
        ensures found_unchanged { IfOk result (λ i. i < length (chunks_of_store self.old)
            → SameFiles (F.files shelf.old) (F.files shelf.new)
            × SameLoose (F.loose shelf.old) (F.loose shelf.new)) }
        ensures unchanged { (result ≡ Err StoreFault.TooManyChunks)
            ⊎ ((damage : Damage) × (result ≡ Err (StoreFault.Damaged damage)))
            → SameFiles (F.files shelf.old) (F.files shelf.new)
            × SameLoose (F.loose shelf.old) (F.loose shelf.new) }
        ensures other_files { (f : File) → ((k : ℕ) → f ≢ Container self.old.opened.head.generation k)
            → content (F.files shelf.new) f ≡ content (F.files shelf.old) f }
        ensures counts { CountsFaults (result ≡ Err StoreFault.ShelfFault) F.faults F.faultless shelf.old shelf.new }

        // If the containers begin with the packing of chunks of the store's lengths, they begin
        // after a new chunk with the packing of those and this one.
        ensures packed { (chunks : List (List ℕ)) → map length chunks ≡ lengths_of (chunks_of_store self.old)
            → ContainersBegin (F.files shelf.old) self.old.opened.head.generation (packing chunks)
            → IfOk result (λ i. i ≡ length (chunks_of_store self.old)
            → ContainersBegin (F.files shelf.new) self.old.opened.head.generation
            (packing (chunks ++ chunk.now ∷ []))) }

        // If the store stands for a state, the number is the first index of the chunk among the
        // state's chunks and those offered, or their number if it is new. The store still stands
        // for the state, with the chunk offered too if it is new. There is no damage, and there are
        // too many chunks only if the chunk is new.
        ensures stands { (state : State) (offered : List (List ℕ)) → IfSome (F.files shelf.old) (λ before.
            StandsFor N.name_of self.old before state offered → IfOk result (λ i.
            IsOffered N.name_of state offered chunk.now i self.new (F.files shelf.new))) }
        ensures stands_refused { (state : State) (offered : List (List ℕ)) → IfSome (F.files shelf.old)
            (λ before. StandsFor N.name_of self.old before state offered
            → OnErr result (IsRefused state offered chunk.now result)) }

        // Whatever the result, the files then still hold the state. If they had nothing but the
        // state and the offered chunks, they have nothing else after Ok.
        ensures held { (state : State) (offered : List (List ℕ)) → IfSome (F.files shelf.old) (λ before.
            StandsFor N.name_of self.old before state offered
            → IfSome (F.files shelf.new) (λ after. HoldState N.name_of after state)) }
        ensures clean { (state : State) (offered : List (List ℕ)) → IfSome (F.files shelf.old) (λ before.
            StandsFor N.name_of self.old before state offered → AreCleanWith N.name_of before state offered
            → OnOk result (IfSome (F.files shelf.new) (λ after. AreCleanWith N.name_of after state
            (offered ++ new_chunks (stored_chunks state ++ offered) (chunk.now ∷ []))))) }
    {
        let outcome = self.find_or_append(shelf, chunk, name);
        self.is_sound = stays_sound(&outcome);
        outcome
    }

    // Offers a chunk, and leaves it to the caller to say whether the store is still sound.
    fn find_or_append<F: Shelf>(
        &mut self,
        shelf: &mut F,
        chunk: &[u8],
        name: &[u8; 32],
    ) -> Result<u32, StoreFault>
        requires not_empty { 1 ≤ length chunk.now }
        requires bounded { length chunk.now ≤ MAX_CHUNK_LEN }
        requires named { name.now ≡ N.name_of chunk.now }

        ensures some { All (λ n. 1 ≤ n) (lengths_of (chunks_of_store self.old)) }
        ensures kept { IfOk result (λ i. OffersAt self.old (record { length = length chunk.now; name = name.now }) i self.new) }
        ensures damage { (damage : Damage) → result ≡ Err (StoreFault.Damaged damage)
            → IsNamedDamage self.old name.now damage }
        ensures refused { OnErr result (OnlyOffers result × (self.new ≡ self.old)) }
        ensures found { IfOk result (λ i. IfSome (F.files shelf.old) (λ files.
            i < length (chunks_of_store self.old) → IsLeastSame N.name_of files self.old chunk.now i)) }
        ensures new { IfOk result (λ i. IfSome (F.files shelf.old) (λ files.
            i ≡ length (chunks_of_store self.old) → IsNewBelow N.name_of files self.old chunk.now i)) }
        ensures damaged { (damage : Damage) → result ≡ Err (StoreFault.Damaged damage)
            → IfSome (F.files shelf.old) (λ files. IsFoundDamaged N.name_of files self.old chunk.now damage) }
        ensures too_many { result ≡ Err StoreFault.TooManyChunks
            → (length (chunks_of_store self.old) ≡ MAX_CHUNKS) × IfSome (F.files shelf.old) (λ files.
            IsNewBelow N.name_of files self.old chunk.now MAX_CHUNKS) }

        ensures found_unchanged { IfOk result (λ i. i < length (chunks_of_store self.old)
            → SameFiles (F.files shelf.old) (F.files shelf.new)
            × SameLoose (F.loose shelf.old) (F.loose shelf.new)) }
        ensures unchanged { (result ≡ Err StoreFault.TooManyChunks)
            ⊎ ((damage : Damage) × (result ≡ Err (StoreFault.Damaged damage)))
            → SameFiles (F.files shelf.old) (F.files shelf.new)
            × SameLoose (F.loose shelf.old) (F.loose shelf.new) }
        ensures packed { (chunks : List (List ℕ)) → map length chunks ≡ lengths_of (chunks_of_store self.old)
            → ContainersBegin (F.files shelf.old) self.old.opened.head.generation (packing chunks)
            → IfOk result (λ i. i ≡ length (chunks_of_store self.old)
            → ContainersBegin (F.files shelf.new) self.old.opened.head.generation
            (packing (chunks ++ chunk.now ∷ []))) }
        ensures other_files { (f : File) → ((k : ℕ) → f ≢ Container self.old.opened.head.generation k)
            → content (F.files shelf.new) f ≡ content (F.files shelf.old) f }
        ensures counts { CountsFaults (result ≡ Err StoreFault.ShelfFault) F.faults F.faultless shelf.old shelf.new }

        ensures stands { (state : State) (offered : List (List ℕ)) → IfSome (F.files shelf.old) (λ before.
            StandsFor N.name_of self.old before state offered → IfOk result (λ i.
            IsOffered N.name_of state offered chunk.now i self.new (F.files shelf.new))) }
        ensures held { (state : State) (offered : List (List ℕ)) → IfSome (F.files shelf.old) (λ before.
            StandsFor N.name_of self.old before state offered
            → IfSome (F.files shelf.new) (λ after. HoldState N.name_of after state)) }
        ensures clean { (state : State) (offered : List (List ℕ)) → IfSome (F.files shelf.old) (λ before.
            StandsFor N.name_of self.old before state offered → AreCleanWith N.name_of before state offered
            → OnOk result (IfSome (F.files shelf.new) (λ after. AreCleanWith N.name_of after state
            (offered ++ new_chunks (stored_chunks state ++ offered) (chunk.now ∷ []))))) }
    {
        if let Some(number) = self.find_chunk(shelf, chunk, name)? {
            return Ok(number);
        }
        self.append_chunk(shelf, chunk, name)
    }

    // The least number of a chunk that is the same, as read.
    fn find_chunk<F: Shelf>(
        &mut self,
        shelf: &mut F,
        chunk: &[u8],
        name: &[u8; 32],
    ) -> Result<Option<u32>, StoreFault>
        requires named { name.now ≡ N.name_of chunk.now }

        ensures unchanged { self.new ≡ self.old }
        ensures some { All (λ n. 1 ≤ n) (lengths_of (chunks_of_store self.old)) }
        ensures kept { IfOk result (λ found. IfSome found (λ i. (i < length (chunks_of_store self.old))
            × (kept_chunk self.old i ≡ record { length = length chunk.now; name = name.now }))) }
        ensures least { IfOk result (λ found. IfSome (F.files shelf.old) (λ files.
            MatchOption found (IsNewBelow N.name_of files self.old chunk.now (length (chunks_of_store self.old)))
            (IsLeastSame N.name_of files self.old chunk.now))) }
        ensures damage { (damage : Damage) → result ≡ Err (StoreFault.Damaged damage)
            → IsNamedDamage self.old name.now damage }
        ensures damaged { (damage : Damage) → result ≡ Err (StoreFault.Damaged damage)
            → IfSome (F.files shelf.old) (λ files. IsFoundDamaged N.name_of files self.old chunk.now damage) }
        ensures refused { OnErr result (OnlyFinds result) }
        ensures reads { OnlyReads (result ≡ Err StoreFault.ShelfFault) F.files F.loose F.faults F.faultless
            shelf.old shelf.new }
    {
        match self.first_named(name)? {
            Some(first) => self.find_from(shelf, first, chunk, name),
            None => Ok(None),
        }
    }

    // The number of the first chunk of a name.
    fn first_named(&mut self, name: &[u8; 32]) -> Result<Option<u32>, OutOfMemory>
        ensures unchanged { self.new ≡ self.old }
        ensures some { All (λ n. 1 ≤ n) (lengths_of (chunks_of_store self.old)) }
        ensures first { IfOk result (λ first.
            first ≡ position (bytes_eq name.now) (names_of (chunks_of_store self.old))) }
    {
        add_names(&mut self.index, self.book.chunks(), &self.offered)?;
        Ok(self.index.find(name))
    }

    // The least number of a chunk that is the same, as read. The search starts at the first chunk
    // of the name.
    fn find_from<F: Shelf>(
        &self,
        shelf: &mut F,
        first: u32,
        chunk: &[u8],
        name: &[u8; 32],
    ) -> Result<Option<u32>, StoreFault>
        requires named { name.now ≡ N.name_of chunk.now }
        requires first { Some first ≡ position (bytes_eq name.now) (names_of (chunks_of_store self.now)) }

        ensures kept { IfOk result (λ found. IfSome found (λ i. (i < length (chunks_of_store self.now))
            × (kept_chunk self.now i ≡ record { length = length chunk.now; name = name.now }))) }
        ensures least { IfOk result (λ found. IfSome (F.files shelf.old) (λ files.
            MatchOption found (IsNewBelow N.name_of files self.now chunk.now (length (chunks_of_store self.now)))
            (IsLeastSame N.name_of files self.now chunk.now))) }
        ensures damage { (damage : Damage) → result ≡ Err (StoreFault.Damaged damage)
            → IsNamedDamage self.now name.now damage }
        ensures damaged { (damage : Damage) → result ≡ Err (StoreFault.Damaged damage)
            → IfSome (F.files shelf.old) (λ files. IsFoundDamaged N.name_of files self.now chunk.now damage) }
        ensures refused { OnErr result (OnlyFinds result) }
        ensures reads { OnlyReads (result ≡ Err StoreFault.ShelfFault) F.files F.loose F.faults F.faultless
            shelf.old shelf.new }
    {
        for number in first..self.count() {
            if self.is_same(shelf, number, chunk, name)? {
                return Ok(Some(number));
            }
        }
        Ok(None)
    }

    // Whether a chunk has this name and length and, as read, these bytes. `Damaged` is returned if
    // the chunk has this name, but its bytes have another one.
    fn is_same<F: Shelf>(
        &self,
        shelf: &mut F,
        number: u32,
        chunk: &[u8],
        name: &[u8; 32],
    ) -> Result<bool, StoreFault>
        requires within { number < length (chunks_of_store self.now) }
        requires named { name.now ≡ N.name_of chunk.now }

        ensures kept { IfOk result (λ same. same ≡ true
            → kept_chunk self.now number ≡ record { length = length chunk.now; name = name.now }) }
        ensures same { IfOk result (λ same. IfSome (F.files shelf.old) (λ files.
            same ≡ true → IsSame N.name_of files self.now chunk.now number)) }
        ensures other { IfOk result (λ same. IfSome (F.files shelf.old) (λ files.
            same ≡ false → IsSame N.name_of files self.now chunk.now number → ⊥)) }
        ensures intact { IfOk result (λ same. IfSome (F.files shelf.old) (λ files.
            same ≡ false → IsIntactIfNamed N.name_of files self.now chunk.now number)) }
        ensures damage { (damage : Damage) → result ≡ Err (StoreFault.Damaged damage)
            → IsNamedDamage self.now name.now damage }
        ensures damaged { (damage : Damage) → result ≡ Err (StoreFault.Damaged damage)
            → ((kept_chunk self.now number).name ≡ name.now)
            × IfSome (F.files shelf.old) (λ files. IsReadDamaged N.name_of files self.now number damage) }
        ensures refused { OnErr result (OnlyFinds result) }
        ensures reads { OnlyReads (result ≡ Err StoreFault.ShelfFault) F.files F.loose F.faults F.faultless
            shelf.old shelf.new }
    {
        let kept = self.chunk(number);
        if kept.name != *name {
            return Ok(false);
        }
        let read = self.read(shelf, number)?;
        if kept.length as usize == chunk.len() && read.as_slice() == chunk {
            return Ok(true);
        }
        let found = self.namer.name(&read);
        if found == kept.name {
            return Ok(false);
        }
        let kept = kept.name;
        Err(StoreFault::Damaged(Damage::Chunk {
            number,
            kept,
            found,
        }))
    }

    // Appends a new chunk. Memory for its entry is taken before a file changes.
    fn append_chunk<F: Shelf>(
        &mut self,
        shelf: &mut F,
        chunk: &[u8],
        name: &[u8; 32],
    ) -> Result<u32, StoreFault>
        requires not_empty { 1 ≤ length chunk.now }
        requires bounded { length chunk.now ≤ MAX_CHUNK_LEN }

        ensures number { IfOk result (λ i. (i ≡ length (chunks_of_store self.old)) × (i < MAX_CHUNKS)) }
        ensures added { OnOk result (self.new ≡ with_offer self.old (record { length = length chunk.now; name = name.now })) }
        ensures refused { OnErr result ((result ≡ Err StoreFault.TooManyChunks) ⊎ OnlyFails result) }
        ensures unchanged { OnErr result (self.new ≡ self.old) }
        ensures too_many { result ≡ Err StoreFault.TooManyChunks → length (chunks_of_store self.old) ≡ MAX_CHUNKS }
        ensures untouched { result ≡ Err StoreFault.TooManyChunks → shelf.new ≡ shelf.old }
        ensures packed { (chunks : List (List ℕ)) → map length chunks ≡ lengths_of (chunks_of_store self.old)
            → ContainersBegin (F.files shelf.old) self.old.opened.head.generation (packing chunks)
            → OnOk result (ContainersBegin (F.files shelf.new) self.old.opened.head.generation
            (packing (chunks ++ chunk.now ∷ []))) }
        ensures still_packed { (chunks : List (List ℕ)) → map length chunks ≡ lengths_of (chunks_of_store self.old)
            → ContainersBegin (F.files shelf.old) self.old.opened.head.generation (packing chunks)
            → ContainersBegin (F.files shelf.new) self.old.opened.head.generation (packing chunks) }
        ensures exact { (chunks : List (List ℕ)) → map length chunks ≡ lengths_of (chunks_of_store self.old)
            → ContainersAre (F.files shelf.old) self.old.opened.head.generation (packing chunks)
            → OnOk result (ContainersAre (F.files shelf.new) self.old.opened.head.generation
            (packing (chunks ++ chunk.now ∷ []))) }

        ensures other_files { (f : File) → ((k : ℕ) → f ≢ Container self.old.opened.head.generation k)
            → content (F.files shelf.new) f ≡ content (F.files shelf.old) f }
        ensures counts { CountsFaults (result ≡ Err StoreFault.ShelfFault) F.faults F.faultless shelf.old shelf.new }
    {
        let number = self.count();
        if number >= MAX_CHUNKS {
            return Err(StoreFault::TooManyChunks);
        }
        self.spots.reserve(1)?;
        self.offered.reserve(1)?;
        let spot = self.packer.append_chunk(shelf, chunk)?;
        self.spots.push(spot)?;
        self.offered.push(NewChunk {
            length: chunk.len() as u32,
            name: *name,
        })?;
        Ok(number)
    }
}
