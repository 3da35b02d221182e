//! Chunks appended to containers.
ghost use Rattle.std.specs.Prelude.{◌≡◌, ◌≢◌, ◌⊎◌, ◌↔◌, ◌+◌, ◌≤◌, ◌<◌, ℕ, List, [], ◌∷◌, ◌++◌, length, map, All, false, slice_index_or, IfOk, OnOk, OnErr, IsOk, IsErrOf};
ghost use Rattle.sd_base.specs.declared.limits.TheConstants.{MAX_CHUNKS};
ghost use Rattle.sd_base.specs.Packing.{packing, header_of};
ghost use Rattle.sd_base.specs.declared.file.File.{File};
ghost use Rattle.sd_base.specs.declared.file.File.TheVariants.{Container};
ghost use Rattle.edge_traits.specs.Faults.{Rose};
ghost use Rattle.edge_traits.specs.Shelf.{content, SameFiles, ChangesOnly, CutTo, MayLoosen};
ghost use Rattle.container_pack.specs.Spots.{IsSound, LiesAt, spots_of};
ghost use Rattle.container_pack.specs.Containers.{HasOnly, ContainersBegin, AppendedAt, KeepsFront};

use crate::Spot;
use crate::fill::Fill;
use edge_traits::{EdgeFault, File, Shelf};
use sd_base::{CONTAINER_HEADER, MAX_CHUNK_LEN, MAX_CHUNKS};

/// Appends chunks to the containers of a generation, after the chunks that are there already. It
/// knows those by their lengths alone.
#[derive(Drop)]
pub struct Packer {
    generation: u32,
    chunks: u32,
    fill: Fill,
    /// The containers from this one on were appended to since the last flush.
    first_unflushed: u32,
    ghost sound: { IsSound fill },
    ghost one_each: { fill.containers ≤ chunks },
    ghost within_limit: { chunks ≤ MAX_CHUNKS },
    ghost unflushed: { first_unflushed ≤ fill.containers },
}

impl Packer {
    ghost use Rattle.container_pack.specs.Packer.{generation_of, chunk_count, file_at, next_spot, next_file, OpensContainer, IsBehind, StandsBehind, IsUnflushed};

    /// A packer after chunks of these lengths. It needs no memory and has touched no file.
    pub fn resume(generation: u32, lengths: &[u32]) -> Self
        requires none_empty { All (λ n. 1 ≤ n) lengths.now }
        requires bounded { All (λ n. n ≤ MAX_CHUNK_LEN) lengths.now }
        requires within_limit { length lengths.now ≤ MAX_CHUNKS }

        ensures generation { generation_of result ≡ generation }
        ensures count { chunk_count result ≡ length lengths.now }
        ensures behind { IsBehind result lengths.now }
        ensures stands { (files : _) (chunks : List (List ℕ)) → map length chunks ≡ lengths.now
            → ContainersBegin files generation (packing chunks) → StandsBehind result files chunks }
        ensures flushed { (k : ℕ) → ¬ IsUnflushed result k }
    {
        let mut fill = Fill::nothing();
        let mut chunks = 0;
        for length in lengths {
            fill = fill.with_chunk(*length);
            chunks += 1;
        }
        Packer {
            generation,
            chunks,
            fill,
            first_unflushed: fill.containers,
        }
    }

    /// Appends a chunk after the others, and returns its spot: in the last container if it fits
    /// there, otherwise in a new one. Every append cuts the file first, the last container to the
    /// bytes before the spot and a new one to nothing, so a tail never comes between two chunks. A
    /// new container gets its header.
    ///
    /// After a refusal the packer is as it was and may be used again, and the earlier chunks are
    /// where they were. The file that the refused append changed may be loose, and the next `flush`
    /// need not flush it. `Failed` is returned only if the shelf's count of faults rose.
    pub fn append_chunk<F: Shelf>(&mut self, shelf: &mut F, chunk: &[u8]) -> Result<Spot, EdgeFault>
        requires not_empty { 1 ≤ length chunk.now }
        requires bounded { length chunk.now ≤ MAX_CHUNK_LEN }
        requires within_limit { chunk_count self.old < MAX_CHUNKS }

        ensures generation { generation_of self.new ≡ generation_of self.old }
        ensures count { OnOk result (chunk_count self.new ≡ chunk_count self.old + 1) }
        ensures refused { OnErr result (self.new ≡ self.old) }
        ensures spot { IfOk result (λ spot. spot ≡ next_spot self.old (length chunk.now)) }
        ensures placed { (lengths : List ℕ) → IsBehind self.old lengths → IfOk result (λ spot.
            spots_of (lengths ++ length chunk.now ∷ []) ≡ spots_of lengths ++ spot ∷ []) }
        ensures behind { (lengths : List ℕ) → IsBehind self.old lengths
            → OnOk result (IsBehind self.new (lengths ++ length chunk.now ∷ [])) }
        ensures lies { (chunks : List (List ℕ)) → IsBehind self.old (map length chunks)
            → IfOk result (λ spot. LiesAt (packing (chunks ++ chunk.now ∷ [])) spot chunk.now) }

        // Whatever the files hold: a container that is opened is its header and the chunk, and the
        // open one keeps what is before the spot.
        ensures opened { let n = length chunk.now in let at = next_spot self.old n in
            OpensContainer self.old n → OnOk result
            (HasOnly (content (F.files shelf.new) (next_file self.old n)) (header_of at.container ++ chunk.now)) }
        ensures at_spot { let n = length chunk.now in let at = next_spot self.old n in
            ¬ OpensContainer self.old n → OnOk result
            (AppendedAt (next_file self.old n) at.offset chunk.now (F.files shelf.old) (F.files shelf.new)) }
        ensures before_spot { let n = length chunk.now in let at = next_spot self.old n in
            ¬ OpensContainer self.old n → OnErr result
            (KeepsFront (next_file self.old n) at.offset (F.files shelf.old) (F.files shelf.new)) }
        ensures other_files { ChangesOnly (next_file self.old (length chunk.now))
            (F.files shelf.old) (F.files shelf.new) }

        // If the containers begin with the packing of the chunks before, they begin afterwards with
        // that of these and the new one, which ends its file; after a refusal, with that of the
        // chunks before.
        ensures packed { (chunks : List (List ℕ)) → StandsBehind self.old (F.files shelf.old) chunks
            → OnOk result (StandsBehind self.new (F.files shelf.new) (chunks ++ chunk.now ∷ [])) }
        ensures ends { (chunks : List (List ℕ)) → StandsBehind self.old (F.files shelf.old) chunks
            → IfOk result (λ spot. HasOnly
            (content (F.files shelf.new) (Container (generation_of self.old) spot.container))
            (slice_index_or (packing (chunks ++ chunk.now ∷ [])) spot.container [])) }
        ensures still_stands { (chunks : List (List ℕ)) → StandsBehind self.old (F.files shelf.old) chunks
            → OnErr result (StandsBehind self.new (F.files shelf.new) chunks) }
        ensures earlier_chunks { (chunks : List (List ℕ)) → StandsBehind self.old (F.files shelf.old) chunks
            → OnErr result (ContainersBegin (F.files shelf.new) (generation_of self.old) (packing chunks)) }

        ensures unflushed { (k : ℕ) → IfOk result (λ spot.
            IsUnflushed self.new k ↔ (IsUnflushed self.old k ⊎ (k ≡ spot.container))) }
        ensures may_loosen { MayLoosen (next_file self.old (length chunk.now))
            (F.loose shelf.old) (F.loose shelf.new) }

        ensures failed { IsErrOf result EdgeFault.Failed → Rose (F.faults shelf.old) (F.faults shelf.new) }
        ensures never_falls { F.faults shelf.old ≤ F.faults shelf.new }

        ensures faultless_serves { F.faultless shelf.old → IsErrOf result EdgeFault.Failed → ⊥ }
        ensures faultless_counts_none { F.faultless shelf.old → F.faults shelf.new ≡ F.faults shelf.old }
        ensures stays_faultless { F.faultless shelf.old → F.faultless shelf.new }
    {
        let length = chunk.len() as u32;
        let spot = self.next_spot(length);
        self.make_ready(shelf, spot)?;
        shelf.append(File::Container(self.generation, spot.container), chunk)?;
        self.chunks += 1;
        self.fill = self.fill.with_chunk(length);
        self.first_unflushed = self.first_unflushed.min(spot.container);
        Ok(spot)
    }

    /// Flushes each container that was appended to since the last flush. After a refusal some of
    /// them may be flushed, and the packer is as it was. `Failed` is returned only if the shelf's
    /// count of faults rose.
    pub fn flush<F: Shelf>(&mut self, shelf: &mut F) -> Result<(), EdgeFault>
        ensures flushed { (k : ℕ) → IsUnflushed self.old k
            → OnOk result (F.loose shelf.new (Container (generation_of self.old) k) ≡ false) }
        ensures none_left { (k : ℕ) → OnOk result (¬ IsUnflushed self.new k) }
        ensures refused { OnErr result (self.new ≡ self.old) }
        ensures loosens_none { (f : File) → F.loose shelf.old f ≡ false → F.loose shelf.new f ≡ false }
        ensures other_loose { (f : File)
            → ((k : ℕ) → IsUnflushed self.old k → f ≢ Container (generation_of self.old) k)
            → F.loose shelf.new f ≡ F.loose shelf.old f }

        ensures no_call { ((k : ℕ) → ¬ IsUnflushed self.old k) → (shelf.new ≡ shelf.old) × IsOk result }

        ensures same_files { SameFiles (F.files shelf.old) (F.files shelf.new) }
        ensures generation { generation_of self.new ≡ generation_of self.old }
        ensures count { chunk_count self.new ≡ chunk_count self.old }
        ensures behind { (lengths : List ℕ) → IsBehind self.old lengths → IsBehind self.new lengths }
        ensures stands { (chunks : List (List ℕ)) → StandsBehind self.old (F.files shelf.old) chunks
            → StandsBehind self.new (F.files shelf.new) chunks }

        ensures failed { IsErrOf result EdgeFault.Failed → Rose (F.faults shelf.old) (F.faults shelf.new) }
        ensures never_falls { F.faults shelf.old ≤ F.faults shelf.new }

        ensures faultless_serves { F.faultless shelf.old → IsErrOf result EdgeFault.Failed → ⊥ }
        ensures faultless_counts_none { F.faultless shelf.old → F.faults shelf.new ≡ F.faults shelf.old }
        ensures stays_faultless { F.faultless shelf.old → F.faultless shelf.new }
    {
        for number in self.first_unflushed..self.fill.containers {
            shelf.flush(File::Container(self.generation, number))?;
        }
        self.first_unflushed = self.fill.containers;
        Ok(())
    }

    /// The spot of a chunk of this length that is appended next.
    fn next_spot(&self, length: u32) -> Spot
        requires not_empty { 1 ≤ length }
        requires bounded { length ≤ MAX_CHUNK_LEN }
        requires within_limit { chunk_count self.now < MAX_CHUNKS }
        ensures { result ≡ next_spot self.now length }
    {
        self.fill.with_chunk(length).last_spot(length)
    }

    /// Leaves in the file of a spot the bytes before the spot alone. If the spot is in a new
    /// container, these are its header.
    fn make_ready<F: Shelf>(&self, shelf: &mut F, spot: Spot) -> Result<(), EdgeFault>
        ensures opened { spot.container ≡ self.now.fill.containers → OnOk result
            (HasOnly (content (F.files shelf.new) (file_at self.now spot)) (header_of spot.container)) }
        ensures cut { spot.container ≢ self.now.fill.containers → OnOk result
            (CutTo (file_at self.now spot) spot.offset (F.files shelf.old) (F.files shelf.new)) }
        ensures before_spot { spot.container ≢ self.now.fill.containers → OnErr result
            (KeepsFront (file_at self.now spot) spot.offset (F.files shelf.old) (F.files shelf.new)) }

        ensures other_files { ChangesOnly (file_at self.now spot) (F.files shelf.old) (F.files shelf.new) }
        ensures may_loosen { MayLoosen (file_at self.now spot) (F.loose shelf.old) (F.loose shelf.new) }

        ensures failed { IsErrOf result EdgeFault.Failed → Rose (F.faults shelf.old) (F.faults shelf.new) }
        ensures never_falls { F.faults shelf.old ≤ F.faults shelf.new }

        ensures faultless_serves { F.faultless shelf.old → IsErrOf result EdgeFault.Failed → ⊥ }
        ensures faultless_counts_none { F.faultless shelf.old → F.faults shelf.new ≡ F.faults shelf.old }
        ensures stays_faultless { F.faultless shelf.old → F.faultless shelf.new }
    {
        let file = File::Container(self.generation, spot.container);
        if spot.container == self.fill.containers {
            open_container(shelf, file, spot.container)
        } else {
            shelf.cut(file, u64::from(spot.offset))
        }
    }
}

/// Leaves in the file of a container its header alone.
fn open_container<F: Shelf>(shelf: &mut F, file: File, number: u32) -> Result<(), EdgeFault>
    ensures opened { OnOk result (HasOnly (content (F.files shelf.new) file) (header_of number)) }

    ensures other_files { ChangesOnly file (F.files shelf.old) (F.files shelf.new) }
    ensures may_loosen { MayLoosen file (F.loose shelf.old) (F.loose shelf.new) }

    ensures failed { IsErrOf result EdgeFault.Failed → Rose (F.faults shelf.old) (F.faults shelf.new) }
    ensures never_falls { F.faults shelf.old ≤ F.faults shelf.new }

    ensures faultless_serves { F.faultless shelf.old → IsErrOf result EdgeFault.Failed → ⊥ }
    ensures faultless_counts_none { F.faultless shelf.old → F.faults shelf.new ≡ F.faults shelf.old }
    ensures stays_faultless { F.faultless shelf.old → F.faultless shelf.new }
{
    shelf.cut(file, 0)?;
    shelf.append(file, &header(number))
}

/// The first bytes of a container: its mark and its number, the most significant byte first.
fn header(number: u32) -> [u8; CONTAINER_HEADER as usize]
    ensures { result ≡ header_of number }
{
    let [a, b, c, d] = number.to_be_bytes();
    [b'S', b'S', b'C', b'P', a, b, c, d]
}
