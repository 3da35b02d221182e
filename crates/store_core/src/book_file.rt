//! The book of a store, read from its file.
ghost use Rattle.std.specs.Prelude.{◌≡◌, ◌+◌, ℕ, List, length, take, drop, IfOk, IfSome, OnErr, IsErrOf};
ghost use Rattle.edge_traits.specs.Shelf.{content};
ghost use Rattle.sd_base.specs.Books.{IsBookDamage, IsReplay};
ghost use Rattle.sd_base.specs.declared.damage.Damage.{Damage};
ghost use Rattle.sd_base.specs.declared.file.File.TheVariants.{Book as BookFile, Seal};
ghost use Rattle.store_core.specs.BookFiles.{stated_record, whole_len};
ghost use Rattle.store_core.specs.Faults.{IsOfOpening};
ghost use Rattle.store_core.specs.Heads.{OnlyOpens};
ghost use Rattle.store_core.specs.Shelves.{OnlyReads};

use crate::StoreFault;
use edge_traits::{EdgeFault, File, Shelf};
use sd_base::{AROUND_BODY, NUMBER_LEN};
use session_book::Book;
use std::alloc::Global;

/// Bytes of a record before its body: its kind and the length of the body.
const RECORD_HEAD: usize = 1 + NUMBER_LEN;

/// Reads the committed records of a generation, one for each byte of its seal, and replays them.
/// Bytes after them are not read, so a tail costs no memory. No chunk of the records is longer than
/// `max` bytes.
pub(crate) fn read_book<F: Shelf>(
    alloc: Global,
    shelf: &mut F,
    generation: u32,
    max: u32,
) -> Result<Book, StoreFault>
    ensures committed { IfOk result (λ book. IfSome (F.files shelf.old) (λ files.
        IsReplay max (files (BookFile generation)) (length (files (Seal generation))) book)) }
    ensures replayed { IfOk result (λ book. (bytes : List ℕ) × (n : ℕ) × IsReplay max bytes n book) }
    ensures damaged { (damage : Damage) → result ≡ Err (StoreFault.Damaged damage)
        → IfSome (F.files shelf.old) (λ files. IsBookDamage max (files (BookFile generation)) (length (files (Seal generation))) damage) }
    ensures kind { (damage : Damage) → result ≡ Err (StoreFault.Damaged damage) → IsOfOpening damage }
    ensures refused { OnErr result (OnlyOpens result) }
    ensures no_store { result ≡ Err StoreFault.NoStore → ⊥ }

    ensures reads { OnlyReads (result ≡ Err StoreFault.ShelfFault) F.files F.loose F.faults F.faultless
        shelf.old shelf.new }
{
    let records = shelf.len(File::Seal(generation))?;
    let bytes = read_records(alloc, shelf, File::Book(generation), records)?;
    Ok(Book::replay(alloc, &bytes, records, max)?)
}

// The bytes of the first whole records of a file, so many as are asked for or as there are.
fn read_records<F: Shelf>(
    alloc: Global,
    shelf: &mut F,
    file: File,
    records: u64,
) -> Result<Vec<u8>, EdgeFault>
    ensures front { IfOk result (λ read. IfSome (content (F.files shelf.old) file) (λ bytes.
        read.items ≡ take (whole_len records bytes) bytes)) }

    ensures reads { OnlyReads (IsErrOf result EdgeFault.Failed) F.files F.loose F.faults F.faultless
        shelf.old shelf.new }
{
    let size = records_len(shelf, file, records)?;
    let mut bytes = vec![in alloc; 0; size as usize]?;
    let count = shelf.read_at(file, 0, &mut bytes)?;
    bytes.truncate(count);
    Ok(bytes)
}

// The bytes that the first records of a file take, by the lengths that they state. A record that is
// not whole ends them.
fn records_len<F: Shelf>(shelf: &mut F, file: File, records: u64) -> Result<u64, EdgeFault>
    ensures whole { IfOk result (λ size. IfSome (content (F.files shelf.old) file) (λ bytes.
        size ≡ whole_len records bytes)) }

    ensures reads { OnlyReads (IsErrOf result EdgeFault.Failed) F.files F.loose F.faults F.faultless
        shelf.old shelf.new }
{
    let size = shelf.len(file)?;
    let mut end = 0;
    for _ in 0..records {
        match stated_len(shelf, file, end)? {
            Some(length) if length <= size - end => end += length,
            _ => return Ok(end),
        }
    }
    Ok(end)
}

// The length of the record at a place of a file, as its first bytes state it. There is none if the
// file ends before.
fn stated_len<F: Shelf>(shelf: &mut F, file: File, at: u64) -> Result<Option<u64>, EdgeFault>
    ensures stated { IfOk result (λ stated. IfSome (content (F.files shelf.old) file) (λ bytes.
        stated ≡ stated_record (drop at bytes))) }

    ensures reads { OnlyReads (IsErrOf result EdgeFault.Failed) F.files F.loose F.faults F.faultless
        shelf.old shelf.new }
{
    let mut bytes = [0; RECORD_HEAD];
    if shelf.read_at(file, at, &mut bytes)? < RECORD_HEAD {
        return Ok(None);
    }
    let [_, b0, b1, b2, b3] = bytes;
    Ok(Some(u64::from(AROUND_BODY) + u64::from(u32::from_be_bytes([b0, b1, b2, b3]))))
}
