//! The replay of a book.
ghost use Rattle.std.specs.Prelude.{◌≡◌, ◌↔◌, ◌≤◌, drop, length, option_map, IfOk, Ok, Err};
ghost use Rattle.sd_base.specs.Books.{BookState, IsReplay, IsBookDamage};
ghost use Rattle.sd_base.specs.declared.damage.Damage.{Damage};
ghost use Rattle.session_book.specs.Replaying.{UnlessOutOfMemory, TakesRecord, ReadsRecords, Replays};

use crate::book::Book;
use crate::step::{Step, next_record};
use sd_base::{Damage, OutOfMemory};
use std::alloc::Global;

/// Why a book was not replayed.
#[derive(Clone, Copy, Debug, PartialEq, Eq)]
pub enum BookFault {
    /// A record or a recipe is not as it must be.
    Damaged(Damage),
    /// Memory ran out.
    OutOfMemory,
}

impl Book {
    /// The book of the first `records` records of bytes, of which none has a chunk longer than
    /// `max` bytes. The bytes after them are not looked at.
    pub fn replay(alloc: Global, bytes: &[u8], records: u64, max: u32) -> Result<Book, BookFault>
        // A book is returned exactly if that many records stand there and no recipe fails.
        ensures whole { UnlessOutOfMemory result ((book : BookState) →
            (result ≡ Ok book) ↔ IsReplay max bytes.now records book) }

        // A damage is returned exactly if it is the first: of the records, or of the recipes if no
        // record is bad.
        ensures damaged { UnlessOutOfMemory result ((damage : Damage) →
            (result ≡ Err (BookFault.Damaged damage)) ↔ IsBookDamage max bytes.now records damage) }
    {
        checked_book(alloc, bytes, records, max)
    }
}

// The book of the records that bytes begin with, if no recipe fails.
fn checked_book(alloc: Global, bytes: &[u8], records: u64, max: u32) -> Result<Book, BookFault>
    ensures { Replays max bytes.now records result }
{
    let book = read_book(alloc, bytes, records, max)?;
    match book.first_damage() {
        Some(damage) => Err(BookFault::Damaged(damage)),
        None => Ok(book),
    }
}

// The book of the records that bytes begin with, whatever their recipes.
fn read_book(alloc: Global, bytes: &[u8], records: u64, max: u32) -> Result<Book, BookFault>
    ensures { ReadsRecords max bytes.now records result }
{
    let mut book = Book::empty(alloc, max);
    let mut rest = bytes;
    for k in 0..records {
        match take_record(alloc, &mut book, rest) {
            Ok(Some(after)) => rest = after,
            Ok(None) => return Err(BookFault::Damaged(Damage::Record(k as u32))),
            Err(OutOfMemory) => return Err(BookFault::OutOfMemory),
        }
    }
    Ok(book)
}

// Adds the record at the front of bytes to a book, and returns the bytes after it; nothing, if no
// record stands there that may follow.
fn take_record<'a>(
    alloc: Global,
    book: &mut Book,
    bytes: &'a [u8],
) -> Result<Option<&'a [u8]>, OutOfMemory>
    ensures { IfOk result (λ rest. TakesRecord book.old book.new bytes.now (option_map (λ x. x.now) rest)) }
{
    match next_record(alloc, bytes)? {
        Step::Whole(entry, size) => {
            if !book.may_add(&entry) {
                return Ok(None);
            }
            book.add(entry)?;
            Ok(Some(bytes_after(bytes, size)))
        }
        Step::Short | Step::Bad => Ok(None),
    }
}

// What stands after the first bytes.
fn bytes_after(bytes: &[u8], size: u32) -> &[u8]
    requires { size ≤ length bytes.now }
    ensures { result.now ≡ drop size bytes.now }
{
    &bytes[size as usize..]
}
