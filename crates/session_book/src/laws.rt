//! Laws of the records of a book.
ghost use Rattle.sd_base.specs.Books.{AddingIsReplaying};
ghost use Rattle.sd_base.specs.Records.{NoSpellingBeginsAnother};

/// No spelling of a record is a proper prefix of another, and no two records have one spelling. So
/// a book has one reading.
pub fn no_spelling_begins_another()
    ensures { NoSpellingBeginsAnother }
{}

/// A book with one more record, which may follow, is the replay of the old records and this one, if
/// no recipe of the new book fails.
pub fn adding_is_replaying()
    ensures { AddingIsReplaying }
{}
