use crate::damage::Damage;
use crate::params::BadParams;
use crate::words::BadWords;

/// How a run ended.
#[derive(Clone, Copy, Debug, PartialEq, Eq)]
pub enum Outcome {
    /// The command was carried out, and its whole text was written.
    Done,
    /// A word is missing, or is not what must stand there; nothing was read or written.
    BadWords(BadWords),
    /// A number that steers cutting is out of its range; nothing was read or written.
    BadParams(BadParams),
    /// There is no store; nothing was taken from the input or printed.
    NoStore,
    /// The head has at least 33 bytes, so there is a store; nothing was taken from the input or printed.
    StoreThere,
    /// A live session has the name; nothing was taken from the input or printed.
    NameTaken,
    /// No live session has the name; nothing was printed.
    NoSession,
    /// The files of the store are damaged. Only a restore may have written then: the chunks before the
    /// damaged one.
    Damaged(Damage),
    /// The input has more than 2^28 bytes; nothing was printed.
    InputTooLong,
    /// The store has as many sessions as it may have; nothing was taken from the input or printed.
    TooManySessions,
    /// The store would have too many places; nothing was printed.
    TooManyPlaces,
    /// The store would have too many chunks; nothing was printed.
    TooManyChunks,
    /// Reading the input failed; nothing was printed.
    SourceFault,
    /// Writing failed; a prefix of the command's text was written.
    SinkFault,
    /// A call on the store's files failed; nothing was printed, except that a restore may have written a
    /// prefix of its text.
    ShelfFault,
    /// Memory ran out; a prefix of the command's text was written.
    OutOfMemory,
}
