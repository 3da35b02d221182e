use crate::how::How;
use crate::name::Name;
use crate::raw_params::RawParams;

/// What is wrong with a word.
#[derive(Clone, Copy, Debug, PartialEq, Eq)]
pub enum BadKind {
    /// A word is needed at the place, and there is none.
    Missing,
    /// The first word is not a command.
    Command,
    /// The word is not the name of a session.
    Name,
    /// The word is not a number in its range.
    Number,
    /// The word is not a key of the command followed by `=`.
    Key,
    /// An earlier word has the same key.
    Twice,
    /// The value is not a number in the key's range.
    Value,
}

/// The first word that fails: what is wrong with it, and its place, counted from 0.
#[derive(Clone, Copy, Debug, PartialEq, Eq)]
pub struct BadWords {
    pub kind: BadKind,
    pub place: u32,
}

/// A command that waits for nobody.
#[derive(Clone, Copy, Debug, PartialEq, Eq)]
pub enum Quiet {
    /// Cuts the input and prints its chunks.
    Plan {
        raw: RawParams,
        workers: u32,
        segment: u32,
    },
    /// Makes a store whose sessions are cut by these parameters.
    Init {
        raw: RawParams,
    },
    /// Prints the live sessions of the store.
    List,
    /// Writes the bytes of the live session of this name.
    Restore {
        name: Name,
    },
    /// Drops the live session of this name.
    Drop {
        name: Name,
    },
    /// Prints for each stored chunk how many places of live sessions name it.
    Refs,
    /// Looks whether the files of the store hold a lawful state, and prints its counts.
    Audit,
}

/// A command, as the words of the command line give it.
#[derive(Clone, Copy, Debug, PartialEq, Eq)]
pub enum Command {
    Quiet(Quiet),
    /// Takes the input into the store as a session of this name.
    Ingest { name: Name, how: How },
    /// Takes blocks of bytes that follow from a seed into the store, as a session that is named for
    /// both numbers.
    Bulk { seed: u64, blocks: u32, how: How },
}
