/// What is wrong with a store: the first flaw that is found, with the least numbers that name it.
/// Records, sessions, places, containers and chunks are counted from 0.
///
/// A replay of a book returns `Record` or `Recipe`, and opening a store also `Head` or `Container`.
/// Offering a chunk and restoring a session return `Chunk`. An audit opens the store, and then looks
/// for `Mark`, `Chunk`, `Twin`, `Order` and `Cut`.
#[derive(Clone, Copy, Debug, PartialEq, Eq)]
pub enum Damage {
    /// The settings exist but are not those of valid parameters, or there are more than 65,535
    /// later generations.
    Head,
    /// A committed record is not whole, is not of the grammar, has a new chunk longer than the
    /// longest that the parameters allow, ingests a name that is live, drops a session that is not
    /// live, or passes a limit on sessions, places or chunks.
    Record(u32),
    /// The entry at the place is not below the number of chunks of the book up to and with this
    /// record. If `place` is the number of places, all entries are in range, and the lengths of the
    /// chunks that they name do not sum to the length of the input.
    Recipe {
        session: u32,
        place: u32,
    },
    /// The packing of the chunks needs more bytes of a container than its file has.
    Container {
        number: u32,
        needed: u64,
        found: u64,
    },
    /// The first eight bytes of a container, as the number `found`, are not its header.
    Mark {
        number: u32,
        found: u64,
    },
    /// The bytes of a chunk, as they are read, have another name than the one that the book keeps.
    Chunk {
        number: u32,
        kept: [u8; 32],
        found: [u8; 32],
    },
    /// Two chunks have equal bytes: `second` is the least number that has an equal one below it,
    /// and `first` is the least equal one.
    Twin {
        first: u32,
        second: u32,
    },
    /// The entry at the place is above the number of chunks that occurred before it. If `place` is
    /// the number of places, a new chunk of this record occurs nowhere in its recipe.
    Order {
        session: u32,
        place: u32,
    },
    /// The chunk at the place is not the one that the cutting of the session's bytes has there.
    Cut {
        session: u32,
        place: u32,
    },
}
