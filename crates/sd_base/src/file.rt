/// A file of a store. The first number is the generation. A file that does not exist is empty.
#[derive(Clone, Copy, Debug, PartialEq, Eq)]
pub enum File {
    /// The settings, the byte that opens the store, and one byte for each later generation.
    Head,
    /// One byte for each committed record of a generation.
    Seal(u32),
    /// The records of a generation, one after another.
    Book(u32),
    /// A header and the chunks of a container, by generation and number.
    Container(u32, u32),
}
