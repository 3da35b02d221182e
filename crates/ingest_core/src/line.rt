/// A chunk of an input as a plan shows it.
#[derive(Clone, Copy, Debug, PartialEq, Eq)]
pub struct Line {
    /// Where the chunk begins in the input.
    pub offset: u32,
    /// Bytes of the chunk.
    pub length: u32,
    /// The name of the chunk.
    pub name: [u8; 32],
}
