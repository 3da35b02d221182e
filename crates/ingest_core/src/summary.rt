/// What was taken in: the four numbers that the text of an ingest prints.
#[derive(Clone, Copy, Debug, PartialEq, Eq)]
pub struct Summary {
    /// The number of the session.
    pub session: u32,
    /// Bytes of the input.
    pub bytes: u64,
    /// The number of chunks of the input.
    pub places: u32,
    /// The number of chunks that the store did not have.
    pub fresh: u32,
}
