/// How a command is carried out. No definition of what it does cites these numbers.
#[derive(Clone, Copy, Debug, PartialEq, Eq)]
pub struct How {
    /// The number of workers.
    pub workers: u32,
    /// Bytes of a segment: what a worker scans at a time.
    pub segment: u32,
    /// Bytes of a batch: what is taken of the input at a time.
    pub batch: u32,
    /// The number of shards of the index in which equal chunks are found.
    pub shards: u32,
}
