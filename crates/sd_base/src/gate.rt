/// The stages of an ingest that call a gate.
#[derive(Clone, Copy, Debug, PartialEq, Eq)]
pub enum Stage {
    /// Candidates of a batch are sought. A piece is a segment.
    Scan,
    /// Chunks of a batch are named. A piece is the share of a worker.
    Name,
    /// Equal chunks of a batch are found. A piece is the share of a worker.
    Race,
    /// Chunks of a batch are stored. There is one piece.
    Store,
}

/// What a worker calls as it begins a piece of work, so that a test can see that pieces run at the
/// same time. Stages, batches and pieces are counted from 0.
pub trait Gate: Sync {
    /// A piece of a batch begins. An implementation may note this or wait for another piece; what the
    /// caller answers must not depend on it.
    fn at(&self, stage: Stage, batch: u32, piece: u32);
}

/// The gate that does nothing, which the program uses.
#[derive(Clone, Copy, Debug, PartialEq, Eq)]
pub struct OpenGate;

impl Gate for OpenGate {
    fn at(&self, stage: Stage, batch: u32, piece: u32) {}
}
