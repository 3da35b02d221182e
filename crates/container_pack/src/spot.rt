//! The place of a chunk in its container.

/// Where a chunk lies: the number of its container, counted from 0, and how many bytes of the
/// container come before it.
#[derive(Clone, Copy, Debug, PartialEq, Eq)]
pub struct Spot {
    pub container: u32,
    pub offset: u32,
}
