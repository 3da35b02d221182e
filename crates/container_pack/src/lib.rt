//! Chunks in containers: files of at most 4 MiB that begin with a header and hold the bytes of
//! chunks in order, without gaps.
//!
//! `container_count` and `places` return by the lengths of chunks how many containers they need and
//! where they lie, a `Packer` appends chunk after chunk through
//! a shelf, and `read_chunk` reads one back. `packing` of `sd_base` is the definition of the
//! containers of chunks; the shelf is that of `edge_traits`. All rules here are this project's own,
//! except that containers are filled by next fit, a heuristic of bin packing (D. S. Johnson,
//! Near-optimal bin packing algorithms, 1973).
#![tactic(auto)]

mod chunk_reader;
mod fill;
mod laws;
mod packer;
mod placing;
mod sizing;
mod spot;

pub use chunk_reader::read_chunk;
pub use laws::{chunks_lie_at_their_spots, containers_only_grow, packing_is_by_groups};
pub use packer::Packer;
pub use placing::places;
pub use sizing::{container_count, container_sizes};
pub use spot::Spot;
