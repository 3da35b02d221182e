//! The first stage of cutting: it scans a text with a rolling fingerprint and marks the candidates
//! in a map. `scan_range` scans a range of positions, and `scan_all` a whole text by workers that
//! share its segments. The crate uses the fingerprints of `rabin_window` and the maps of
//! `candidate_map`.
#![tactic(auto)]

mod low_bits;
mod scan;
mod workers;

pub use scan::scan_range;
pub use workers::scan_all;
