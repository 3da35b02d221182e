//! The second stage of cutting: it walks the map of candidates and applies the minimum and the
//! maximum of chunks. It reads no byte of the text. The crate uses `sd_base` and the maps of
//! `candidate_map`.
#![tactic(auto)]

mod cuts;
mod next;

pub use cuts::cuts_from;
pub use next::next_cut;
