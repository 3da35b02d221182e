//! The chunks of a text that have equal bytes are found before the store is asked. `Items` are the
//! chunks with their names, a `ShardPlan` gives each shard of names a region of words, and
//! `leaders_by_fold` finds for each chunk the first one with its bytes, by a parallel sort of
//! their names' last eight bytes.
//!
//! Names are never trusted: two chunks are the same only if their bytes are. All rules here are
//! this project's own. The crate uses `sd_base`, `chunk_names` in tests, and `rayon` for the sort.
#![tactic(auto)]

mod fold;
mod items;
mod regions;

pub use fold::leaders_by_fold;
pub use items::Items;
pub use regions::ShardPlan;
