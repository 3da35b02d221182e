//! The bit map between the two stages of cutting: the first stage marks the candidates of a text in
//! it, and the second stage walks it. Contracts see a map as the set of its positions. The crate
//! uses `sd_base` alone.
#![tactic(auto)]

mod plain_map;

pub use plain_map::PlainMap;
