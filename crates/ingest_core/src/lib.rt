//! The commands that cut an input. `plan` cuts it and names its chunks, and `ingest` opens a store,
//! reads an input, cuts it, names its chunks and commits one session, both by workers. `ingest`
//! offers each distinct chunk of its input once: a chunk is offered only if it is its own leader.
//!
//! The crate uses the definitions of `sd_base`, the source and the shelf of `edge_traits`, the namers
//! of `chunk_names` and the store of `store_core`. It cuts by `segment_scan` and `cut_walk`, with the
//! maps of `candidate_map`, and finds leaders by `shard_plan`. An audit names the chunks of a batch
//! by `rayon`. All rules here are this project's own.
#![tactic(auto)]

mod auditing;
mod cuts;
mod fault;
mod leaders;
mod line;
mod offering;
mod opening;
mod planning;
mod reading;
mod session;
mod summary;
mod taking_in;

pub use auditing::{Audited, audit};
pub use cuts::cuts_of_text;
pub use fault::IngestFault;
pub use line::Line;
pub use planning::plan;
pub use session::ingest;
pub use summary::Summary;
