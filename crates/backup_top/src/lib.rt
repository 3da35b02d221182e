//! The top of the tool: reads the words, runs the command that they name, and says how the run
//! ended. It uses the definitions of `sd_base`, the devices of `edge_traits` and the names of
//! `chunk_names`. It cuts, takes in and audits by `ingest_core`. By `store_core` it makes and opens a
//! store, restores and drops sessions, and counts references. All rules here are this project's own.
#![tactic(auto)]

mod audit;
mod audit_text;
mod bulk;
mod bulk_name;
mod drop_text;
mod dropping;
mod in_memory;
mod ingest;
mod ingest_text;
mod init;
mod keys;
mod line_fields;
mod list;
mod list_text;
mod name_digits;
mod name_text;
mod notes;
mod opened;
mod plan;
mod plan_text;
mod reference_cutting;
mod refs;
mod refs_text;
mod restore;
mod runner;
mod settings;
mod store_outcome;
mod words;
mod write_made;

pub use in_memory::run_in_memory;
pub use notes::{note_of, status_of};
pub use reference_cutting::plain_cuts;
pub use runner::{run, run_quiet};
pub use sd_base::{BadKind, BadParams, BadWords, Command, Outcome, Quiet, RawParams};
pub use words::read_words;
