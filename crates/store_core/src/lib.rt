//! The store: what a folder of files holds, as one value. It uses the definitions of `sd_base`, the
//! shelf of `edge_traits`, the sizes of `container_pack`, the namers of `chunk_names`, the book of
//! `session_book` and the counts of `ref_ledger`. All rules here are this project's own.
//!
//! `init` makes a store and `Store::open` opens one. Its chunks are offered (`offer`), then committed as
//! a session (`commit`); a session is restored (`restore`) and dropped (`drop_session`); `refs` counts
//! the places of live sessions that name a chunk. A store is held to the verdict of opening that
//! `sd_base` defines: what is first found wrong is named, in the order head, records, recipes,
//! containers. No files have two verdicts (`opening_has_one_verdict`), and none hold two states
//! (`files_hold_one_state`).
#![tactic(auto)]

mod book_file;
mod chunk_list;
mod commit_byte;
mod commit_files;
mod containers;
mod fault;
mod head_file;
mod laws;
mod name_index;
mod new_store;
mod settings;
mod store;

pub use fault::StoreFault;
pub use laws::{files_hold_one_state, held_states_are_undamaged, opening_has_one_verdict};
pub use new_store::init;
pub use settings::settings_of;
pub use store::Store;
