//! The book of a store: the records of its ingests and drops, as bytes. It uses the definitions of
//! `sd_base`, and `sha2` for the digests (FIPS 180-4). All rules here are this project's own.
#![tactic(auto)]

mod book;
mod laws;
mod lengths;
mod recipes;
mod record_reader;
mod record_writer;
mod replay;
mod step;

pub use book::Book;
pub use laws::{adding_is_replaying, no_spelling_begins_another};
pub use record_writer::encode_record;
pub use replay::BookFault;
pub use sd_base::{IngestRecord, NewChunk, NewChunks, Recipe, Record};
pub use step::{Step, next_record};
