//! The base of the tool: what its other crates share. It has the parameters of cutting, the limits,
//! the names of sessions, the words of the command line, the outcomes of a run, the damage of a
//! store and the records of its book. `specs/` has the definitions that contracts cite, one file a
//! subject: what is cut, packed, recorded, read and printed, and how a run ends.
//!
//! All rules here are this project's own, except four, each named at its item. The window, the test
//! of a fingerprint's low bits, a minimum and a maximum, and their defaults are those of LBFS (SOSP
//! 2001, section 3.1). A fingerprint is Rabin's (Fingerprinting by Random Polynomials, 1981). The
//! name of a chunk is its SHA-256 (FIPS 180-4). Chunks are packed by next fit.
//!
//! The crate uses no other crate of the project. Its definitions of printed text and of records use
//! those of `sha2` and `hex`.
#![tactic(auto)]

mod cutting_laws;
mod damage;
mod file;
mod flaw_laws;
mod gate;
mod how;
mod laws;
mod limits;
mod name;
mod out_of_memory;
mod outcome;
mod params;
mod raw_params;
mod record;
mod state_laws;
mod words;

pub use cutting_laws::{candidates_are_of_their_chunk, cuttings_are_by_chunks};
pub use damage::Damage;
pub use file::File;
pub use flaw_laws::{
    counts_are_those_of_the_book, files_have_one_first_flaw,
    flawless_files_are_those_of_lawful_states,
};
pub use gate::{Gate, OpenGate, Stage};
pub use how::How;
pub use laws::{
    bulk_inputs_have_their_length, chunks_cover_the_input, chunks_go_on_in_the_tail,
    names_are_the_refusals, next_cut_is_the_least, ranges_are_the_refusals,
    words_give_fields_in_range,
};
pub use limits::{
    BLOCK_LEN, BLOCK_STATES, COMMIT_BYTE, CONTAINER_HEADER, DEFAULT_BATCH, DEFAULT_BITS,
    DEFAULT_MAX, DEFAULT_MIN, DEFAULT_POLYNOMIAL, DEFAULT_SEGMENT, DEFAULT_SHARDS, DEFAULT_TARGET,
    DEFAULT_WORKERS, MAX_BATCH, MAX_BITS, MAX_BLOCKS, MAX_CHUNK_LEN, MAX_CHUNKS, MAX_CONTAINER,
    MAX_GENERATION, MAX_INPUT, MAX_NAME, MAX_PLACES, MAX_SEGMENT, MAX_SESSIONS, MAX_SHARDS,
    MAX_WORKERS, METHOD_RABIN, MIN_BATCH, MIN_CHUNK_LEN, MIN_POLYNOMIAL, OPEN_HEAD_LEN,
    SETTINGS_LEN, SETTINGS_VERSION, STATE_BYTES, WINDOW,
};
pub use name::{BadName, Name};
pub use out_of_memory::OutOfMemory;
pub use outcome::Outcome;
pub use params::{BadParams, Params};
pub use raw_params::RawParams;
pub use record::{
    AROUND_BODY, DIGEST_LEN, DROP_KIND, INGEST_KIND, IngestRecord, Items, NUMBER_LEN, NewChunk,
    NewChunks, Recipe, Record, Session,
};
pub use state_laws::{
    container_sizes_are_by_lengths, distinct_chunks_are_each_once, each_state_has_its_files,
    held_states_open, inputs_are_given_back, recipes_name_their_chunks, runs_keep_states_lawful,
    stores_only_grow,
};
pub use words::{BadKind, BadWords, Command, Quiet};
