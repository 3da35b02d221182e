//! The edges of the tool: where bytes come from, where they go to, and where the files of a store
//! lie. Each edge is a trait with a written meaning, so that the code above can say what it does
//! with the bytes. All rules here are this project's own.
//!
//! The traits are `Source`, `Sink` and `Shelf`; a value that implements one of them is a device. A
//! device is observable if its contents are known to the contract: the bytes that a source has
//! left, those that were written to a sink, the files of a shelf. `MemSource`, `MemSink`,
//! `MemShelf`, `NoShelf` and `BulkSource` are observable. The first three fail only at calls that
//! are planned in advance, and the last never: it makes the input of `bulk`. `StdSource` and `StdSink` are standard input and output, and `FolderShelf` is a folder
//! of files. These three are not observable.
//!
//! `read_all` reads a whole input, and `write_all` writes a whole piece.
#![tactic(auto)]

mod bulk_source;
mod copy;
mod entries;
mod fault;
mod fault_plan;
mod file_io;
mod file_names;
mod folder;
mod folder_shelf;
mod generator;
mod mem_shelf;
mod mem_sink;
mod mem_source;
mod no_shelf;
mod open_files;
mod retry;
mod shelf;
mod shelf_plan;
mod sink;
mod sink_writer;
mod source;
mod source_reader;
mod std_sink;
mod std_source;
mod tally;

pub use bulk_source::BulkSource;
pub use fault::EdgeFault;
pub use folder_shelf::FolderShelf;
pub use mem_shelf::MemShelf;
pub use mem_sink::MemSink;
pub use mem_source::MemSource;
pub use no_shelf::NoShelf;
pub use sd_base::File;
pub use shelf::Shelf;
pub use shelf_plan::ShelfFail;
pub use sink::Sink;
pub use sink_writer::write_all;
pub use source::Source;
pub use source_reader::{ReadFault, read_all};
pub use std_sink::StdSink;
pub use std_source::StdSource;
