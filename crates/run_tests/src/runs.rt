//! Runs of a command line over devices in memory.
use backup_top::{Outcome, run, run_in_memory};
use edge_traits::{EdgeFault, MemShelf, MemSink, MemSource, Sink, Source};
use std::alloc::{AllocError, Global};
use std::thread::Threads;

/// The words of a command line, which is written with a comma between each two: those after the
/// path of the store.
pub(crate) fn words(alloc: Global, line: &str) -> Result<Vec<String>, AllocError> {
    let mut words = Vec::new(alloc);
    let mut pieces = line.split(',');
    pieces.next();
    for word in pieces {
        words.push(String::from_str(alloc, word)?)?;
    }
    Ok(words)
}

/// Bytes of an input or an output.
#[derive(Drop)]
pub(crate) enum Bytes {
    /// So many zeros.
    Zeros(usize),
    /// So many bytes: zeros, except for a byte 1 at an index if that lies within them.
    OneAt(usize, usize),
    /// The bytes of a text.
    Text(&'static str),
}

/// The bytes themselves.
pub(crate) fn bytes_in(alloc: Global, bytes: &Bytes) -> Result<Vec<u8>, AllocError> {
    match bytes {
        Bytes::Zeros(length) => vec![in alloc; 0u8; *length],
        Bytes::OneAt(length, index) => zeros_with_one(alloc, *length, *index),
        Bytes::Text(text) => text.as_bytes().to_vec(alloc),
    }
}

/// Zeros, with a byte 1 at an index if that lies within them.
fn zeros_with_one(alloc: Global, length: usize, index: usize) -> Result<Vec<u8>, AllocError> {
    let mut bytes = vec![in alloc; 0u8; length]?;
    if let Some(byte) = bytes.get_mut(index) {
        *byte = 1;
    }
    Ok(bytes)
}

/// How a run on an input in memory ends, and the sink that it wrote to.
pub(crate) fn ended<H: Threads + Sync>(
    rt: &H,
    alloc: Global,
    shelf: &mut MemShelf,
    line: &str,
    input: &Bytes,
) -> Result<(Outcome, MemSink), AllocError> {
    let words = words(alloc, line)?;
    let input = bytes_in(alloc, input)?;
    Ok(run_in_memory(rt, alloc, words.as_slice(), input, shelf))
}

/// Whether a run on an input in memory ends so and writes this.
pub(crate) fn ends_as<H: Threads + Sync>(
    rt: &H,
    alloc: Global,
    shelf: &mut MemShelf,
    line: &str,
    input: &Bytes,
    ending: Outcome,
    output: &Bytes,
) -> Result<bool, AllocError> {
    let output = bytes_in(alloc, output)?;
    let (outcome, sink) = ended(rt, alloc, shelf, line, input)?;
    Ok(outcome == ending && sink.written() == output.as_slice())
}

/// A run over devices that fail as planned.
pub(crate) struct Planned {
    pub(crate) line: &'static str,
    /// It is read one byte at a time.
    pub(crate) input: Bytes,
    /// The read that fails and the write that fails, counted from 0.
    pub(crate) failing: (u32, u32),
    pub(crate) ending: Outcome,
    pub(crate) output: &'static str,
    /// What a read of one byte returns after the run, and that byte.
    pub(crate) next_read: (Result<usize, EdgeFault>, u8),
    /// What a write of one byte returns after the run.
    pub(crate) next_write: Result<usize, EdgeFault>,
}

/// A source of at most 300 bytes, which are read one by one. The read of this number fails.
pub(crate) fn byte_by_byte(
    alloc: Global,
    input: &Bytes,
    failing: u32,
) -> Result<MemSource, AllocError> {
    let bytes = bytes_in(alloc, input)?;
    let failing = vec![in alloc; failing]?;
    let sizes = vec![in alloc; 1u32; 300]?;
    Ok(MemSource::new(alloc, bytes, sizes, failing))
}

/// Whether a run over devices that fail goes as planned.
pub(crate) fn goes_as_planned<H: Threads + Sync>(
    rt: &H,
    alloc: Global,
    shelf: &mut MemShelf,
    planned: &Planned,
) -> Result<bool, AllocError> {
    let words = words(alloc, planned.line)?;
    let mut source = byte_by_byte(alloc, &planned.input, planned.failing.0)?;
    let mut sink = MemSink::new(alloc, vec![in alloc; planned.failing.1]?);
    let outcome = run(rt, alloc, words.as_slice(), &mut source, &mut sink, shelf);
    let is_written = sink.written() == planned.output.as_bytes();
    Ok(outcome == planned.ending && is_written && left_so(source, sink, planned))
}

/// Whether the devices are left as planned.
fn left_so(mut source: MemSource, mut sink: MemSink, planned: &Planned) -> bool {
    let mut byte = [0];
    source.read(&mut byte) == planned.next_read.0
        && byte[0] == planned.next_read.1
        && sink.write(b"x") == planned.next_write
}
