//! Whole reads and writes over a reader or a writer that may take a piece in parts.
ghost use Rattle.std.specs.Prelude.{◌≡◌, ◌≤◌, ◌<◌, ◌+◌, ℕ, length, take, drop, IfOk, OnOk, OnErr};
ghost use Rattle.std.specs.Io.KnownBytes.{Consumes, IsAtEnd, Appends};

use crate::retry::{read_retrying, write_retrying};
use std::io;
use std::io::{ErrorKind, Read, Write};
use std::os::unix::fs::FileExt;

/// A file as a reader, from an offset on.
#[derive(Drop)]
pub(crate) struct ReaderAt<'a, F> {
    pub(crate) handle: &'a F,
    pub(crate) offset: u64,
}

impl<F: FileExt> Read for ReaderAt<'_, F> {
    fn read(&mut self, into: &mut [u8]) -> io::Result<usize> {
        let count = self.handle.read_at(into, self.offset)?;
        self.offset = self.offset.saturating_add(count as u64);
        Ok(count)
    }
}

/// Reads until the piece is full or the reader is at its end, and returns how many bytes it read.
pub(crate) fn read_full<R: Read>(reader: &mut R, into: &mut [u8]) -> io::Result<usize>
    ensures bound { IfOk result (λ k. k ≤ length into.new) }
    ensures bytes { IfOk result (λ k.
        Consumes (R.remaining reader.old) (R.remaining reader.new) (take k into.new)) }
    ensures at_end { IfOk result (λ k. k < length into.new → IsAtEnd (R.remaining reader.new)) }
{
    let mut done = 0;
    while done < into.len() {
        let count = read_after(reader, into, done)?;
        if count == 0 {
            break;
        }
        done += count;
    }
    Ok(done)
}

/// One read into the piece, after its first `done` bytes.
fn read_after<R: Read>(reader: &mut R, into: &mut [u8], done: usize) -> io::Result<usize>
    requires { done < length into.old }
    ensures kept { take done into.new ≡ take done into.old }
    ensures bound { IfOk result (λ k. done + k ≤ length into.new) }
    ensures bytes { IfOk result (λ k.
        Consumes (R.remaining reader.old) (R.remaining reader.new) (take k (drop done into.new))) }
    ensures at_end { IfOk result (λ k. k ≡ 0 → IsAtEnd (R.remaining reader.new)) }
{
    read_retrying(reader, &mut into[done..])
}

/// Writes the whole piece, in as many parts as the writer takes. Fails if the writer takes nothing.
/// After a failure a prefix of the piece was written.
pub(crate) fn write_full<W: Write>(writer: &mut W, bytes: &[u8]) -> io::Result<()>
    ensures written { OnOk result
        (Appends (W.contents writer.old) (W.contents writer.new) bytes.now) }
    ensures prefix { OnErr result ((k : ℕ) × (k ≤ length bytes.now)
        × Appends (W.contents writer.old) (W.contents writer.new) (take k bytes.now)) }
{
    let mut done = 0;
    while done < bytes.len() {
        let count = write_retrying(writer, &bytes[done..])?;
        if count == 0 {
            return Err(ErrorKind::WriteZero.into());
        }
        done += count;
    }
    Ok(())
}
