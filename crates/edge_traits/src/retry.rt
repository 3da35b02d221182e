//! One read or one write, tried again if a signal interrupts it.
ghost use Rattle.std.specs.Prelude.{◌≤◌, length, IfOk};
ghost use Rattle.std.specs.Io.KnownBytes.{ReadConsumes, WriteAppends};

use std::io;
use std::io::{ErrorKind, Read, Write};

/// How often an interrupted call is made again before its error is returned. The reader and the
/// writer of std make it once.
const RETRIES: u32 = 64;

pub(crate) fn read_retrying<R: Read>(reader: &mut R, into: &mut [u8]) -> io::Result<usize>
    ensures bound { IfOk result (λ k. k ≤ length into.new) }
    ensures bytes { ReadConsumes (R.remaining reader.old) (R.remaining reader.new) result into.new }
{
    for _ in 0..RETRIES {
        match reader.read(into) {
            Err(error) if error.kind() == ErrorKind::Interrupted => {}
            result => return result,
        }
    }
    reader.read(into)
}

pub(crate) fn write_retrying<W: Write>(writer: &mut W, bytes: &[u8]) -> io::Result<usize>
    ensures bound { IfOk result (λ k. k ≤ length bytes.now) }
    ensures bytes { WriteAppends (W.contents writer.old) (W.contents writer.new) result bytes.now }
{
    for _ in 0..RETRIES {
        match writer.write(bytes) {
            Err(error) if error.kind() == ErrorKind::Interrupted => {}
            result => return result,
        }
    }
    writer.write(bytes)
}
