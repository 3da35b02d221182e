use edge_traits::{EdgeFault, Sink, Source, StdSink, StdSource, read_all, write_all};
use std::alloc::Allocator;
use std::fmt::Display;
use std::io;
use std::io::{BufRead, ErrorKind, Lines, Read};
use std::sync::atomic::AtomicU64;
use std::sync::atomic::Ordering::SeqCst;
use std::test::Fail;

/// Standard input that fails so many times with one kind of error and then has `abc`. The next read
/// is at the end, and those after it have more bytes, as a terminal may. It counts its reads.
#[derive(Clone, Copy)]
struct Keyboard<'a> {
    kind: ErrorKind,
    failures: u64,
    reads: &'a AtomicU64,
}

impl Read for Keyboard<'_> {
    fn read(&mut self, buf: &mut [u8]) -> io::Result<usize> {
        let number = self.reads.fetch_add(1, SeqCst);
        if number < self.failures {
            return Err(self.kind.into());
        }
        if number - self.failures == 1 {
            return Ok(0);
        }
        let mut rest = b"abc".as_slice();
        rest.read(buf)
    }
}

impl BufRead for Keyboard<'_> {
    fn fill_buf(&mut self) -> io::Result<&[u8]> {
        Ok(b"abc")
    }

    fn consume(&mut self, _amount: usize) {}
}

impl<'a> Input for Keyboard<'a> {
    type Reader = Keyboard<'a>;

    fn read_line<A: Allocator + Clone>(&self, _buf: &mut String<A>) -> io::Result<usize> {
        Ok(0)
    }

    fn lines<A: Allocator>(&self, alloc: A) -> Lines<Keyboard<'a>, A> {
        self.reader().lines(alloc)
    }

    fn reader(&self) -> Keyboard<'a> {
        *self
    }
}

/// Whether a read of standard input that fails so many times at first returns this, after so many
/// calls.
fn reads(kind: ErrorKind, failures: u64, returned: Result<usize, EdgeFault>, calls: u64) -> bool {
    let reads = AtomicU64::new(0);
    let mut source = StdSource::new(Keyboard {
        kind,
        failures,
        reads: &reads,
    });
    let mut into = [0u8; 4];
    source.read(&mut into) == returned && reads.load(SeqCst) == calls
}

/// The error, how often it comes, what a read returns then, and after how many calls.
static READS: [(ErrorKind, u64, Result<usize, EdgeFault>, u64); 7] = [
    (ErrorKind::Interrupted, 1, Ok(3), 2),
    (ErrorKind::Interrupted, 64, Ok(3), 65),
    (ErrorKind::Interrupted, 65, Err(EdgeFault::Failed), 65),
    (ErrorKind::WouldBlock, 1, Err(EdgeFault::Failed), 1),
    (ErrorKind::IsADirectory, 1, Err(EdgeFault::Failed), 1),
    (ErrorKind::UnexpectedEof, 1, Err(EdgeFault::Failed), 1),
    (ErrorKind::Other, 1, Err(EdgeFault::Failed), 1),
];

#[test]
fn an_interrupted_read_is_made_again_64_times_and_no_other_error_is_an_end(rt: HostRuntime) {
    for (kind, failures, returned, calls) in &READS {
        let is_so = reads(*kind, *failures, *returned, *calls);
        assert!(rt; is_so, "{kind:?} {failures} times");
    }
}

#[test]
fn the_end_is_read_once(rt: HostRuntime) -> Result<(), Fail> {
    let reads = AtomicU64::new(0);
    let mut source = StdSource::new(Keyboard {
        kind: ErrorKind::Other,
        failures: 0,
        reads: &reads,
    });
    let bytes = read_all(rt.alloc(), &mut source, 9)?;
    assert!(rt; bytes.as_slice() == b"abc".as_slice() && reads.load(SeqCst) == 2);
    Ok(())
}

/// Standard output that is interrupted so many times, takes at most so many bytes of each piece,
/// and fails at a piece of none. It counts its writes and the bytes that it took, and keeps the
/// last eight of them, in big-endian order.
#[derive(Drop)]
struct Pipe {
    interruptions: u64,
    most: usize,
    writes: AtomicU64,
    taken: AtomicU64,
    last: AtomicU64,
}

impl Pipe {
    fn new(interruptions: u64, most: usize) -> Self {
        Pipe {
            interruptions,
            most,
            writes: AtomicU64::new(0),
            taken: AtomicU64::new(0),
            last: AtomicU64::new(0),
        }
    }
}

impl Print for Pipe {
    fn print<D: Display + Drop>(&self, _value: D) -> io::Result<()> {
        Ok(())
    }

    fn println<D: Display + Drop>(&self, _value: D) -> io::Result<()> {
        Ok(())
    }

    fn write_all(&self, _bytes: &[u8]) -> io::Result<()> {
        Ok(())
    }

    fn write_some(&self, bytes: &[u8]) -> io::Result<usize> {
        if self.writes.fetch_add(1, SeqCst) < self.interruptions {
            return Err(ErrorKind::Interrupted.into());
        }
        if bytes.is_empty() {
            return Err(ErrorKind::InvalidInput.into());
        }
        let count = bytes.len().min(self.most);
        for byte in &bytes[..count] {
            let before = self.last.load(SeqCst);
            self.last.store(before << 8 | u64::from(*byte), SeqCst);
        }
        self.taken.fetch_add(count as u64, SeqCst);
        Ok(count)
    }
}

/// Whether a write to standard output that is interrupted so many times at first, and takes at most
/// so many bytes, returns this, after so many calls.
fn writes(
    piece: &[u8],
    interruptions: u64,
    most: usize,
    returned: Result<usize, EdgeFault>,
    calls: u64,
) -> bool {
    let pipe = Pipe::new(interruptions, most);
    let mut sink = StdSink::new(&pipe);
    sink.write(piece) == returned && pipe.writes.load(SeqCst) == calls
}

/// The piece, the interruptions, the most bytes that are taken, what a write returns, and after how
/// many calls.
static WRITES: [(&[u8], u64, usize, Result<usize, EdgeFault>, u64); 6] = [
    (b"abc", 1, 9, Ok(3), 2),
    (b"abc", 64, 9, Ok(3), 65),
    (b"abc", 65, 9, Err(EdgeFault::Failed), 65),
    (b"abc", 0, 2, Ok(2), 1),
    (b"", 0, 2, Err(EdgeFault::Failed), 1),
    (b"abc", 0, 0, Err(EdgeFault::Failed), 1),
];

#[test]
fn an_interrupted_write_is_made_again_64_times_and_one_that_takes_nothing_fails(rt: HostRuntime) {
    for (piece, interruptions, most, returned, calls) in &WRITES {
        let is_so = writes(piece, *interruptions, *most, *returned, *calls);
        assert!(rt;
            is_so,
            "{interruptions} interruptions, at most {most} bytes"
        );
    }
}

/// Whether a piece is written whole to standard output that takes at most so many bytes at once, in
/// so many calls, and these are the last that it took.
fn takes(piece: &[u8], most: usize, calls: u64, last: [u8; 8]) -> bool {
    let pipe = Pipe::new(0, most);
    write_all(&mut StdSink::new(&pipe), piece).is_ok()
        && pipe.taken.load(SeqCst) == piece.len() as u64
        && pipe.writes.load(SeqCst) == calls
        && pipe.last.load(SeqCst).to_be_bytes() == last
}

#[test]
fn a_piece_is_written_in_order_in_as_many_parts_as_it_takes(rt: HostRuntime) -> Result<(), Fail> {
    let zeros = vec![in rt.alloc(); 0u8; 3 << 20]?;
    assert!(rt; takes(b"abcde", 2, 3, *b"\0\0\0abcde"), "five bytes");
    assert!(rt; takes(&zeros, 5_000, 630, [0; 8]), "at most 5000 at once");
    assert!(rt; takes(&zeros, 2 << 20, 2, [0; 8]), "at most 2 MiB at once");
    Ok(())
}
