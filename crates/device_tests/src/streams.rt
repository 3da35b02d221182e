use edge_traits::{EdgeFault, MemSink, MemSource, ReadFault, Sink, Source, read_all, write_all};
use std::test::Fail;

// These have no clause, so that the proof of a test does not carry what each call ensures.

/// Whether a source of a text is read to these bytes, up to a limit, into a small buffer, or ends
/// with this fault.
fn reads_whole(
    rt: HostRuntime,
    text: &[u8],
    limit: u32,
    wanted: Result<&[u8], ReadFault>,
) -> Result<bool, Fail> {
    let bytes = text.to_vec(rt.alloc())?;
    let (sizes, failing) = (Vec::new(rt.alloc()), Vec::new(rt.alloc()));
    let mut source = MemSource::new(rt.alloc(), bytes, sizes, failing);
    Ok(match read_all(rt.alloc(), &mut source, limit) {
        Ok(whole) => wanted == Ok(whole.as_slice()) && whole.capacity() <= 1 << 16,
        Err(fault) => wanted == Err(fault),
    })
}

/// A text, a limit, and what is read up to the limit.
static READS: [(&[u8], u32, Result<&[u8], ReadFault>); 3] = [
    (b"abc", 3, Ok(b"abc")),
    (b"abcd", 3, Err(ReadFault::InputTooLong)),
    // A limit takes no memory for bytes that do not come.
    (b"abc", 1 << 28, Ok(b"abc")),
];

#[test]
fn a_source_is_read_up_to_the_limit(rt: HostRuntime) -> Result<(), Fail> {
    for (text, limit, wanted) in &READS {
        assert!(rt; reads_whole(rt, text, *limit, *wanted)?, "up to {limit}");
    }
    Ok(())
}

/// Whether the next read returns these bytes.
fn reads(source: &mut MemSource, bytes: &[u8]) -> bool {
    let mut into = [0u8; 9];
    match source.read(&mut into) {
        Ok(count) => into.get(..count) == Some(bytes),
        Err(_) => false,
    }
}

#[test]
fn a_source_that_fails_is_not_read_on(rt: HostRuntime) -> Result<(), Fail> {
    // Three reads take one byte each, and the third call fails.
    let bytes = b"abcdef".to_vec(rt.alloc())?;
    let sizes = [1, 1, 1].to_vec(rt.alloc())?;
    let failing = [2].to_vec(rt.alloc())?;
    let source = MemSource::new(rt.alloc(), bytes, sizes, failing);
    assert!(rt; is_not_read_on(rt, source));
    Ok(())
}

/// Two bytes were taken, and one size is left.
fn is_not_read_on(rt: HostRuntime, mut source: MemSource) -> bool {
    read_all(rt.alloc(), &mut source, 9).err() == Some(ReadFault::SourceFault)
        && reads(&mut source, b"c")
        && reads(&mut source, b"def")
}

/// Whether a piece is written, and these are then all bytes that were written.
fn writes(sink: &mut MemSink, piece: &[u8], written: &[u8]) -> bool {
    write_all(sink, piece).is_ok() && sink.written() == written
}

#[test]
fn a_piece_is_written_whole_and_a_refused_write_writes_nothing(
    rt: HostRuntime,
) -> Result<(), Fail> {
    let failing = [1].to_vec(rt.alloc())?;
    assert!(rt; refuses_the_second(MemSink::new(rt.alloc(), failing)));
    Ok(())
}

fn refuses_the_second(mut sink: MemSink) -> bool {
    writes(&mut sink, b"abc", b"abc")
        && write_all(&mut sink, b"f") == Err(EdgeFault::Failed)
        && writes(&mut sink, b"de", b"abcde")
}
