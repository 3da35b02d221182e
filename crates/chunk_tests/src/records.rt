use crate::drawn::draw;
use sd_base::{IngestRecord, NewChunk, OutOfMemory, Record};
use session_book::{Step, encode_record, next_record};
use sha2::{Digest, Sha256};
use std::alloc::{AllocError, Global};

// SHA-256 of 64 zeros.
pub const Z64: [u8; 32] = [
    0xf5, 0xa5, 0xfd, 0x42, 0xd1, 0x6a, 0x20, 0x30, 0x27, 0x98, 0xef, 0x6e, 0xd3, 0x09, 0x97, 0x9b,
    0x43, 0x00, 0x3d, 0x23, 0x20, 0xd9, 0xf0, 0xe8, 0xea, 0x98, 0x31, 0xa9, 0x27, 0x59, 0xfb, 0x4b,
];

// SHA-256 of 8 zeros.
pub const Z8: [u8; 32] = [
    0xaf, 0x55, 0x70, 0xf5, 0xa1, 0x81, 0x0b, 0x7a, 0xf7, 0x8c, 0xaf, 0x4b, 0xc7, 0x0a, 0x66, 0x0f,
    0x0d, 0xf5, 0x1e, 0x42, 0xba, 0xf9, 0x1d, 0x4d, 0xe5, 0xb2, 0x32, 0x8d, 0xe0, 0xe8, 0x3d, 0xfc,
];

// The new chunks of session `a`.
pub static CHUNKS_OF_A: [NewChunk; 2] = [
    NewChunk {
        length: 64,
        name: Z64,
    },
    NewChunk {
        length: 8,
        name: Z8,
    },
];

// The kind of a record, and its body.
pub type Body = (u8, &'static [u8]);

// Session `a`: 200 zeros, cut into three chunks of 64 zeros and one of 8. Its two chunks are named
// by their digests, as above.
pub const A: Body = (
    b'I',
    b"\x01a\0\0\0\xc8\
    \0\0\0\x02\
    \0\0\0\x40\
    \xf5\xa5\xfd\x42\xd1\x6a\x20\x30\x27\x98\xef\x6e\xd3\x09\x97\x9b\
    \x43\x00\x3d\x23\x20\xd9\xf0\xe8\xea\x98\x31\xa9\x27\x59\xfb\x4b\
    \0\0\0\x08\
    \xaf\x55\x70\xf5\xa1\x81\x0b\x7a\xf7\x8c\xaf\x4b\xc7\x0a\x66\x0f\
    \x0d\xf5\x1e\x42\xba\xf9\x1d\x4d\xe5\xb2\x32\x8d\xe0\xe8\x3d\xfc\
    \0\0\0\x04\0\0\0\0\0\0\0\0\0\0\0\0\0\0\0\x01",
);

// What is read of bytes.
#[derive(Clone, Copy, PartialEq)]
pub enum Seen {
    Whole(u32),
    Short,
    Bad,
    NoMemory,
}

pub fn step_of(alloc: Global, bytes: &[u8]) -> Seen {
    match next_record(alloc, bytes) {
        Ok(Step::Whole(_, used)) => Seen::Whole(used),
        Ok(Step::Short) => Seen::Short,
        Ok(Step::Bad) => Seen::Bad,
        Err(OutOfMemory) => Seen::NoMemory,
    }
}

// Flips the bits of a byte that are set in `change`.
pub fn flip(bytes: &mut [u8], place: usize, change: u8) {
    if let Some(byte) = bytes.get_mut(place) {
        *byte ^= change;
    }
}

// Appends a kind, the length and the bytes of a body, and their digest.
pub fn append_sealed(out: &mut Vec<u8>, kind: u8, body: &[u8]) -> Result<(), AllocError> {
    let start = out.len();
    let [_, _, _, _, a, b, c, d] = (body.len() as u64).to_be_bytes();
    out.extend_from_slice(&[kind, a, b, c, d])?;
    out.extend_from_slice(body)?;
    let digest = digest_from(out.as_slice(), start);
    out.extend_from_slice(&digest)
}

// The digest of the bytes from a place on.
fn digest_from(bytes: &[u8], start: usize) -> [u8; 32] {
    match bytes.get(start..) {
        Some(record) => Sha256::digest(record),
        None => [0; 32],
    }
}

// Appends the records of these bodies.
fn append_all(out: &mut Vec<u8>, bodies: &[Body]) -> Result<(), AllocError> {
    for &(kind, body) in bodies {
        append_sealed(out, kind, body)?;
    }
    Ok(())
}

// The records of these bodies, one after another.
pub fn sealed(alloc: Global, bodies: &[Body]) -> Option<Vec<u8>> {
    let mut out = Vec::new(alloc);
    match append_all(&mut out, bodies) {
        Ok(()) => Some(out),
        Err(_) => None,
    }
}

// Whether this is the ingest of session `a`.
pub fn is_session_a(entry: &IngestRecord) -> bool {
    entry.name.as_bytes() == b"a".as_slice()
        && entry.length == 200
        && entry.fresh.as_slice() == CHUNKS_OF_A.as_slice()
        && entry.recipe.as_slice() == [0, 0, 0, 1].as_slice()
}

// The spelling of the record that bytes begin with.
pub fn written_again(alloc: Global, bytes: &[u8]) -> Option<Vec<u8>> {
    match next_record(alloc, bytes) {
        Ok(Step::Whole(entry, _)) => encode_record(alloc, &entry).ok(),
        _ => None,
    }
}

#[test]
fn the_names_in_these_records_are_the_digests_of_zeros(rt: HostRuntime) {
    assert!(rt;
        Sha256::digest([0; 64].as_slice()) == Z64 && Sha256::digest([0; 8].as_slice()) == Z8
    );
}

// Whether bytes are read as the record of session `a`, with no room in its two lists for items that
// the bytes do not hold.
fn are_read_as_a(alloc: Global, bytes: &[u8]) -> bool {
    match next_record(alloc, bytes) {
        Ok(Step::Whole(Record::Ingest(entry), 139)) => {
            let is_a = is_session_a(&entry);
            let fresh = entry.fresh.into_vec().capacity();
            let recipe = entry.recipe.into_vec().capacity();
            is_a && fresh == 2 && recipe == 4
        }
        _ => false,
    }
}

// Whether the record that bytes begin with is spelled as all of them.
pub fn has_this_spelling(alloc: Global, bytes: &[u8]) -> bool {
    match written_again(alloc, bytes) {
        Some(again) => again.as_slice() == bytes,
        None => false,
    }
}

fn a_is_read(alloc: Global) -> bool {
    match sealed(alloc, &[A]) {
        Some(bytes) => are_read_as_a(alloc, &bytes) && has_this_spelling(alloc, &bytes),
        None => false,
    }
}

#[test]
fn an_ingest_has_one_spelling_and_is_read_into_lists_of_its_size(rt: HostRuntime) {
    assert!(rt; a_is_read(rt.alloc()));
}

// The record of the drop of session 0: 41 bytes. The digest is that of SHA-256.
const DROP: &[u8] = b"D\0\0\0\x04\0\0\0\0\
    \xcc\xfb\x74\xc7\x78\x2f\xdf\xbe\xba\xf9\xfc\x24\x48\xa6\xa2\xa3\
    \xab\xec\xce\x62\x80\x87\x9b\xa3\xf8\xd3\x05\xaa\x7e\x5f\xa4\xf6";

// The same without its last byte, with that byte changed, and with a byte more.
const CUT_DROP: &[u8] = b"D\0\0\0\x04\0\0\0\0\
    \xcc\xfb\x74\xc7\x78\x2f\xdf\xbe\xba\xf9\xfc\x24\x48\xa6\xa2\xa3\
    \xab\xec\xce\x62\x80\x87\x9b\xa3\xf8\xd3\x05\xaa\x7e\x5f\xa4";

const CHANGED_DROP: &[u8] = b"D\0\0\0\x04\0\0\0\0\
    \xcc\xfb\x74\xc7\x78\x2f\xdf\xbe\xba\xf9\xfc\x24\x48\xa6\xa2\xa3\
    \xab\xec\xce\x62\x80\x87\x9b\xa3\xf8\xd3\x05\xaa\x7e\x5f\xa4\xf7";

const FOLLOWED_DROP: &[u8] = b"D\0\0\0\x04\0\0\0\0\
    \xcc\xfb\x74\xc7\x78\x2f\xdf\xbe\xba\xf9\xfc\x24\x48\xa6\xa2\xa3\
    \xab\xec\xce\x62\x80\x87\x9b\xa3\xf8\xd3\x05\xaa\x7e\x5f\xa4\xf6\xff";

static STEPS: [(&[u8], Seen); 6] = [
    (DROP, Seen::Whole(41)),
    (CUT_DROP, Seen::Short),
    (CHANGED_DROP, Seen::Bad),
    (FOLLOWED_DROP, Seen::Whole(41)),
    (&[0xff; 200], Seen::Short),
    (&[0; 200], Seen::Bad),
];

#[test]
fn a_drop_is_read_again_whatever_follows_and_bytes_of_one_value_are_no_record(rt: HostRuntime) {
    for (row, &(bytes, want)) in STEPS.iter().enumerate() {
        assert!(rt; step_of(rt.alloc(), bytes) == want, "row {row}");
    }
}

fn drop_is_written(alloc: Global) -> bool {
    match encode_record(alloc, &Record::Drop(0)) {
        Ok(bytes) => bytes.as_slice() == DROP,
        Err(_) => false,
    }
}

#[test]
fn a_drop_has_41_bytes(rt: HostRuntime) {
    assert!(rt; drop_is_written(rt.alloc()));
}

// A body, and what is read of its record.
static BODIES: [(Body, Seen); 20] = [
    ((b'D', b"\0\0\0\0"), Seen::Whole(41)),
    ((b'D', b"\0\0\0\0\0"), Seen::Bad),
    ((b'D', b"\0\0\0"), Seen::Bad),
    ((b'E', b"\0\0\0\0"), Seen::Bad),
    ((b'I', b"\0\0\0\0"), Seen::Bad),
    ((b'I', b"\x01a\0\0\0\0\0\0\0\0\0\0\0\0"), Seen::Whole(51)),
    ((b'D', b"\x01a\0\0\0\0\0\0\0\0\0\0\0\0"), Seen::Bad),
    ((b'I', b"\x01a\0\0\0\0\0\0\0\0\0\0\0\0\0"), Seen::Bad),
    ((b'I', b"\0\0\0\0\0\0\0\0\0\0\0\0\0"), Seen::Bad),
    ((b'I', b"\x01.\0\0\0\0\0\0\0\0\0\0\0\0"), Seen::Bad),
    ((b'I', b"AB\0\0\0\0\0\0\0\0\0\0\0\0"), Seen::Bad),
    // the recipe has one entry, or more than a record may have
    (
        (b'I', b"\x01a\0\0\0\0\0\0\0\0\0\0\0\x01\xff\xff\xff\xff"),
        Seen::Whole(55),
    ),
    (
        (
            b'I',
            b"\x01a\0\0\0\0\0\0\0\0\xff\xff\xff\xff\xff\xff\xff\xff",
        ),
        Seen::Bad,
    ),
    // names of 64 letters and of 65
    (
        (
            b'I',
            b"\x40aaaaaaaaaaaaaaaaaaaaaaaaaaaaaaaaaaaaaaaaaaaaaaaaaaaaaaaaaaaaaaaa\
            \0\0\0\0\0\0\0\0\0\0\0\0",
        ),
        Seen::Whole(114),
    ),
    (
        (
            b'I',
            b"\x41aaaaaaaaaaaaaaaaaaaaaaaaaaaaaaaaaaaaaaaaaaaaaaaaaaaaaaaaaaaaaaaaa\
            \0\0\0\0\0\0\0\0\0\0\0\0",
        ),
        Seen::Bad,
    ),
    // one new chunk, of which the record has the number 1 and the lengths 1, 1,048,576, 0 and
    // 1,048,577, and then the number 4,294,967,295
    (
        (
            b'I',
            b"\x01a\0\0\0\0\0\0\0\x01\0\0\0\x01abcdefghijklmnopqrstuvwxyz012345\0\0\0\0",
        ),
        Seen::Whole(87),
    ),
    (
        (
            b'I',
            b"\x01a\0\0\0\0\0\0\0\x01\0\x10\0\0abcdefghijklmnopqrstuvwxyz012345\0\0\0\0",
        ),
        Seen::Whole(87),
    ),
    (
        (
            b'I',
            b"\x01a\0\0\0\0\0\0\0\x01\0\0\0\0abcdefghijklmnopqrstuvwxyz012345\0\0\0\0",
        ),
        Seen::Bad,
    ),
    (
        (
            b'I',
            b"\x01a\0\0\0\0\0\0\0\x01\0\x10\0\x01abcdefghijklmnopqrstuvwxyz012345\0\0\0\0",
        ),
        Seen::Bad,
    ),
    (
        (
            b'I',
            b"\x01a\0\0\0\0\xff\xff\xff\xff\0\0\0\x01abcdefghijklmnopqrstuvwxyz012345\0\0\0\0",
        ),
        Seen::Bad,
    ),
];

// What is read of the record of a body.
fn step_of_body(alloc: Global, kind: u8, body: &[u8]) -> Option<Seen> {
    let mut bytes = Vec::new(alloc);
    match append_sealed(&mut bytes, kind, body) {
        Ok(()) => Some(step_of(alloc, &bytes)),
        Err(_) => None,
    }
}

#[test]
fn a_body_is_read_exactly_if_it_is_in_the_grammar(rt: HostRuntime) {
    for (row, &((kind, body), want)) in BODIES.iter().enumerate() {
        assert!(rt;
            step_of_body(rt.alloc(), kind, body) == Some(want),
            "row {row}"
        );
    }
}

// Whether each front of 200 bytes of noise is refused under its own digest, by the grammar alone.
fn noise_is_refused(alloc: Global) -> bool {
    let mut noise = [0; 200];
    draw(&mut noise, 1, 0xff);
    for len in 1..=200usize {
        let front = noise.get(..len).unwrap_or(b"");
        if front.is_empty() || step_of_body(alloc, b'I', front) != Some(Seen::Bad) {
            return false;
        }
    }
    true
}

#[test]
fn noise_under_its_digest_is_no_record(rt: HostRuntime) {
    assert!(rt; noise_is_refused(rt.alloc()));
}
