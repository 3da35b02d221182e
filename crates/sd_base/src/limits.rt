//! The limits and the defaults. The window and the default number of bits, minimum and maximum are
//! those of LBFS (SOSP 2001, section 3.1).

/// Bytes of a window: the bytes before a position, whose fingerprint decides whether it is a
/// candidate.
pub const WINDOW: u32 = 48;

/// Bytes of the longest input, 2^28: a position plus the length of any chunk fits a `u32`.
pub const MAX_INPUT: u32 = 268_435_456;

/// The least polynomial that is allowed, of degree 16: a remainder then has at least the 16 bits
/// that may be compared.
pub const MIN_POLYNOMIAL: u64 = 0x1_0000;

/// The greatest number of low bits of a fingerprint that may be compared.
pub const MAX_BITS: u32 = 16;

/// Bytes: the least `min` that is allowed. A chunk then holds the whole window that decides its
/// end, which is why the rest of an input is cut as if it stood alone.
pub const MIN_CHUNK_LEN: u32 = 48;

/// Bytes: the greatest `max` that is allowed.
pub const MAX_CHUNK_LEN: u32 = 1_048_576;

/// Bytes of the longest container, 2^22: three of the longest chunks and the header fit.
pub const MAX_CONTAINER: u32 = 4_194_304;

/// Bytes of a container's header: its mark and its number.
pub const CONTAINER_HEADER: u32 = 8;

/// The most chunks of a book, 2^22: the number of every chunk fits a `u32`.
pub const MAX_CHUNKS: u32 = 4_194_304;

/// The most places of a book, 2^24, live and dropped.
pub const MAX_PLACES: u32 = 16_777_216;

/// The most sessions of a book, live and dropped.
pub const MAX_SESSIONS: u32 = 4096;

/// The greatest generation of a store: the bytes of its head stay few.
pub const MAX_GENERATION: u32 = 65_535;

/// Bytes of a store's settings.
pub const SETTINGS_LEN: u32 = 32;

/// Bytes of the shortest head that opens a store: the settings and one byte.
pub const OPEN_HEAD_LEN: u32 = SETTINGS_LEN + 1;

/// The version byte of a store's settings. A new format of records does not change it.
pub const SETTINGS_VERSION: u8 = 1;

/// The method of cutting in a store's settings: Rabin's fingerprint.
pub const METHOD_RABIN: u8 = 0;

/// The byte that is appended to commit: to the head when a store is made and for each later
/// generation, and to the seal for each record. Only the number of these bytes means something.
pub const COMMIT_BYTE: u8 = 0x53;

/// Bytes of the longest name of a session: its length is one byte of a record.
pub const MAX_NAME: usize = 64;

/// The most workers.
pub const MAX_WORKERS: u32 = 64;

/// Bytes of the longest segment: that of the longest input.
pub const MAX_SEGMENT: u32 = MAX_INPUT;

/// Bytes of the shortest batch.
pub const MIN_BATCH: u32 = 65_536;

/// Bytes of the longest batch.
pub const MAX_BATCH: u32 = 16_777_216;

/// The most shards.
pub const MAX_SHARDS: u32 = 256;

/// Bytes that a state of the generator of `bulk` gives: its high half.
pub const STATE_BYTES: u32 = 4;

/// The states of a block of `bulk`.
pub const BLOCK_STATES: u32 = 16_384;

/// Bytes of a block of `bulk`.
pub const BLOCK_LEN: u32 = STATE_BYTES * BLOCK_STATES;

/// The most blocks of `bulk`: together they are as long as the longest input.
pub const MAX_BLOCKS: u32 = 4096;

/// The polynomial that is used if none is given: of degree 53, one bit a coefficient.
pub const DEFAULT_POLYNOMIAL: u64 = 0x3D_A335_8B4D_C173;

/// The number of low bits of a fingerprint that are compared if none is given.
pub const DEFAULT_BITS: u32 = 13;

/// The value of these low bits at a candidate, if none is given.
pub const DEFAULT_TARGET: u32 = 120;

/// Bytes of the shortest chunk if none is given. The last chunk of an input may be shorter.
pub const DEFAULT_MIN: u32 = 2048;

/// Bytes of the longest chunk if none is given.
pub const DEFAULT_MAX: u32 = 65_536;

/// The number of workers if none is given.
pub const DEFAULT_WORKERS: u32 = 4;

/// Bytes of a segment if none is given.
pub const DEFAULT_SEGMENT: u32 = 65_536;

/// Bytes of a batch if none is given.
pub const DEFAULT_BATCH: u32 = 1_048_576;

/// The number of shards if none is given.
pub const DEFAULT_SHARDS: u32 = 16;

const _: () = prove!(WINDOW <= MIN_CHUNK_LEN);

const _: () = prove!(MIN_POLYNOMIAL == 1 << MAX_BITS);

const _: () = prove!(DEFAULT_POLYNOMIAL >= MIN_POLYNOMIAL && DEFAULT_POLYNOMIAL % 2 == 1);

const _: () = prove!(DEFAULT_BITS <= MAX_BITS && DEFAULT_TARGET < 1 << DEFAULT_BITS);

const _: () = prove!(
    MIN_CHUNK_LEN <= DEFAULT_MIN && DEFAULT_MIN <= DEFAULT_MAX && DEFAULT_MAX <= MAX_CHUNK_LEN
);

const _: () = prove!(DEFAULT_WORKERS <= MAX_WORKERS && DEFAULT_SEGMENT <= MAX_SEGMENT);

const _: () = prove!(MIN_BATCH <= DEFAULT_BATCH && DEFAULT_BATCH <= MAX_BATCH);

const _: () = prove!(DEFAULT_SHARDS <= MAX_SHARDS);

const _: () = prove!(CONTAINER_HEADER + MAX_CHUNK_LEN <= MAX_CONTAINER);

const _: () = prove!(BLOCK_LEN * MAX_BLOCKS == MAX_INPUT);
