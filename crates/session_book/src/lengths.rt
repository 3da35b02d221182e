//! How many bytes the parts of a record take.
use sd_base::{AROUND_BODY, DIGEST_LEN, MAX_CHUNKS, MAX_NAME, MAX_PLACES, NUMBER_LEN};

// A drop, whose body is a number.
pub const DROP_LEN: u32 = AROUND_BODY + NUMBER_LEN as u32;

// A new chunk: its length and its name.
pub const NEW_CHUNK_LEN: usize = NUMBER_LEN + DIGEST_LEN;

// The body of an ingest beside its name, its chunks and its entries: the length of the name in one
// byte, that of the input, and how many chunks and entries there are.
pub const INGEST_NUMBERS: usize = 1 + 3 * NUMBER_LEN;

// The longest ingest.
const MAX_INGEST: usize = AROUND_BODY as usize
    + INGEST_NUMBERS
    + MAX_NAME
    + NEW_CHUNK_LEN * MAX_CHUNKS as usize
    + NUMBER_LEN * MAX_PLACES as usize;

// Bytes of book for each session: room for its ingest and its drop. A book of all sessions is then
// a `u64` long with room to spare.
pub const SESSION_ROOM: usize = 1 << 30;

const _: () = prove!(MAX_INGEST + DROP_LEN as usize <= SESSION_ROOM);
