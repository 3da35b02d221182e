//! The names of chunks. A namer makes a name of a chunk's bytes: `Sha256Namer` by SHA-256, and
//! `LengthNamer` for tests, in which many chunks share a name. `name_all` names the chunks of a text by
//! workers, `chunk` is one chunk of a text, and `hex_of` prints a name.
//!
//! Names are never trusted: two chunks are the same only if their bytes are. All rules here except
//! SHA-256 are this project's own. The crate uses `sd_base`, `sha2` for the function and `hex` for
//! the digits.
#![tactic(auto)]

mod hex_name;
mod length_namer;
mod namer;
mod naming;
mod sha256_namer;
mod share;

pub use hex_name::hex_of;
pub use length_namer::LengthNamer;
pub use namer::Namer;
pub use naming::name_all;
pub use sha256_namer::Sha256Namer;
pub use share::chunk;
