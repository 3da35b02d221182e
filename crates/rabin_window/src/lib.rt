//! Rabin's fingerprint of a window of 48 bytes, as LBFS (SOSP 2001, section 3.1) finds breakpoints
//! with it: the remainder of the window's bits modulo a polynomial over the two-element field. The
//! crate uses the definitions of `sd_base`.
//!
//! `divisor` divides bytes bit by bit. `appender` divides them by a table, with one look-up a byte.
//! `tables` keeps what a window needs of a polynomial to move by a byte with two look-ups, and
//! `window` is the window itself. `byte_table` makes the table of a linear function of bytes.
#![tactic(auto)]

mod appender;
mod byte_table;
mod divisor;
mod tables;
mod window;

pub use tables::Tables;
pub use window::Window;
