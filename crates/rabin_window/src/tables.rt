ghost use Rattle.std.specs.Prelude.{◌≡◌, ℕ, ◌^◌, ◌<◌, List, [], ◌∷◌, ◌++◌, drop, length, slice_index};
ghost use Rattle.sd_base.specs.Polynomial.{degree, fingerprint};
ghost use Rattle.rabin_window.specs.Tables.{leaving_entry};

use crate::appender::Appender;
use crate::byte_table::{BYTE_BITS, BYTE_VALUES, byte_table};
use sd_base::{Params, WINDOW};
use std::marker::Model;

/// Bytes of a window, as the length of an array.
pub const WINDOW_SIZE: usize = WINDOW as usize;

/// What windows need of one polynomial, so that a window moves by a byte with two look-ups.
#[derive(Drop)]
pub struct Tables {
    appender: Appender,
    // What the byte that leaves a window adds to its remainder.
    leaving_entries: [u64; BYTE_VALUES],
}

impl Model for Tables {
    ghost use Rattle.rabin_window.specs.Tables.{TablesView, IsLeavingTable};

    ghost Value = { TablesView };

    ghost view = { λ t. record { polynomial = t.appender.polynomial } };

    ghost invariant = { λ t. IsLeavingTable t.appender.polynomial t.leaving_entries };
}

impl Tables {
    /// The tables of the polynomial of these parameters. It takes no memory.
    pub fn new(params: &Params) -> Tables
        ensures polynomial { result.polynomial ≡ params.now.polynomial }
    {
        let appender = Appender::new(params);
        let leaving_entries = leaving_table(&appender);
        Tables {
            appender,
            leaving_entries,
        }
    }

    /// The polynomial that the tables were made for.
    pub fn polynomial(&self) -> u64
        ensures polynomial { result ≡ self.now.polynomial }
    {
        self.appender.polynomial
    }

    /// Rabin's fingerprint of bytes, with one look-up a byte: that of a first window.
    pub fn fingerprint(&self, bytes: &[u8]) -> u64
        ensures fingerprint { result ≡ fingerprint self.now.polynomial bytes.now }
        ensures reduced { result < 2 ^ degree self.now.polynomial }
    {
        self.appender.remainder(bytes)
    }

    /// The fingerprint of a window that has moved by a byte. `value` was its fingerprint before,
    /// `out` was its oldest byte, and `inn` is its newest. A scan of a text needs no `Window`,
    /// since the text still has the bytes.
    #[inline(always)]
    pub fn roll(&self, value: u64, out: u8, inn: u8) -> u64
        requires reduced { value < 2 ^ degree self.now.polynomial }
        ensures rolled { (window : List ℕ) → length window ≡ WINDOW → slice_index window 0 ≡ out
            → value ≡ fingerprint self.now.polynomial window
            → result ≡ fingerprint self.now.polynomial (drop 1 window ++ inn ∷ []) }
        ensures reduced { result < 2 ^ degree self.now.polynomial }
    {
        let kept = value ^ self.leaving_entries[usize::from(out)];
        self.appender.append(kept, inn)
    }
}

// The remainder of each byte as the oldest of a window whose other bytes are zero.
fn leaving_table(appender: &Appender) -> [u64; BYTE_VALUES]
    ensures entries { (b : ℕ) → b < BYTE_VALUES
        → slice_index result b ≡ leaving_entry appender.now.polynomial b }
{
    let mut powers = [0; BYTE_BITS];
    for (i, power) in powers.iter_mut().enumerate() {
        let mut window = [0; WINDOW_SIZE];
        window[0] = 1 << i;
        *power = appender.remainder(&window);
    }
    byte_table(&powers)
}
