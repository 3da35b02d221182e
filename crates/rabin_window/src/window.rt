ghost use Rattle.std.specs.Prelude.{◌≡◌, ◌%◌, ◌^◌, ◌<◌, ◌↔◌, IsTrue, [], ◌∷◌, ◌++◌, drop, length, slice_index};

use crate::tables::{Tables, WINDOW_SIZE};
use sd_base::{Params, WINDOW};
use std::marker::Model;

/// The last 48 bytes of a text with Rabin's fingerprint of them (LBFS, SOSP 2001, section 3.1).
#[derive(Drop)]
pub struct Window {
    polynomial: u64,
    ring: [u8; WINDOW_SIZE],
    oldest: usize,
    value: u64,
}

impl Model for Window {
    ghost use Rattle.rabin_window.specs.Window.{WindowView, oldest_first, IsWindow};

    ghost Value = { WindowView };

    ghost view = { λ w. record { polynomial = w.polynomial; bytes = oldest_first w.oldest w.ring } };

    ghost invariant = { λ w. IsWindow w.polynomial w.value w.oldest w.ring };
}

impl Window {
    ghost use Rattle.sd_base.specs.Polynomial.{degree, fingerprint};
    ghost use Rattle.sd_base.specs.Cutting.{is_match};
    ghost use Rattle.sd_base.specs.Params.{numbers_of};

    /// The window that has these 48 bytes.
    pub fn start(tables: &Tables, bytes: &[u8]) -> Window
        requires whole { length bytes.now ≡ WINDOW }
        ensures polynomial { result.polynomial ≡ tables.now.polynomial }
        ensures bytes { result.bytes ≡ bytes.now }
    {
        let mut ring = [0; WINDOW_SIZE];
        ring.copy_from_slice(bytes);
        Window {
            polynomial: tables.polynomial(),
            ring,
            oldest: 0,
            value: tables.fingerprint(bytes),
        }
    }

    /// Moves the window by a byte: its oldest byte, `out`, leaves, and `inn` is appended. The
    /// fingerprint follows by two look-ups, without a division.
    pub fn slide(&mut self, tables: &Tables, out: u8, inn: u8)
        requires same_tables { tables.now.polynomial ≡ self.old.polynomial }
        requires oldest { slice_index self.old.bytes 0 ≡ out }
        ensures polynomial { self.new.polynomial ≡ self.old.polynomial }
        ensures bytes { self.new.bytes ≡ drop 1 self.old.bytes ++ inn ∷ [] }
    {
        self.value = tables.roll(self.value, out, inn);
        self.ring[self.oldest] = inn;
        self.oldest = if self.oldest + 1 == WINDOW_SIZE {
            0
        } else {
            self.oldest + 1
        };
    }

    /// Rabin's fingerprint of the window's bytes.
    pub fn value(&self) -> u64
        ensures fingerprint { result ≡ fingerprint self.now.polynomial self.now.bytes }
        ensures reduced { result < 2 ^ degree self.now.polynomial }
        ensures whole { length self.now.bytes ≡ WINDOW }
    {
        self.value
    }

    /// Whether the low bits of the fingerprint are the target.
    pub fn is_match(&self, params: &Params) -> bool
        ensures low_bits { IsTrue result
            ↔ (fingerprint self.now.polynomial self.now.bytes % 2 ^ params.now.bits ≡ params.now.target) }
        ensures same_polynomial { self.now.polynomial ≡ params.now.polynomial
            → result ≡ is_match (numbers_of params.now) self.now.bytes }
    {
        self.value % (1 << params.bits) == u64::from(params.target)
    }
}
