ghost use Rattle.std.specs.Prelude.{◌≡◌, ℕ, ◌+◌, ◌^◌, ◌<◌, slice_index};
ghost use Rattle.sd_base.specs.Parameters.{IsPolynomial};
ghost use Rattle.sd_base.specs.Polynomial.{degree, fingerprint};
ghost use Rattle.rabin_window.specs.Division.{append_byte};
ghost use Rattle.rabin_window.specs.Tables.{appending_entry, IsAppendingTable};

use crate::byte_table::BYTE_VALUES;
use crate::divisor::Divisor;
use sd_base::Params;

/// Appends bytes to remainders modulo one polynomial, each by one look-up.
#[derive(Drop)]
pub struct Appender {
    pub polynomial: u64,
    // The number of the bits of a remainder below its highest eight, and the mask of these bits.
    shift: u32,
    low_mask: u64,
    // What the highest eight bits of a remainder become when a byte is appended.
    entries: [u64; BYTE_VALUES],
    ghost valid: { IsPolynomial polynomial },
    ghost tabled: { IsAppendingTable polynomial shift low_mask entries },
}

impl Appender {
    /// The appender of the polynomial of these parameters.
    pub fn new(params: &Params) -> Appender
        ensures polynomial { result.polynomial ≡ params.now.polynomial }
    {
        let divisor = Divisor::new(params);
        let shift = divisor.highest - 8;
        Appender {
            polynomial: divisor.polynomial,
            shift,
            low_mask: (1 << shift) - 1,
            entries: appending_table(divisor, shift),
        }
    }

    /// The remainder of bytes, from that of the bytes without the last of them.
    #[inline(always)]
    pub fn append(&self, remainder: u64, byte: u8) -> u64
        requires reduced { remainder < 2 ^ degree self.now.polynomial }
        ensures divided { result ≡ append_byte self.now.polynomial remainder byte }
        ensures reduced { result < 2 ^ degree self.now.polynomial }
    {
        let high = remainder >> self.shift;
        let low = remainder & self.low_mask;
        ((low << 8) | u64::from(byte)) ^ self.entries[high as usize]
    }

    /// The remainder of bytes: Rabin's fingerprint of them.
    pub fn remainder(&self, bytes: &[u8]) -> u64
        ensures divided { result ≡ fingerprint self.now.polynomial bytes.now }
        ensures reduced { result < 2 ^ degree self.now.polynomial }
    {
        let mut divided = 0;
        for byte in bytes {
            divided = self.append(divided, *byte);
        }
        divided
    }
}

// The remainder of each byte, as the highest eight bits of a remainder, with a zero byte after it.
fn appending_table(divisor: Divisor, shift: u32) -> [u64; BYTE_VALUES]
    requires highest_byte { shift + 8 ≡ degree divisor.polynomial }
    ensures entries { (b : ℕ) → b < BYTE_VALUES
        → slice_index result b ≡ appending_entry divisor.polynomial b }
{
    let mut table = [0; BYTE_VALUES];
    for (byte, entry) in table.iter_mut().enumerate() {
        *entry = divisor.append_byte((byte as u64) << shift, 0);
    }
    table
}
