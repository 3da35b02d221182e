ghost use Rattle.std.specs.Prelude.{◌≡◌, ◌^◌, ◌<◌, ℕ};
ghost use Rattle.sd_base.specs.Parameters.{IsPolynomial};
ghost use Rattle.sd_base.specs.Polynomial.{degree, append_bit};
ghost use Rattle.rabin_window.specs.Division.{append_byte};

use sd_base::Params;

/// A polynomial over the two-element field, to divide by.
#[derive(Clone, Copy)]
pub struct Divisor {
    pub polynomial: u64,
    /// The polynomial's degree: the place of its highest set bit.
    pub highest: u32,
    ghost valid: { IsPolynomial polynomial },
    ghost degree_is: { highest ≡ degree polynomial },
}

impl Divisor {
    /// The divisor by the polynomial of these parameters.
    pub fn new(params: &Params) -> Divisor
        ensures polynomial { result.polynomial ≡ params.now.polynomial }
    {
        let polynomial = params.polynomial;
        Divisor {
            polynomial,
            highest: 63 - polynomial.leading_zeros(),
        }
    }

    // The remainder of a bit string, from that of the string without its last bit.
    fn append_bit(self, remainder: u64, bit: u64) -> u64
        requires reduced { remainder < 2 ^ degree self.polynomial }
        requires one_bit { bit < 2 }
        ensures divided { result ≡ append_bit self.polynomial remainder bit }
        ensures reduced { result < 2 ^ degree self.polynomial }
    {
        let longer = 2 * remainder + bit;
        if (longer >> self.highest) % 2 == 1 {
            longer ^ self.polynomial
        } else {
            longer
        }
    }

    /// The remainder of bytes, from that of the bytes without the last of them. The high bit of a
    /// byte comes first.
    pub fn append_byte(self, remainder: u64, byte: u8) -> u64
        requires reduced { remainder < 2 ^ degree self.polynomial }
        ensures divided { result ≡ append_byte self.polynomial remainder byte }
        ensures reduced { result < 2 ^ degree self.polynomial }
    {
        let mut divided = remainder;
        for i in 0..8u32 {
            divided = self.append_bit(divided, u64::from((byte >> (7 - i)) % 2));
        }
        divided
    }
}
