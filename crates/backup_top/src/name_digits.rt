//! The name of a chunk in hexadecimal digits, with no allocation.
ghost use Rattle.std.specs.Prelude.{◌≡◌, IsUtf8};
ghost use Rattle.hex.specs.Hex.{encode_lower};

use sd_base::DIGEST_LEN;

/// Two digits for each byte.
const NAME_DIGITS: usize = 2 * DIGEST_LEN;

/// The lower-case digits of a name.
pub fn digits_of(name: &[u8; DIGEST_LEN]) -> [u8; NAME_DIGITS]
    ensures digits { result ≡ encode_lower name.now }
    ensures text { IsUtf8 result }
{
    let mut digits = [0; NAME_DIGITS];
    hex::encode_to_slice(name.as_slice(), &mut digits).unwrap();
    digits
}

/// These digits as text.
pub fn text_of_digits(digits: &[u8; NAME_DIGITS]) -> &str
    requires { IsUtf8 digits.now }
    ensures { result.now ≡ digits.now }
{
    str::from_utf8(digits).unwrap()
}
