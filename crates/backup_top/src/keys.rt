//! The keys of a command, and the values that words of the form KEY=VALUE set them to. Nothing here
//! takes memory.

ghost use Rattle.std.specs.Prelude.{◌≡◌, ◌≤◌, length, true, false, nat_lt, Some, IfOk, IfSome, MatchOption};
ghost use Rattle.std.specs.Result.{result_err};
ghost use Rattle.std.specs.Char.{digit_value};
ghost use Rattle.std.specs.List.{list_all, list_any};
ghost use Rattle.sd_base.specs.Keys.{bad_kind_of_value, is_equals_sign, is_spelled as spelled, key_name_of, number_of, sets_key, value_of};
ghost use Rattle.backup_top.specs.Keys.{base_of, key_spec_of, most_digits_of};
ghost use Rattle.backup_top.specs.Words.{texts_of};

use sd_base::BadKind;

/// How the values of a key are spelled.
#[derive(Clone, Copy)]
pub enum Spelling {
    /// At most 20 decimal digits, with no zero before another digit.
    Decimal,
    /// At most 16 hexadecimal digits of either case, with no prefix.
    Hexadecimal,
}

impl Spelling {
    fn base(self) -> u32
        ensures value { result ≡ base_of self }
        ensures least { 2 ≤ result }
        ensures greatest { result ≤ 36 }
    {
        match self {
            Spelling::Decimal => 10,
            Spelling::Hexadecimal => 16,
        }
    }

    fn most_digits(self) -> usize
        ensures { result ≡ most_digits_of self }
    {
        match self {
            Spelling::Decimal => 20,
            Spelling::Hexadecimal => 16,
        }
    }
}

/// A key of a command: its name, and which values it may have.
#[derive(Clone, Copy)]
pub struct Key {
    pub name: &'static str,
    pub spelling: Spelling,
    pub least: u64,
    pub greatest: u64,
}

/// The value that a text sets a key to, after the words before it.
pub fn read_value(key: &Key, before: &[String], text: &str) -> Result<u64, BadKind>
    ensures bad { result_err result ≡ bad_kind_of_value (Some (key_spec_of key.now))
        (list_any (sets_key key.now.name.now) (texts_of before.now)) text.now }
    ensures value { IfOk result (λ value. number_of (key_spec_of key.now) text.now ≡ Some value) }
    ensures in_range { IfOk result (λ value. value ≤ key.now.greatest) }
{
    if is_set(before, key.name) {
        return Err(BadKind::Twice);
    }
    parse_value(key, text).ok_or(BadKind::Value)
}

fn is_set(before: &[String], name: &str) -> bool
    ensures { result ≡ list_any (sets_key name.now) (texts_of before.now) }
{
    for word in before {
        if key_name(word.as_str()) == name {
            return true;
        }
    }
    false
}

/// The two sides of the first `=` of a word: the name of a key, and the text of its value.
pub fn split_word(word: &str) -> Option<(&str, &str)>
    ensures { MatchOption result (list_any is_equals_sign word.now ≡ false) (λ sides.
        (list_any is_equals_sign word.now ≡ true)
        × (sides.0.now ≡ key_name_of word.now) × (sides.1.now ≡ value_of word.now)) }
{
    word.split_once('=')
}

fn key_name(word: &str) -> &str
    ensures { result.now ≡ key_name_of word.now }
{
    word.split_once('=').map_or(word, |(name, _)| name)
}

/// The value of a key that a text spells.
pub fn parse_value(key: &Key, text: &str) -> Option<u64>
    ensures value { result ≡ number_of (key_spec_of key.now) text.now }
    ensures in_range { IfSome result (λ value. value ≤ key.now.greatest) }
{
    let (least, greatest) = (key.least, key.greatest);
    if !is_spelled(key, text.as_bytes()) {
        return None;
    }
    let Ok(value) = u64::from_str_radix(text, key.spelling.base()) else {
        return None;
    };
    if least <= value && value <= greatest {
        Some(value)
    } else {
        None
    }
}

fn is_spelled(key: &Key, text: &[u8]) -> bool
    ensures { result ≡ spelled (key_spec_of key.now) text.now }
{
    if text.is_empty() || text.len() > key.spelling.most_digits() {
        return false;
    }
    if !are_digits(text, key.spelling.base()) {
        return false;
    }
    match key.spelling {
        Spelling::Decimal => text.len() == 1 || text[0] != b'0',
        Spelling::Hexadecimal => true,
    }
}

fn are_digits(text: &[u8], base: u32) -> bool
    requires least { 2 ≤ base }
    requires greatest { base ≤ 36 }
    ensures { result ≡ list_all (λ c. nat_lt (digit_value c) base) text.now }
{
    text.iter().all(|byte| char::from(*byte).is_digit(base))
}
