//! The name of a session.
ghost use Rattle.std.specs.Prelude.{◌≡◌, Some, IfOk};
ghost use Rattle.std.proofs.Common.{rules};
ghost use Rattle.std.specs.List.{list_all};
ghost use Rattle.std.specs.Result.{result_err};
ghost use Rattle.std.specs.Str.{bytes_eq};
ghost use Rattle.std.specs.Ordering.{nat_cmp};
ghost use Rattle.std.specs.Cmp.Lexicographic.{slice_cmp, nat_list_cmp_total, texts_ties, texts_po};
ghost use Rattle.sd_base.specs.Names.{IsName, bad_name, name_byte};

use crate::limits::MAX_NAME;
use std::cmp::Ordering;
use std::marker::Model;

/// Why bytes are no name of a session. The reasons are tried in this order.
#[derive(Clone, Copy, Debug, PartialEq, Eq)]
pub enum BadName {
    /// There is no byte, or there are more than 64.
    Length,
    /// A byte is not an ASCII letter, a digit, `.`, `_` or `-`, or the first is neither a letter
    /// nor a digit.
    Letter,
}

/// The name of a session: contracts see its bytes. It is kept in place and allocates nothing.
#[derive(Clone, Copy, Debug)]
pub struct Name {
    // The bytes of the name, and zeros after them.
    padded: [u8; MAX_NAME],
    len: usize,
}

impl Model for Name {
    ghost use Rattle.std.specs.Prelude.{ℕ, List};

    ghost Value = { List ℕ };

    ghost use Rattle.sd_base.specs.Padding.{IsPadded, name_bytes, padded_of, padded_of-name_bytes};

    ghost view = { name_bytes };

    ghost invariant = { IsPadded };

    ghost inverse = { padded_of };

    ghost inverse_ok = { padded_of-name_bytes };
}

impl PartialEq for Name {
    ghost eq = { bytes_eq };

    ghost laws = { Prim.search rules };

    fn eq(&self, other: &Name) -> bool {
        self.as_bytes() == other.as_bytes()
    }
}

impl Eq for Name {
    ghost laws = { Prim.search rules };
}

// In the order of their bytes.
impl Ord for Name {
    ghost cmp = { slice_cmp nat_cmp };

    ghost total = { nat_list_cmp_total };

    ghost matches_partial_cmp = { Prim.search rules };

    ghost matches_eq = { texts_ties };

    fn cmp(&self, other: &Name) -> Ordering {
        self.as_bytes().cmp(other.as_bytes())
    }
}

impl PartialOrd for Name {
    ghost partial_cmp = { λ x y. Some (slice_cmp nat_cmp x y) };

    ghost laws = { texts_po };

    fn partial_cmp(&self, other: &Name) -> Option<Ordering> {
        Some(self.cmp(other))
    }
}

impl Name {
    /// The name of these bytes. It is refused if and only if they are no name of a session, and the
    /// error says why.
    pub fn read(bytes: &[u8]) -> Result<Name, BadName>
        ensures refused { result_err result ≡ bad_name bytes.now }
        ensures made { IfOk result (λ name. name ≡ bytes.now) }
    {
        match refusal_of(bytes) {
            Some(bad) => Err(bad),
            None => Ok(padded(bytes)),
        }
    }

    /// The bytes of the name.
    pub fn as_bytes(&self) -> &[u8]
        ensures bytes { result.now ≡ self.now }
        ensures lawful { IsName result.now }
    {
        &self.padded[..self.len]
    }
}

// Why bytes are no name, if they are none.
fn refusal_of(bytes: &[u8]) -> Option<BadName>
    ensures { result ≡ bad_name bytes.now }
{
    if bytes.is_empty() || bytes.len() > MAX_NAME {
        return Some(BadName::Length);
    }
    if bytes[0].is_ascii_alphanumeric() && are_all_allowed(bytes) {
        None
    } else {
        Some(BadName::Letter)
    }
}

// Whether each byte is allowed in a name.
fn are_all_allowed(bytes: &[u8]) -> bool
    ensures { result ≡ list_all name_byte bytes.now }
{
    bytes.iter().all(|byte| {
        byte.is_ascii_alphanumeric() || *byte == b'.' || *byte == b'_' || *byte == b'-'
    })
}

// The name of bytes that are a name.
fn padded(bytes: &[u8]) -> Name
    requires { bad_name bytes.now ≡ None }
    ensures { result ≡ bytes.now }
{
    let len = bytes.len();
    let mut padded = [0; MAX_NAME];
    padded[..len].copy_from_slice(bytes);
    Name { padded, len }
}
