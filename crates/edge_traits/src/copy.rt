//! A copy of as many bytes as there are and as fit.
ghost use Rattle.std.specs.Prelude.{◌≡◌, ◌≤◌, length, take, min};

/// Copies the front of `from` to the front of `into`, at most `room` bytes of it, and returns how
/// many.
pub(crate) fn copy_front(from: &[u8], into: &mut [u8], room: usize) -> usize
    requires { room ≤ length into.old }
    ensures count { result ≡ min (length from.now) room }
    ensures given { take result into.new ≡ take result from.now }
{
    let count = from.len().min(room);
    into[..count].copy_from_slice(&from[..count]);
    count
}
