ghost use Rattle.std.specs.Prelude.{◌≡◌, slice_index};

use rabin_window::{Tables, Window};
use sd_base::Params;

// 48 bytes, all the same except the first and the last. The length is written out, so that another
// length of a window is refused here.
fn window_of(first: u8, between: u8, last: u8) -> [u8; 48]
    ensures first { slice_index result 0 ≡ first }
{
    let mut bytes = [between; 48];
    bytes[0] = first;
    bytes[47] = last;
    bytes
}

// The parameters of degree 63 under which the windows below are worked out by hand: 2^63 is 1
// modulo the polynomial, so the bit at place k counts at place k modulo 63. The target is 1.
fn params() -> Option<Params> {
    Params::new(0x8000_0000_0000_0001, 13, 1, 48, 48).ok()
}

// The fingerprint of a window, and whether it is a match.
fn value_of(bytes: &[u8; 48]) -> Option<(u64, bool)> {
    let params = params()?;
    let window = Window::start(&Tables::new(&params), bytes);
    Some((window.value(), window.is_match(&params)))
}

// The same after a zero byte is slid into the window whose last byte is 1.
fn value_after_a_slide() -> Option<(u64, bool)> {
    let params = params()?;
    let tables = Tables::new(&params);
    let mut window = Window::start(&tables, &window_of(0, 0, 1));
    window.slide(&tables, 0, 0);
    Some((window.value(), window.is_match(&params)))
}

// The window whose last byte is 1 is the polynomial 1, and a zero byte appended to it makes it the
// power 8. The one whose first byte is 1 is the power 376, which is five times 63 and 61. Of 384
// ones the places 0 to 5 come seven times, and all others six times.
#[test]
fn fingerprints_are_those_worked_out_by_hand(rt: HostRuntime) {
    let first = value_of(&window_of(1, 0, 0));
    assert!(rt; value_of(&window_of(0, 0, 1)) == Some((1, true)));
    assert!(rt; value_after_a_slide() == Some((256, false)));
    assert!(rt; first == Some((2_305_843_009_213_693_952, false)));
    assert!(rt; value_of(&window_of(255, 255, 255)) == Some((63, false)));
}
