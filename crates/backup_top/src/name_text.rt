ghost use Rattle.std.specs.Prelude.{◌≡◌};

use sd_base::Name;

/// The name of a session as text: its bytes are ASCII.
pub fn text_of_name(name: &Name) -> &str
    ensures { result.now ≡ name.now }
{
    str::from_utf8(name.as_bytes()).unwrap()
}
