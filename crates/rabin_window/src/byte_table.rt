ghost use Rattle.std.specs.Prelude.{◌≡◌, ℕ, ◌^◌, ◌<◌, slice_index};
ghost use Rattle.rabin_window.specs.Linear.{IsLinear};

/// How many values a byte has.
pub const BYTE_VALUES: usize = 256;

/// How many bits a byte has.
pub const BYTE_BITS: usize = 8;

/// The table of a linear function of bytes, from its values at the eight powers of two. Each other
/// byte is the exclusive or of its highest bit and a smaller byte.
pub fn byte_table(powers: &[u64; BYTE_BITS]) -> [u64; BYTE_VALUES]
    ensures entries { (f : ℕ → ℕ) → IsLinear f
        → ((i : ℕ) → i < BYTE_BITS → slice_index powers.now i ≡ f (2 ^ i))
        → (b : ℕ) → b < BYTE_VALUES → slice_index result b ≡ f b }
{
    let mut table = [0; BYTE_VALUES];
    for byte in 1..BYTE_VALUES {
        let highest = 63 - (byte as u64).leading_zeros();
        table[byte] = table[byte - (1 << highest)] ^ powers[highest as usize];
    }
    table
}
