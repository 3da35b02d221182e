ghost use Rattle.std.specs.Prelude.{◌≡◌, ◌==◌, ◌-◌, ◌^◌, ◌%◌, ◌≤◌};
ghost use Rattle.sd_base.specs.declared.limits.TheConstants.{MAX_BITS};

use sd_base::Params;

/// Which low bits of a fingerprint are compared, and the value that they have at a candidate (LBFS,
/// SOSP 2001, section 3.1).
#[derive(Clone, Copy)]
pub struct LowBits {
    pub bits: u32,
    pub target: u32,
    mask: u64,
    ghost within_limit: { bits ≤ MAX_BITS },
    ghost masked: { mask ≡ 2 ^ bits - 1 },
}

impl LowBits {
    /// The low bits that these parameters compare.
    pub fn new(params: &Params) -> LowBits
        ensures bits { result.bits ≡ params.now.bits }
        ensures target { result.target ≡ params.now.target }
    {
        LowBits {
            bits: params.bits,
            target: params.target,
            mask: (1 << params.bits) - 1,
        }
    }

    /// Whether the low bits of a fingerprint are the target.
    #[inline(always)]
    pub fn is_match(self, fingerprint: u64) -> bool
        ensures low_bits { result ≡ (fingerprint % 2 ^ self.bits == self.target) }
    {
        fingerprint & self.mask == u64::from(self.target)
    }
}
