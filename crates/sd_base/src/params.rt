ghost use Rattle.std.specs.Prelude.{◌≡◌, ◌^◌, ◌%◌, ◌<◌, ◌≤◌, ℕ, IfOk, Option};
ghost use Rattle.std.specs.Result.{result_err};
ghost use Rattle.sd_base.specs.Parameters.{IsPolynomial, bad_parameter};
ghost use Rattle.sd_base.specs.declared.limits.TheConstants.{MAX_BITS, MIN_CHUNK_LEN, MAX_CHUNK_LEN};
ghost use Rattle.sd_base.specs.declared.raw_params.RawParams.{RawParams};

use crate::limits::{MAX_BITS, MAX_CHUNK_LEN, MIN_CHUNK_LEN, MIN_POLYNOMIAL};

/// The first number that is out of its range. The numbers are tried in this order.
#[derive(Clone, Copy, Debug, PartialEq, Eq)]
pub enum BadParams {
    /// The polynomial has a degree below 16, or its constant term is 0.
    Polynomial,
    /// `bits` is 0 or above 16.
    Bits,
    /// `target` is not below 2 to the power `bits`.
    Target,
    /// `min` is below 48.
    Min,
    /// `max` is below `min` or above 1,048,576.
    Max,
}

/// The numbers that steer cutting, each in its range. That low bits are compared, and that there is
/// a minimum and a maximum, is from LBFS (SOSP 2001, section 3.1).
#[derive(Clone, Copy, Debug, PartialEq, Eq)]
pub struct Params {
    /// The polynomial over the two-element field, one bit a coefficient: of degree 16 to 63, with
    /// the constant term 1. It may be irreducible or not.
    pub polynomial: u64,
    /// The number of low bits of a fingerprint that are compared, from 1 to 16.
    pub bits: u32,
    /// The value of these bits at a candidate, below 2 to the power `bits`.
    pub target: u32,
    /// Bytes of the shortest chunk, at least 48. The last chunk of an input may be shorter.
    pub min: u32,
    /// Bytes of the longest chunk, from `min` to 1,048,576.
    pub max: u32,
    pub ghost valid_polynomial: { IsPolynomial polynomial },
    pub ghost bits_not_zero: { 1 ≤ bits },
    pub ghost bits_within_limit: { bits ≤ MAX_BITS },
    pub ghost target_fits: { target < 2 ^ bits },
    pub ghost min_holds_a_window: { MIN_CHUNK_LEN ≤ min },
    pub ghost ordered: { min ≤ max },
    pub ghost max_within_limit: { max ≤ MAX_CHUNK_LEN },
}

impl Params {
    ghost use Rattle.sd_base.specs.Params.{numbers_of};

    /// The parameters with these numbers. They are refused if and only if a number is out of its
    /// range, and the error names the first that is.
    pub fn new(
        polynomial: u64,
        bits: u32,
        target: u32,
        min: u32,
        max: u32,
    ) -> Result<Params, BadParams>
        ensures refused { let numbers : RawParams =
            record { polynomial = polynomial; bits = bits; target = target; min = min; max = max }
            in result_err result ≡ bad_parameter numbers }
        ensures made { let numbers : RawParams =
            record { polynomial = polynomial; bits = bits; target = target; min = min; max = max }
            in IfOk result (λ params. numbers_of params ≡ numbers) }
    {
        if polynomial < MIN_POLYNOMIAL || polynomial % 2 == 0 {
            return Err(BadParams::Polynomial);
        }
        if bits == 0 || bits > MAX_BITS {
            return Err(BadParams::Bits);
        }
        if target >= 1 << bits {
            return Err(BadParams::Target);
        }
        if min < MIN_CHUNK_LEN {
            return Err(BadParams::Min);
        }
        if max < min || max > MAX_CHUNK_LEN {
            return Err(BadParams::Max);
        }
        Ok(Params {
            polynomial,
            bits,
            target,
            min,
            max,
        })
    }
}
