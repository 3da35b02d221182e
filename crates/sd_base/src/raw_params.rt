/// Five numbers that steer cutting, as they were given: valid or not. A `Params` has such numbers
/// that are valid.
#[derive(Clone, Copy, Debug, PartialEq, Eq)]
pub struct RawParams {
    /// The polynomial over the two-element field, one bit a coefficient.
    pub polynomial: u64,
    /// The number of low bits of a fingerprint that are compared.
    pub bits: u32,
    /// The value of these bits at a candidate.
    pub target: u32,
    /// Bytes of the shortest chunk. The last chunk of an input may be shorter.
    pub min: u32,
    /// Bytes of the longest chunk.
    pub max: u32,
}
