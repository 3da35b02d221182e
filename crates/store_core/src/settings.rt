//! The settings of a store, as bytes.
ghost use Rattle.std.specs.Prelude.{◌≡◌, IfSome, IfNone};
ghost use Rattle.sd_base.specs.Params.{numbers_of};
ghost use Rattle.sd_base.specs.Parameters.{IsValid};
ghost use Rattle.sd_base.specs.Settings.{settings_of};
ghost use Rattle.sd_base.specs.declared.raw_params.RawParams.{RawParams};

use sd_base::{METHOD_RABIN, Params, RawParams, SETTINGS_LEN, SETTINGS_VERSION};

/// Bytes of the settings, as a length of arrays.
pub(crate) const SETTINGS_SIZE: usize = SETTINGS_LEN as usize;

/// The settings of a store with these parameters. It needs no memory.
pub fn settings_of(params: &Params) -> [u8; SETTINGS_SIZE]
    ensures settings { result ≡ settings_of (numbers_of params.now) }
{
    let [p0, p1, p2, p3, p4, p5, p6, p7] = params.polynomial.to_be_bytes();
    let [t0, t1, t2, t3] = params.target.to_be_bytes();
    let [m0, m1, m2, m3] = params.min.to_be_bytes();
    let [n0, n1, n2, n3] = params.max.to_be_bytes();
    let (version, bits) = (SETTINGS_VERSION, params.bits as u8);
    [
        b'S',
        b'S',
        b'C',
        b'H',
        version,
        METHOD_RABIN,
        bits,
        0,
        p0,
        p1,
        p2,
        p3,
        p4,
        p5,
        p6,
        p7,
        t0,
        t1,
        t2,
        t3,
        m0,
        m1,
        m2,
        m3,
        n0,
        n1,
        n2,
        n3,
        0,
        0,
        0,
        0,
    ]
}

/// The valid parameters whose settings these bytes are. There are none exactly if the bytes are the
/// settings of no valid parameters.
pub(crate) fn read_settings(bytes: &[u8; SETTINGS_SIZE]) -> Option<Params>
    ensures read { IfSome result (λ params. bytes.now ≡ settings_of (numbers_of params)) }
    ensures none { IfNone result ((raw : RawParams) → IsValid raw → bytes.now ≡ settings_of raw → ⊥) }
{
    let raw = raw_params(bytes);
    let params = Params::new(raw.polynomial, raw.bits, raw.target, raw.min, raw.max).ok()?;
    if settings_of(&params) == *bytes {
        Some(params)
    } else {
        None
    }
}

// The numbers at the places of parameters.
fn raw_params(bytes: &[u8; SETTINGS_SIZE]) -> RawParams
    ensures same { (raw : RawParams) → IsValid raw → bytes.now ≡ settings_of raw → result ≡ raw }
{
    let [
        _,
        _,
        _,
        _,
        _,
        _,
        bits,
        _,
        p0,
        p1,
        p2,
        p3,
        p4,
        p5,
        p6,
        p7,
        ..
    ] = *bytes;
    let [
        ..,
        t0,
        t1,
        t2,
        t3,
        m0,
        m1,
        m2,
        m3,
        n0,
        n1,
        n2,
        n3,
        _,
        _,
        _,
        _,
    ] = *bytes;
    RawParams {
        polynomial: u64::from_be_bytes([p0, p1, p2, p3, p4, p5, p6, p7]),
        bits: u32::from(bits),
        target: u32::from_be_bytes([t0, t1, t2, t3]),
        min: u32::from_be_bytes([m0, m1, m2, m3]),
        max: u32::from_be_bytes([n0, n1, n2, n3]),
    }
}
