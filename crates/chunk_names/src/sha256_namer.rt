ghost use Rattle.sha2.specs.Sha256.{sha256};
ghost use Rattle.sha2.proofs.Facts256.{length-sha256};

use crate::Namer;
use sha2::{Digest, Sha256};

/// Names bytes by SHA-256 (FIPS 180-4).
#[derive(Clone, Copy, Debug, PartialEq, Eq)]
pub struct Sha256Namer;

impl Namer for Sha256Namer {
    ghost name_of = { sha256 };

    fn name(&self, bytes: &[u8]) -> [u8; 32] {
        Sha256::digest(bytes)
    }

    ghost whole = { length-sha256 };
}
