ghost use Rattle.std.specs.Prelude.{◌≡◌, ℕ, List, length};

/// Names bytes by 32 bytes. The name is a function of the bytes alone, and the same for all values
/// of the type, so all workers that have a namer give a chunk the same name. Different bytes may
/// have the same name.
pub trait Namer: Send + Sync + Drop {
    /// The function that names bytes.
    ghost name_of: { List ℕ → List ℕ };

    /// The name of these bytes.
    fn name(&self, bytes: &[u8]) -> [u8; 32]
        ensures name { result ≡ name_of bytes.now };

    /// A name has 32 bytes.
    ghost whole: { (bytes : List ℕ) → length (name_of bytes) ≡ 32 };
}

impl<N: Namer> Namer for &N {
    ghost name_of = { N.name_of };

    fn name(&self, bytes: &[u8]) -> [u8; 32] {
        (**self).name(bytes)
    }

    ghost whole = { N.whole };
}
