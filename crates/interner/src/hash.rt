//! Hashes of byte strings.
ghost use Rattle.std.specs.Prelude.{◌≡◌, ℕ};
ghost use Rattle.page_format.specs.Plain.{Bytes};
ghost use Rattle.interner.specs.Hashes.{fnv_from, fnv_basis};

/// A function from byte strings to 64-bit numbers.
pub trait KeyHash {
    ghost hashed: { Self → Bytes → ℕ };

    fn hash_one(&self, value: &[u8]) -> u64
        ensures { result ≡ hashed self.now value.now };
}

const FNV_BASIS: u64 = 0xcbf29ce484222325;

const FNV_PRIME: u64 = 0x100000001b3;

/// FNV-1a at 64 bits that begins at the caller's seed in place of the published basis.
#[derive(Clone, Copy)]
pub struct SeededFnv1a {
    pub seed: u64,
}

impl KeyHash for SeededFnv1a {
    ghost hashed = { λ h v. fnv_from h.seed v };

    fn hash_one(&self, value: &[u8]) -> u64 {
        value.iter().fold(
            self.seed,
            |hash, byte| (hash ^ u64::from(*byte)).wrapping_mul(FNV_PRIME),
        )
    }
}

/// FNV-1a at 64 bits, as published.
#[derive(Clone, Copy)]
pub struct Fnv1a;

impl Fnv1a {
    /// As published.
    pub fn new() -> Fnv1a
        ensures { result ≡ record {} }
    {
        Fnv1a
    }

    /// Begins at the caller's seed in place of the published basis.
    pub fn with_seed(seed: u64) -> SeededFnv1a
        ensures { result.seed ≡ seed }
    {
        SeededFnv1a { seed }
    }
}

impl Default for Fnv1a {
    ghost is_default = { λ h. h ≡ record {} };

    fn default() -> Fnv1a {
        Fnv1a::new()
    }
}

impl KeyHash for Fnv1a {
    ghost hashed = { λ _ v. fnv_from fnv_basis v };

    fn hash_one(&self, value: &[u8]) -> u64 {
        Fnv1a::with_seed(FNV_BASIS).hash_one(value)
    }
}

/// Every value has the hash 0: all collide.
#[derive(Clone, Copy)]
pub struct ZeroHash;

impl KeyHash for ZeroHash {
    ghost hashed = { λ _ _. 0 };

    fn hash_one(&self, _value: &[u8]) -> u64 {
        0
    }
}
