//! The signed numbers that arrays hold as offsets and keys.
ghost use Rattle.std.specs.Prelude.{◌≡◌, map, ℤ};
ghost use Rattle.arrays.specs.Numbers.{place_named, NamedAt};

pub trait ArrowNativeType: Copy + Into<i64> {
    // the number that a value stands for
    ghost number: { Self → ℤ };

    // a conversion keeps the number
    ghost widens: { (x : Self) (n : ℤ) → Self.converts x n → n ≡ number x };

    // the place that the number names, if it is not below 0
    final fn to_usize(self) -> Option<usize>
        ensures place { result ≡ place_named (number self) }
    {
        usize::try_from(self.into()).ok()
    }
}

impl ArrowNativeType for i32 {
    ghost number = { λ x. x };

    ghost widens = { λ _ _ same. same };
}

impl ArrowNativeType for i64 {
    ghost number = { λ x. x };

    ghost widens = { λ _ _ same. same };
}

// The place that number j names, if there is one.
pub(crate) fn place_at<N: ArrowNativeType>(numbers: &[N], j: usize) -> Option<usize>
    ensures place { NamedAt (map N.number numbers.now) j result }
{
    numbers.get(j)?.to_usize()
}
