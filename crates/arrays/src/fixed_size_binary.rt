//! An array of byte strings of one width, which stand one after another.
ghost use Rattle.std.specs.Prelude.{◌≡◌, IfOk, vec_len};
ghost use Rattle.std.proofs.Common.{arith};
ghost use Rattle.std.proofs.lemmas.List.FromFn.{length-map-range_with_len};
ghost use Rattle.arrays.specs.Opening.{Answers, Fit};
ghost use Rattle.arrays.specs.Widths.{width_rules, width_values};

use crate::accessor::ArrayAccessor;
use page_format::{Fault, Layer, MAX_ARRAY_VALUES, MAX_DATA_BYTES, Rejection, Width};

#[derive(Drop)]
pub struct FixedSizeBinaryArray {
    width: Width,
    bytes: Vec<u8>,
    ghost fit: { Fit (width_rules width.bytes (vec_len bytes)) },
}

// The width, where so many bytes of data keep all rules at it.
fn checked_width(width: usize, bytes: usize) -> Result<Width, Fault>
    ensures answers { Answers (width_rules width bytes) result }
    ensures same { IfOk result (λ w. w.bytes ≡ width) }
{
    if bytes > MAX_DATA_BYTES {
        return Err(Fault::new(Rejection::AboveLimit, Layer::Array, 0));
    }
    let width = Width::new(width)?;
    if bytes / width.bytes() > MAX_ARRAY_VALUES {
        return Err(Fault::new(Rejection::AboveLimit, Layer::Array, 0));
    }
    if bytes % width.bytes() != 0 {
        return Err(Fault::new(Rejection::MalformedArray, Layer::Array, 0));
    }
    Ok(width)
}

impl FixedSizeBinaryArray {
    /// Whether so many bytes of data keep all rules at a width.
    pub fn check(width: usize, bytes: usize) -> Result<(), Fault>
        ensures answers { Answers (width_rules width bytes) result }
    {
        checked_width(width, bytes)?;
        Ok(())
    }

    /// Takes memory as an array, or says which rule it breaks.
    pub fn open(width: usize, bytes: Vec<u8>) -> Result<FixedSizeBinaryArray, Fault>
        ensures answers { Answers (width_rules width (vec_len bytes)) result }
        ensures holds { IfOk result (λ a. (a.width.bytes ≡ width) × (a.bytes ≡ bytes)) }
        ensures means { IfOk result (λ a. width_values a.width.bytes a.bytes.items ≡ width_values width bytes.items) }
    {
        let width = checked_width(width, bytes.len())?;
        Ok(FixedSizeBinaryArray { width, bytes })
    }

    /// Gives the width and the memory back.
    pub fn into_memory(self) -> (usize, Vec<u8>)
        ensures width { result.0 ≡ self.width.bytes }
        ensures bytes { result.1 ≡ self.bytes }
    {
        let FixedSizeBinaryArray { width, bytes } = self;
        (width.bytes(), bytes)
    }
}

impl ArrayAccessor for FixedSizeBinaryArray {
    ghost values = { λ s. width_values s.width.bytes s.bytes.items };

    ghost few = { λ x. Prim.grind (arith, length-map-range_with_len) };

    #[tactic(auto, using(crate::proofs::Values::lengths))]
    fn len(&self) -> usize {
        self.bytes.len() / self.width.bytes()
    }

    #[tactic(auto, using(crate::proofs::Values::ends_within, crate::proofs::Values::at_width))]
    fn value(&self, i: usize) -> Option<&[u8]> {
        let width = self.width.bytes();
        (i < self.len()).then(|| &self.bytes[i * width..(i + 1) * width])
    }
}
