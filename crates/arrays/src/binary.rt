//! An array of byte strings under offsets of 32 or 64 bits: value i stands from offset i to offset i + 1.
ghost use Rattle.std.specs.Prelude.{◌≡◌, map, IfOk, vec_len};
ghost use Rattle.std.proofs.Common.{arith};
ghost use Rattle.std.proofs.lemmas.List.FromFn.{length-map-range_with_len};
ghost use Rattle.arrays.specs.Offsets.{Passes, offset_rules, offset_values};
ghost use Rattle.arrays.specs.Opening.{Answers, FindsBroken, Fit};

use crate::accessor::ArrayAccessor;
use crate::native::{ArrowNativeType, place_at};
use page_format::{Fault, Layer, MAX_ARRAY_VALUES, MAX_DATA_BYTES, Rejection};

#[derive(Drop)]
pub struct BinaryArray<O: ArrowNativeType> {
    offsets: Vec<O>,
    bytes: Vec<u8>,
    ghost fit: { Fit (offset_rules (map O.number offsets.items) (vec_len bytes)) },
}

// The place that an offset names, if that is from `low` to `high`.
fn place_between<O: ArrowNativeType>(offset: O, low: usize, high: usize) -> Option<usize>
    ensures passes { Passes (O.number offset) low high result }
{
    offset
        .to_usize()
        .filter(|place| (low..=high).contains(place))
}

// The place of the first offset that breaks its rule.
fn first_broken<O: ArrowNativeType>(offsets: &[O], bytes: usize) -> Option<usize>
    ensures first { FindsBroken (offset_rules (map O.number offsets.now) bytes) result }
{
    // a loop: the rule names the offset before, which `position` does not see and `windows` lacks for the first, and `try_fold` would answer by an error
    let mut before = 0;
    for (j, offset) in offsets.iter().enumerate() {
        let Some(at) = place_between(*offset, before, bytes) else {
            return Some(j);
        };
        before = at;
    }
    None
}

impl<O: ArrowNativeType> BinaryArray<O> {
    /// Whether offsets keep all rules over so many bytes of data.
    pub fn check(offsets: &[O], bytes: usize) -> Result<(), Fault>
        ensures answers { Answers (offset_rules (map O.number offsets.now) bytes) result }
    {
        if offsets.len() > MAX_ARRAY_VALUES + 1 || bytes > MAX_DATA_BYTES {
            return Err(Fault::new(Rejection::AboveLimit, Layer::Array, 0));
        }
        if offsets.is_empty() {
            return Err(Fault::new(Rejection::MalformedArray, Layer::Array, 0));
        }
        if let Some(place) = first_broken(offsets, bytes) {
            return Err(Fault::new(Rejection::MalformedArray, Layer::Array, place));
        }
        Ok(())
    }

    /// Takes memory as an array, or says which rule it breaks.
    pub fn open(offsets: Vec<O>, bytes: Vec<u8>) -> Result<BinaryArray<O>, Fault>
        ensures answers { Answers (offset_rules (map O.number offsets.items) (vec_len bytes)) result }
        ensures holds { IfOk result (λ a. (a.offsets ≡ offsets) × (a.bytes ≡ bytes)) }
        ensures means { IfOk result (λ a. offset_values (map O.number a.offsets.items) a.bytes.items ≡ offset_values (map O.number offsets.items) bytes.items) }
    {
        BinaryArray::check(&offsets, bytes.len())?;
        Ok(BinaryArray { offsets, bytes })
    }

    /// Gives the memory back.
    pub fn into_memory(self) -> (Vec<O>, Vec<u8>)
        ensures offsets { result.0 ≡ self.offsets }
        ensures bytes { result.1 ≡ self.bytes }
    {
        let BinaryArray { offsets, bytes } = self;
        (offsets, bytes)
    }
}

impl<O: ArrowNativeType> ArrayAccessor for BinaryArray<O> {
    ghost values = { λ s. offset_values (map O.number s.offsets.items) s.bytes.items };

    ghost few = { λ x. Prim.grind (arith, length-map-range_with_len) };

    #[tactic(auto, using(crate::proofs::Values::lengths))]
    fn len(&self) -> usize {
        self.offsets.len() - 1
    }

    fn value(&self, i: usize) -> Option<&[u8]> {
        let from = place_at(&self.offsets, i)?;
        let to = place_at(&self.offsets, i + 1)?;
        Some(&self.bytes[from..to])
    }
}
