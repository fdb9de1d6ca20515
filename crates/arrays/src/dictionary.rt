//! An array of keys to the values of another array, which may be of any kind.
ghost use Rattle.std.specs.Prelude.{◌≡◌, length, IfOk, Decides};
ghost use Rattle.std.proofs.Common.{arith};
ghost use Rattle.std.proofs.lemmas.List.{length-map};
ghost use Rattle.arrays.specs.Keys.{KeyNames, key_rules, key_values};
ghost use Rattle.arrays.specs.Opening.{Answers, FindsBroken, Fit};

use crate::accessor::ArrayAccessor;
use crate::native::{ArrowNativeType, place_at};
use page_format::{Fault, Layer, MAX_ENTRIES, Rejection};

#[derive(Drop)]
pub struct DictionaryArray<V: ArrayAccessor> {
    values: V,
    keys: Vec<i32>,
    ghost fit: { Fit (key_rules keys.items (length (V.values values))) },
}

// Whether a key names one of so many values.
fn names_one(key: i32, count: usize) -> bool
    ensures names { Decides result (KeyNames key count) }
{
    key.to_usize().is_some_and(|place| place < count)
}

// The place of the first key that breaks its rule.
fn first_broken(keys: &[i32], count: usize) -> Option<usize>
    ensures first { FindsBroken (key_rules keys.now count) result }
{
    keys.iter().position(|key| !names_one(*key, count))
}

impl<V: ArrayAccessor + Drop> DictionaryArray<V> {
    /// Whether keys to the values of an array keep all rules.
    pub fn check(values: &V, keys: &[i32]) -> Result<(), Fault>
        ensures answers { Answers (key_rules keys.now (length (V.values values.now))) result }
    {
        if keys.len() > MAX_ENTRIES {
            return Err(Fault::new(Rejection::AboveLimit, Layer::Array, 0));
        }
        if let Some(place) = first_broken(keys, values.len()) {
            return Err(Fault::new(Rejection::MalformedArray, Layer::Array, place));
        }
        Ok(())
    }

    /// Takes an array and keys to its values as an array, or says which rule the keys break.
    pub fn open(values: V, keys: Vec<i32>) -> Result<DictionaryArray<V>, Fault>
        ensures answers { Answers (key_rules keys.items (length (V.values values))) result }
        ensures holds { IfOk result (λ a. (a.values ≡ values) × (a.keys ≡ keys)) }
        ensures means { IfOk result (λ a. key_values (V.values a.values) a.keys.items ≡ key_values (V.values values) keys.items) }
    {
        DictionaryArray::check(&values, &keys)?;
        Ok(DictionaryArray { values, keys })
    }

    /// Gives the array below and the keys back.
    pub fn into_parts(self) -> (V, Vec<i32>)
        ensures values { result.0 ≡ self.values }
        ensures keys { result.1 ≡ self.keys }
    {
        let DictionaryArray { values, keys } = self;
        (values, keys)
    }
}

impl<V: ArrayAccessor> ArrayAccessor for DictionaryArray<V> {
    ghost values = { λ s. key_values (V.values s.values) s.keys.items };

    ghost few = { λ x. Prim.grind (arith, length-map) };

    fn len(&self) -> usize {
        self.keys.len()
    }

    fn value(&self, i: usize) -> Option<&[u8]> {
        self.values.value(place_at(&self.keys, i)?)
    }
}
