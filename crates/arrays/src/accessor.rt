//! What every array answers.
ghost use Rattle.std.specs.Prelude.{◌≡◌, ◌≤◌, List, length};
ghost use Rattle.page_format.specs.Limits.{array_values};
ghost use Rattle.page_format.specs.Plain.{Bytes};
ghost use Rattle.arrays.specs.Values.{ValueAt};

pub trait ArrayAccessor {
    // the byte strings that the array means
    ghost values: { Self → List Bytes };

    fn len(&self) -> usize
        ensures length { result ≡ length (values self.now) };

    // the value at place i, a part of the array's memory, or nothing from the length on
    fn value(&self, i: usize) -> Option<&[u8]>
        ensures value { ValueAt (values self.now) i result };

    ghost few: { (x : Self) → length (values x) ≤ array_values };
}
