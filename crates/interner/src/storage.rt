//! A store of entries, each under its number.
ghost use Rattle.std.specs.Prelude.{◌≡◌, ℕ, ◌≤◌, List, [], ◌++◌, length, drop, OnErr, Decides, MatchOption};
ghost use Rattle.page_format.specs.Faults.{told};
ghost use Rattle.page_format.specs.Plain.{Bytes};
ghost use Rattle.interner.specs.Entries.{Store, Lawful, Kept, Holds, in_use, pushed, after};

use page_format::{Column, Fault};

pub trait Storage {
    ghost entries: { Self → List Bytes };

    // its whole memory, byte by byte
    ghost memory: { Self → Bytes };

    ghost store: { Self → Store };

    fn column(&self) -> Column
        ensures { result ≡ (store self.now).column };

    fn len(&self) -> usize
        ensures { result ≡ length (entries self.now) };

    fn bytes_in_use(&self) -> usize
        ensures { result ≡ in_use (store self.now) (entries self.now) };

    // false where there is no entry of that number
    fn equals(&self, key: usize, value: &[u8]) -> bool
        ensures { Decides result (Holds (entries self.now) key value.now) }
    {
        self.get(key) == Some(value)
    }

    fn get(&self, key: usize) -> Option<&[u8]>
        ensures { MatchOption result (length (entries self.now) ≤ key) (λ v. Holds (entries self.now) key v.now) };

    fn page(&self) -> &[u8]
        ensures { result.now ≡ (store self.now).page (entries self.now) };

    fn push(&mut self, value: &[u8], place: usize) -> Result<usize, Fault>
        ensures answer { told result ≡ pushed (store self.old) (entries self.old) value.now place }
        ensures grown { entries self.new ≡ after (entries self.old) value.now (told result) }
        ensures same { store self.new ≡ store self.old }
        ensures bytes { memory self.new ≡ (store self.old).page (entries self.new) ++ drop (in_use (store self.old) (entries self.new)) (memory self.old) }
        ensures unchanged { OnErr result (self.new ≡ self.old) };

    ghost lawful: { (x : Self) → Lawful (store x) };

    ghost kept: { (x : Self) → Kept (store x) (entries x) (memory x) };
}
