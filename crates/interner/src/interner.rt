//! The interner: a store of entries, and the table of slots that finds an entry by its hash.
ghost use Rattle.std.specs.Prelude.{◌≡◌, ℕ, [], ◌++◌, drop, OnErr};
ghost use Rattle.page_format.specs.Faults.{told};
ghost use Rattle.interner.specs.Entries.{Holds, in_use};
ghost use Rattle.interner.specs.Interning.{Step, FoundOrPushed, EveryRun};

use crate::hash::KeyHash;
use crate::slot::Slot;
use crate::storage::Storage;
use page_format::{Fault, TABLE_SLOTS};

/// That the slots find every entry is no ghost field: a store may come with entries that they do not know.
#[derive(Drop)]
pub struct Interner<S: Storage, H: KeyHash> {
    storage: S,
    hash: H,
    // each names an entry, or is empty; no map of std, which would allocate
    slots: [Slot; TABLE_SLOTS],
}

// What a walk along the slots came to: one of three ends, which neither an Option nor a Result names.
#[derive(Clone, Copy)]
enum Probe {
    // the entry that equals the value
    Hit(usize),
    // the first empty slot
    Free(usize),
    // no slot is empty
    Full,
}

impl<S: Storage, H: KeyHash> Interner<S, H> {
    ghost use Rattle.interner.specs.Tables.{Sound, Probed};

    /// Over a store without entries. With entries in it every call is as safe, and may enter a value twice.
    pub fn new(storage: S, hash: H) -> Interner<S, H>
        ensures storage { result.storage ≡ storage }
        ensures hash { result.hash ≡ hash }
        ensures sound { S.entries storage ≡ [] → Sound (H.hashed result.hash) (S.entries result.storage) result.slots }
        ensures every_run { EveryRun (S.store result.storage) }
    {
        Interner {
            storage,
            hash,
            slots: [Slot::EMPTY; TABLE_SLOTS],
        }
    }

    // The walk for `value` from the slot of its hash, and around the end.
    #[tactic(auto, using(crate::proofs::Rounds::came_one))]
    fn probe(&self, value: &[u8]) -> Probe
        ensures { Probed (H.hashed self.now.hash) (S.entries self.now.storage) self.now.slots value.now result }
    {
        let start = self.hash.hash_one(value) as usize % TABLE_SLOTS;
        for at in (start..TABLE_SLOTS).chain(0..start) {
            let Some(key) = self.slots[at].key() else {
                return Probe::Free(at);
            };
            if self.storage.equals(key, value) {
                return Probe::Hit(key);
            }
        }
        Probe::Full
    }

    /// The key of `value`, which becomes an entry if it is none.
    pub fn intern(&mut self, value: &[u8], place: usize) -> Result<usize, Fault>
        ensures step { Sound (H.hashed self.old.hash) (S.entries self.old.storage) self.old.slots → Step (S.store self.old.storage) (S.entries self.old.storage) (record { value = value.now; place = place; answer = told result }) (S.entries self.new.storage) }
        ensures sound { Sound (H.hashed self.old.hash) (S.entries self.old.storage) self.old.slots → Sound (H.hashed self.new.hash) (S.entries self.new.storage) self.new.slots }
        ensures known { Sound (H.hashed self.old.hash) (S.entries self.old.storage) self.old.slots → (k : ℕ) → Holds (S.entries self.old.storage) k value.now → self.new ≡ self.old }
        ensures answer { FoundOrPushed (S.store self.old.storage) (S.entries self.old.storage) value.now place (told result) (S.entries self.new.storage) }
        ensures same { (S.store self.new.storage ≡ S.store self.old.storage) × (self.new.hash ≡ self.old.hash) }
        ensures rejected { OnErr result (self.new ≡ self.old) }
        ensures bytes { S.memory self.new.storage ≡ (S.store self.old.storage).page (S.entries self.new.storage) ++ drop (in_use (S.store self.old.storage) (S.entries self.new.storage)) (S.memory self.old.storage) }
    {
        match self.probe(value) {
            Probe::Hit(key) => Ok(key),
            Probe::Free(at) => {
                let key = self.storage.push(value, place)?;
                self.slots[at] = Slot::of(key);
                Ok(key)
            }
            Probe::Full => self.storage.push(value, place),
        }
    }

    pub fn storage(&self) -> &S
        ensures { result.now ≡ self.now.storage }
    {
        &self.storage
    }
}

impl<S: Storage, H: KeyHash + Drop> Interner<S, H> {
    pub fn into_inner(self) -> S
        ensures { result ≡ self.storage }
    {
        self.storage
    }
}
