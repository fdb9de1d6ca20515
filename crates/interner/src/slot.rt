//! A slot of the interner's table.
ghost use Rattle.std.specs.Prelude.{◌≡◌, ◌<◌, Some, None};
ghost use Rattle.page_format.specs.Limits.{most_entries};

use std::marker::Model;

/// Empty, or the number of an entry: two bytes, where an `Option<u16>` takes four.
#[derive(Clone, Copy)]
pub(crate) struct Slot {
    // 0, or one more than the entry's number
    name: u16,
}

impl Model for Slot {
    ghost use Rattle.std.specs.Prelude.{ℕ, Option};
    ghost use Rattle.interner.specs.Slots.{slot_of_number, number_of_slot, number_of_slot_of_number};

    ghost Value = { Option ℕ };

    ghost view = { λ s. slot_of_number s.name };

    ghost inverse = { λ o. record { name = number_of_slot o } };

    ghost inverse_ok = { λ s h i. record { name = number_of_slot_of_number s.name i } };
}

impl Slot {
    pub(crate) const EMPTY: Slot = Slot { name: 0 };

    pub(crate) fn of(key: usize) -> Slot
        requires { key < most_entries }
        ensures { result ≡ Some key }
    {
        Slot {
            name: (key + 1) as u16,
        }
    }

    /// The number of the entry.
    pub(crate) fn key(self) -> Option<usize>
        ensures { result ≡ self }
    {
        match self.name {
            0 => None,
            name => Some(usize::from(name - 1)),
        }
    }
}
