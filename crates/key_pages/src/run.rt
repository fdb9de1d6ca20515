//! A run of a key page. It borrows its bytes from the page, and `place` is where it begins there. An enum whose parts are public keeps
//! no fact, so `len` and `key` ask that the run is whole.
ghost use Rattle.std.specs.Prelude.{◌≡◌, ◌+◌, ◌*◌, ◌≤◌, length};
ghost use Rattle.page_format.specs.Bits.{le_number, packed_value};

use crate::width::KeyWidth;
use page_format::{read_le, read_packed};

#[derive(Clone, Copy)]
pub enum Run<'a> {
    // one value, `count` times
    Repeat {
        count: usize,
        value: &'a [u8],
        place: usize,
    },
    // eight values to a group
    Packed {
        groups: usize,
        bytes: &'a [u8],
        place: usize,
    },
}

// A repeated value: all its bytes, the lowest first.
fn repeated_key(value: &[u8]) -> u32
    requires short { length value.now ≤ 4 }
    ensures value { result ≡ le_number value.now }
{
    read_le(value, value.len()).unwrap() as u32
}

// The value at an index of packed groups.
#[tactic(auto, using(crate::proofs::Fields::packed_fits))]
fn packed_key(bytes: &[u8], width: KeyWidth, index: usize) -> u32
    requires within { (index + 1) * width.bits ≤ 8 * length bytes.now }
    ensures value { result ≡ packed_value width.bits bytes.now index }
{
    read_packed(bytes, width.bits(), index).unwrap() as u32
}

impl Run<'_> {
    ghost use Rattle.std.specs.Prelude.{◌≡◌, ℕ, ◌<◌, true, slice_index};
    ghost use Rattle.key_pages.specs.Meaning.{run_length, run_values};
    ghost use Rattle.key_pages.specs.Views.{view, whole};

    // How many values the run has.
    pub(crate) fn len(&self) -> usize
        requires whole { (w : ℕ) × (whole w (view self.now) ≡ true) }
        ensures count { result ≡ run_length (view self.now) }
    {
        match *self {
            Run::Repeat { count, .. } => count,
            Run::Packed { groups, .. } => 8 * groups,
        }
    }

    // The value at an index.
    #[tactic(auto, using(crate::proofs::Stepping::run_keys))]
    pub(crate) fn key(&self, width: KeyWidth, index: usize) -> u32
        requires whole { whole width.bits (view self.now) ≡ true }
        requires within { index < run_length (view self.now) }
        ensures value { result ≡ slice_index (run_values width.bits (view self.now)) index }
    {
        match *self {
            Run::Repeat { value, .. } => repeated_key(value),
            Run::Packed { bytes, .. } => packed_key(bytes, width, index),
        }
    }
}
