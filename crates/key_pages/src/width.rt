//! The bit width of keys. Not `page_format::Width`: that is of bytes, and never 0.
ghost use Rattle.std.specs.Prelude.{◌≤◌};
ghost use Rattle.page_format.specs.Limits.{key_width};

use page_format::{MAX_KEY_WIDTH, ceil};

#[derive(Clone, Copy, PartialEq, Eq, Debug)]
pub(crate) struct KeyWidth {
    bits: u8,
    ghost narrow: { bits ≤ key_width },
}

impl KeyWidth {
    ghost use Rattle.std.specs.Prelude.{◌≡◌, ◌<◌, MatchOption};
    ghost use Rattle.page_format.specs.Bits.{bytes_for};
    ghost use Rattle.page_format.specs.Limits.{key_width};

    // None above the limit.
    pub(crate) fn new(bits: usize) -> Option<KeyWidth>
        ensures { MatchOption result (key_width < bits) (λ w. w.bits ≡ bits) }
    {
        if bits > MAX_KEY_WIDTH {
            return None;
        }
        Some(KeyWidth { bits: bits as u8 })
    }

    pub(crate) fn bits(self) -> usize
        ensures { result ≡ self.bits }
    {
        usize::from(self.bits)
    }

    // The whole bytes that hold a key.
    pub(crate) fn bytes(self) -> usize
        ensures { result ≡ bytes_for self.bits }
    {
        ceil(self.bits(), 8)
    }
}

impl From<KeyWidth> for u8 {
    ghost use Rattle.std.specs.Prelude.{◌≡◌};

    ghost from_gives = { λ w n. n ≡ w.bits };

    fn from(width: KeyWidth) -> u8 {
        width.bits
    }
}
