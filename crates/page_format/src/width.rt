//! The width of a fixed-width column, in bytes.
ghost use Rattle.std.specs.Prelude.{◌<◌, ◌≤◌};
ghost use Rattle.page_format.specs.Limits.{fixed_width};

use crate::fault::{Fault, Layer, Rejection};
use crate::limits::MAX_FIXED_WIDTH;

#[derive(Clone, Copy, PartialEq, Eq, Debug)]
pub struct Width {
    bytes: usize,
    ghost some: { 0 < bytes },
    ghost within: { bytes ≤ fixed_width },
}

impl Width {
    ghost use Rattle.std.specs.Prelude.{◌≡◌};
    ghost use Rattle.page_format.specs.Faults.{told_as};
    ghost use Rattle.page_format.specs.Plain.{given_width};

    /// A width above 64 is above a limit, and 0 is malformed.
    pub fn new(bytes: usize) -> Result<Width, Fault>
        ensures { told_as (λ w. w.bytes) result ≡ given_width bytes }
    {
        if bytes > MAX_FIXED_WIDTH {
            return Err(Fault::new(Rejection::AboveLimit, Layer::Array, 0));
        }
        if bytes == 0 {
            return Err(Fault::new(Rejection::MalformedArray, Layer::Array, 0));
        }
        Ok(Width { bytes })
    }

    pub fn bytes(self) -> usize
        ensures { result ≡ self.bytes }
    {
        self.bytes
    }
}
