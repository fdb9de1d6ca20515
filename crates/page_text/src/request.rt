//! What a text asks for, or why it is not read.
use crate::complaint::{Complaint, Wrong};
use std::alloc::AllocError;

/// What a text asks for: `count` values of the page `bytes`, and `entries` entries.
#[derive(Drop, PartialEq, Debug)]
pub struct Request {
    pub count: u64,
    pub bytes: Vec<u8>,
    pub entries: u64,
}

/// A fault of the text, or no memory for the page's bytes.
#[derive(Clone, Copy, PartialEq, Eq, Debug)]
pub enum RequestError {
    Wrong(Wrong),
    Memory(AllocError),
}

impl From<Complaint> for RequestError {
    ghost use Rattle.std.specs.Prelude.{◌≡◌};
    ghost use Rattle.page_text.specs.Requests.{wrong};

    ghost from_gives = { λ what e. e ≡ wrong what };

    fn from(what: Complaint) -> RequestError {
        RequestError::Wrong(Wrong::from(what))
    }
}

impl From<AllocError> for RequestError {
    ghost use Rattle.std.specs.Prelude.{◌≡◌};
    ghost use Rattle.page_text.specs.declared.request.RequestError.TheVariants.{Memory};

    ghost from_gives = { λ e r. r ≡ Memory e };

    fn from(error: AllocError) -> RequestError {
        RequestError::Memory(error)
    }
}
