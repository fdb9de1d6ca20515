//! Reads a request of two lines, `page E N :HEX` and `entries M`, and writes its parts as text.
#![tactic(auto)]

mod complaint;
mod reader;
mod request;
#[cfg(test)]
mod tests;
mod words;
mod writer;

pub use complaint::{Complaint, Wrong};
pub use reader::read_request;
pub use request::{Request, RequestError};
pub use words::hex_bytes;
pub use writer::{Hex, Spaced, push_hex, push_number, push_numbers};
