//! What the values of a column are.
use crate::width::Width;

#[derive(Clone, Copy, PartialEq, Eq, Debug)]
pub enum Column {
    // byte strings, each of its own length
    ByteStrings,
    // values of one width
    Fixed(Width),
}
