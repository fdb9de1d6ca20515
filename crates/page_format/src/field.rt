//! A field as a reader finds it.

/// The number and how many bytes it takes.
#[derive(Clone, Copy, PartialEq, Eq, Debug)]
pub struct Field {
    pub value: u64,
    pub len: usize,
}

/// Why there is no number: the bytes end before it does, it goes on past its longest form, or it exceeds its type.
#[derive(Clone, Copy, PartialEq, Eq, Debug)]
pub enum BadField {
    Cut,
    TooLong,
    TooLarge,
}
