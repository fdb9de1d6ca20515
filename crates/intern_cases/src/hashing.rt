//! `fnv :HEX`, `seeded SEED :HEX` and `zero :HEX` ask for a hash, in decimal.
use crate::words::{bytes, next_word};
use interner::KeyHash;
use std::alloc::{AllocError, Global};
use std::str::SplitWhitespace;

pub(crate) fn hash_answer<H: KeyHash + Drop>(
    alloc: Global,
    hash: H,
    mut words: SplitWhitespace<'_>,
) -> Result<String, AllocError> {
    let value = bytes(alloc, next_word(&mut words))?;
    format!(in alloc; "{}", hash.hash_one(&value))
}
