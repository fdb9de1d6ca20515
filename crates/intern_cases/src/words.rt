//! The words of a command. A word that is not what it should be counts as 0 or as no bytes, and its answer then differs from the expected one.
use page_text::hex_bytes;
use recorded::number;
use std::alloc::{AllocError, Global};
use std::str::{FromStr, SplitWhitespace};

// The bytes that a word `:HEX` writes.
pub(crate) fn bytes(alloc: Global, word: &str) -> Result<Vec<u8>, AllocError> {
    let hex = word.strip_prefix(":").unwrap_or("");
    let bytes = hex_bytes(alloc, hex.as_bytes())?;
    Ok(bytes.unwrap_or_else(|| Vec::new(alloc)))
}

// The next word, and an empty one behind the last.
pub(crate) fn next_word<'a>(words: &mut SplitWhitespace<'a>) -> &'a str {
    words.next().unwrap_or("")
}

// The numbers that are left.
pub(crate) fn numbers<N>(alloc: Global, words: SplitWhitespace<'_>) -> Result<Vec<N>, AllocError>
where
    N: FromStr + Default + Drop,
    N::Err: Drop,
{
    words.map(|word| number(word)).collect(alloc)
}

// The words of the part before, between or behind the slashes.
pub(crate) fn part(command: &str, index: usize) -> SplitWhitespace<'_> {
    command
        .split('/')
        .nth(index)
        .unwrap_or("")
        .split_whitespace()
}
