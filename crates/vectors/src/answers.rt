//! Our answers to recorded commands, in the words of the recorder.
ghost use Rattle.std.specs.Prelude.{IfOk, string_bytes};
ghost use Rattle.vectors.specs.Answers.{PageAnswer, SizeAnswer};

use key_pages::max_buffer_size;
use page_report::{Failure, own_page};
use page_text::Hex;
use recorded::number;
use std::alloc::{AllocError, Global};
use std::str::SplitWhitespace;

/// `keys W K K ..` asks for the page of the keys at width W, `maxsize W N` for the bound of N keys.
pub fn answer(alloc: Global, command: &str) -> Result<String, AllocError> {
    let mut words = command.split_whitespace();
    match words.next() {
        Some("keys") => keys_answer(alloc, words),
        Some("maxsize") => size_answer(alloc, words),
        _ => String::from_str(alloc, "no such command"),
    }
}

// The next word as a number, and 0 where there is none.
fn next_number(words: &mut SplitWhitespace<'_>) -> usize {
    words.next().map_or(0, |word| number::<u32>(word)) as usize
}

fn keys_answer(alloc: Global, mut words: SplitWhitespace<'_>) -> Result<String, AllocError> {
    let width = next_number(&mut words);
    let keys: Vec<u32> = words.map(|word| number(word)).collect(alloc)?;
    page_line(alloc, width, &keys)
}

fn size_answer(alloc: Global, mut words: SplitWhitespace<'_>) -> Result<String, AllocError> {
    let width = next_number(&mut words);
    let count = next_number(&mut words);
    size_line(alloc, width, count)
}

/// The page of the keys, in hex.
pub fn page_line(alloc: Global, width: usize, keys: &[u32]) -> Result<String, AllocError>
    ensures page { IfOk result (λ s. PageAnswer width keys.now (string_bytes s)) }
{
    match own_page(alloc, width, keys) {
        Ok(page) => format!(in alloc; "keys :{}", Hex(&page)),
        Err(Failure::Rejected(_)) => String::from_str(alloc, "rejected"),
        Err(Failure::Memory(error)) => Err(error),
    }
}

// The most bytes that so many keys take.
fn size_line(alloc: Global, width: usize, count: usize) -> Result<String, AllocError>
    ensures size { IfOk result (λ s. SizeAnswer width count (string_bytes s)) }
{
    match max_buffer_size(width, count) {
        Ok(size) => format!(in alloc; "maxsize {size}"),
        Err(_) => String::from_str(alloc, "rejected"),
    }
}
