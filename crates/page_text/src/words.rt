//! The words of a line: its parts, numbers and bytes.
ghost use Rattle.std.specs.Prelude.{◌≡◌, ℕ, ◌/◌, ◌%◌, ◌^◌, ◌<◌, List, IfOk, decimal, MatchOption, ◌≢◌};
ghost use Rattle.page_text.specs.Lines.{before, behind};
ghost use Rattle.page_text.specs.Pages.{hex_digit, hex, Bytes};

use std::alloc::{AllocError, Global};
use std::str::from_utf8;

/// What stands before the first `byte`, and what stands behind it.
pub fn split(text: &[u8], byte: u8) -> (&[u8], &[u8])
    ensures front { result.0.now ≡ before byte text.now }
    ensures back { result.1.now ≡ behind byte text.now }
{
    match text.iter().position(|b| *b == byte) {
        Some(i) => (&text[..i], &text[i + 1..]),
        None => (text, &[]),
    }
}

/// The number that a whole word writes, with no sign and no leading zero.
pub fn number(word: &[u8]) -> Option<u64>
    ensures reads { MatchOption result ((n : ℕ) → n < 2 ^ 64 → word.now ≢ decimal n) (λ n. (n < 2 ^ 64) × (word.now ≡ decimal n)) }
{
    match word {
        // `parse` also takes these.
        [b'+', ..] | [b'0', _, ..] => None,
        _ => from_utf8(word).ok()?.parse().ok(),
    }
}

fn hex_value(digit: u8) -> Option<u8>
    ensures reads { MatchOption result ((d : ℕ) → d < 16 → digit ≢ hex_digit d) (λ d. (d < 16) × (digit ≡ hex_digit d)) }
{
    match digit {
        b'0'..=b'9' => Some(digit - b'0'),
        b'A'..=b'F' => Some(digit - b'A' + 10),
        _ => None,
    }
}

// The byte that two digits write.
fn hex_pair(high: u8, low: u8) -> Option<u8>
    ensures reads { MatchOption result ((b : ℕ) → b < 256 → high ≡ hex_digit (b / 16) → low ≢ hex_digit (b % 16)) (λ b. (b < 256) × (high ≡ hex_digit (b / 16)) × (low ≡ hex_digit (b % 16))) }
{
    Some(hex_value(high)? * 16 + hex_value(low)?)
}

/// The bytes that a whole word writes.
pub fn hex_bytes(alloc: Global, word: &[u8]) -> Result<Option<Vec<u8>>, AllocError>
    ensures reads { IfOk result (λ o. MatchOption o ((bs : List ℕ) → Bytes bs → word.now ≢ hex bs) (λ v. Bytes v.items × (word.now ≡ hex v.items))) }
{
    let (pairs, rest) = word.as_chunks::<2>();
    if !rest.is_empty() {
        return Ok(None);
    }
    let mut bytes = Vec::with_capacity(alloc, pairs.len())?;
    for [high, low] in pairs {
        let Some(byte) = hex_pair(*high, *low) else {
            return Ok(None);
        };
        bytes.push(byte)?;
    }
    Ok(Some(bytes))
}
