//! The reader of a request.
ghost use Rattle.std.specs.Prelude.{◌≡◌, ℕ, List, IfOk, IfErr, MatchResult};
ghost use Rattle.page_text.specs.Pages.{PageLine, EntriesLine, IsPage, IsEntries};
ghost use Rattle.page_text.specs.Requests.{Says, Short, Fault, Accepts, Rejects, Asks, Complains, Refuses};

use crate::words::{hex_bytes, number, split};
use crate::{Complaint, Request, RequestError};
use page_format::Encoding;
use std::alloc::Global;

const LONGEST: usize = 1_048_576;

#[derive(Drop)]
struct Page {
    encoding: u64,
    count: u64,
    bytes: Vec<u8>,
}

fn page_line(alloc: Global, line: &[u8]) -> Result<Page, RequestError>
    ensures reads { IfOk result (λ p. PageLine line.now p.encoding p.count p.bytes.items) }
    ensures refuses { IfErr result (λ e. Refuses e Complaint.NotPageLine (IsPage line.now → ⊥)) }
{
    let complaint = Complaint::NotPageLine;
    let words = line.strip_prefix(b"page ").ok_or(complaint)?;
    let (encoding, words) = split(words, b' ');
    let (count, word) = split(words, b' ');
    let digits = word.strip_prefix(b":").ok_or(complaint)?;
    Ok(Page {
        encoding: number(encoding).ok_or(complaint)?,
        count: number(count).ok_or(complaint)?,
        bytes: hex_bytes(alloc, digits)?.ok_or(complaint)?,
    })
}

fn entries_line(line: &[u8]) -> Result<u64, Complaint>
    ensures reads { MatchResult result (λ m. EntriesLine line.now m) (λ what. (what ≡ Complaint.NotEntriesLine) × (IsEntries line.now → ⊥)) }
{
    line.strip_prefix(b"entries ")
        .and_then(number)
        .ok_or(Complaint::NotEntriesLine)
}

/// The request that a text asks for, or its first fault.
pub fn read_request(alloc: Global, text: &[u8]) -> Result<Request, RequestError>
    ensures accepted { Accepts text.now result }
    ensures complete { (n : ℕ) (bs : List ℕ) (m : ℕ) → Short text.now → Says text.now n bs m → Asks result n bs m }
    ensures rejected { Rejects text.now result }
    ensures exact { (line : ℕ) (what : Complaint) → Fault text.now line what → Complains result line what }
{
    if text.len() > LONGEST {
        return Err(RequestError::from(Complaint::TooLong));
    }
    let (first, rest) = split(text, b'\n');
    let page = page_line(alloc, first)?;
    if Encoding::try_from(page.encoding) != Ok(Encoding::RleDictionary) {
        return Err(RequestError::from(Complaint::OtherEncoding));
    }
    let (second, rest) = split(rest, b'\n');
    let entries = entries_line(second)?;
    if !rest.is_empty() {
        return Err(RequestError::from(Complaint::LineTooMany));
    }
    Ok(Request {
        count: page.count,
        bytes: page.bytes,
        entries,
    })
}
