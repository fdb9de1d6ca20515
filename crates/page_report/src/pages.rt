//! What is told of a page.
ghost use Rattle.std.specs.Prelude.{◌≡◌, ℕ, List, IfOk, string_bytes, Decides};
ghost use Rattle.std.specs.List.{flat_map};
ghost use Rattle.key_pages.specs.Coming.{runs_to_come};
ghost use Rattle.key_pages.specs.Meaning.{ReadRun, keys_of};
ghost use Rattle.key_pages.specs.Opening.{Accepted, Opened};
ghost use Rattle.page_report.specs.Lines.{run_line};
ghost use Rattle.page_report.specs.Reports.{Once, Makes, OwnPage, Told, Answered};

use crate::failure::Failure;
use crate::lines::{Contents, FaultLine, RunLine};
use key_pages::{KeyPage, Runs, key_width, max_buffer_size, write_key_page};
use page_format::MAX_ENTRIES;
use page_text::Request;
use std::alloc::{AllocError, Global};

// `key_pages` allocates nothing and fills memory that it is lent, so a list here is made as long as it may get, and then cut.

/// The page that our writer makes of these keys.
pub fn own_page(alloc: Global, width: usize, keys: &[u32]) -> Result<Vec<u8>, Failure>
    ensures makes { OwnPage width keys.now result }
{
    let most = max_buffer_size(width, keys.len())?;
    let mut buffer = vec![in alloc; 0u8; 1 + most]?;
    let len = write_key_page(&mut buffer, width, keys)?;
    buffer.truncate(len);
    Ok(buffer)
}

// Whether our writer makes these bytes of these keys.
fn makes(alloc: Global, width: usize, keys: &[u32], bytes: &[u8]) -> Result<bool, AllocError>
    ensures { IfOk result (λ b. Decides b (Makes width keys.now bytes.now)) }
{
    match own_page(alloc, width, keys) {
        Ok(page) => Ok(page.as_slice() == bytes),
        Err(Failure::Rejected(_)) => Ok(false),
        Err(Failure::Memory(error)) => Err(error),
    }
}

// The keys that a page uses, each once.
fn used_list(alloc: Global, page: &KeyPage<'_>) -> Result<Vec<u32>, AllocError>
    ensures { IfOk result (λ v. (w : ℕ) (runs : List ReadRun) → Accepted page.now.page.now page.now.count page.now.entries w runs → Once (keys_of w page.now.count runs) v.items) }
{
    let mut list = vec![in alloc; 0u32; MAX_ENTRIES]?;
    let number = page.used_keys(&mut list).unwrap();
    list.truncate(number);
    Ok(list)
}

// A line for each run.
fn run_lines(alloc: Global, runs: Runs<'_>) -> Result<String, AllocError>
    ensures { IfOk result (λ s. string_bytes s ≡ flat_map run_line (runs_to_come runs.entry)) }
{
    let mut text = String::new(alloc);
    for run in runs {
        write!(text, "{}", RunLine(run))?;
    }
    Ok(text)
}

// What is in a page that was opened.
fn contents(
    alloc: Global,
    page: &KeyPage<'_>,
    bytes: &[u8],
    entries: usize,
) -> Result<String, AllocError>
    ensures { IfOk result (λ s. (count : ℕ) → Opened bytes.now count entries page.now → Told bytes.now count entries (string_bytes s)) }
{
    let keys: Vec<u32> = page.keys().collect(alloc)?;
    let used = used_list(alloc, page)?;
    let same = makes(alloc, key_width(entries), &keys, bytes)?;
    let mut text = run_lines(alloc, page.runs())?;
    write!(text, "{}", Contents { keys, used, same })?;
    Ok(text)
}

// What is in a page, or why it is rejected.
pub(crate) fn page_report(alloc: Global, request: &Request) -> Result<String, AllocError>
    ensures { IfOk result (λ s. Answered request.now.bytes.items request.now.count request.now.entries (string_bytes s)) }
{
    let Request {
        count,
        bytes,
        entries,
    } = request;
    let entries = *entries as usize;
    match KeyPage::open(bytes, *count as usize, entries) {
        Ok(page) => contents(alloc, &page, bytes, entries),
        Err(fault) => FaultLine(fault).to_string(alloc),
    }
}
