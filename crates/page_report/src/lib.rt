//! The report on a key page that came as text: the library behind `page_reader`.
#![tactic(auto)]

mod failure;
mod lines;
mod pages;

ghost use Rattle.std.specs.Prelude.{IfOk, string_bytes};
ghost use Rattle.page_report.specs.Reports.{Report};

pub use failure::Failure;
use page_text::{RequestError, read_request};
pub use pages::own_page;
use pages::page_report;
use std::alloc::{AllocError, Global};

/// What is in the page that a text asks for, or why it is rejected, or what is wrong with the text.
pub fn report(alloc: Global, input: &[u8]) -> Result<String, AllocError>
    ensures says { IfOk result (λ s. Report input.now (string_bytes s)) }
{
    match read_request(alloc, input) {
        Ok(request) => page_report(alloc, &request),
        Err(RequestError::Wrong(wrong)) => format!(in alloc; "{wrong}\n"),
        Err(RequestError::Memory(error)) => Err(error),
    }
}
