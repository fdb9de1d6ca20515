//! What stands for an answer where there is none.
use page_report::Failure;
use std::alloc::{AllocError, Global};

// The text of an answer. A rejection's text is its fault.
pub(crate) fn answer_text(
    alloc: Global,
    answer: Result<String, Failure>,
) -> Result<String, AllocError> {
    match answer {
        Ok(text) => Ok(text),
        Err(Failure::Rejected(fault)) => fault.to_string(alloc),
        Err(Failure::Memory(error)) => Err(error),
    }
}
