//! Answers that were recorded, set beside ours and counted.
#![tactic(auto)]

mod lines;
mod tally;
#[cfg(test)]
mod tests;
mod words;

pub use lines::replay;
pub use tally::Tally;
pub use words::number;
