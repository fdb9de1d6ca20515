//! Compares what hashes, arrays and the interner answer with recorded answers, and interns some thousands of values under each hash.
//! The input has two lines for each case: a command, and `= ` with the answer that is expected.
#![tactic(auto)]

mod gathering;
mod hashing;
mod opening;
mod thousands;
mod unanswered;
mod words;

use gathering::gather_answer;
use hashing::hash_answer;
use interner::{Fnv1a, ZeroHash};
use opening::open_answer;
use page_report::Failure;
use recorded::{number, replay};
use std::alloc::Global;
use std::io::{BufRead, BufReader};
use thousands::print_keys;
use unanswered::answer_text;
use words::next_word;

// Our answer to a command, by its first word.
fn answer(alloc: Global, command: &str) -> Result<String, Failure> {
    let mut words = command.split_whitespace();
    let text = match words.next() {
        Some("fnv") => hash_answer(alloc, Fnv1a::new(), words)?,
        Some("seeded") => {
            let seed = number(next_word(&mut words));
            hash_answer(alloc, Fnv1a::with_seed(seed), words)?
        }
        Some("zero") => hash_answer(alloc, ZeroHash, words)?,
        Some("gather") => gather_answer(alloc, command)?,
        _ => open_answer(alloc, command)?,
    };
    Ok(text)
}

fn main(rt: HostRuntime) -> anyhow::Result<()> {
    let alloc = rt.alloc();
    let tally = replay(
        alloc,
        BufReader::new(alloc, rt.stdin())?.lines(alloc),
        |command| Ok(answer_text(alloc, answer(alloc, command))?),
        |command, ours| {
            println!(rt; "differs: {command}")?;
            println!(rt; "ours: {ours}")?;
            Ok(())
        },
    )?;
    println!(rt; "{tally} answers agree")?;
    print_keys(&rt)
}
