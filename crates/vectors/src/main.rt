//! Replays recorded answers of the Rust crate parquet 60.0.0, and prints how many agree.
//! The input has two lines for each: a command, and `= ` with the crate's answer.
#![tactic(auto)]

mod answers;
#[cfg(test)]
mod tests;

use answers::answer;
use recorded::replay;
use std::io::{BufRead, BufReader};

fn main(rt: HostRuntime) -> anyhow::Result<()> {
    let alloc = rt.alloc();
    let tally = replay(
        alloc,
        BufReader::new(alloc, rt.stdin())?.lines(alloc),
        |command| Ok(answer(alloc, command)?),
        |command, _ours| Ok(println!(rt; "differs: {command}")?),
    )?;
    println!(rt; "{tally} answers agree")?;
    Ok(())
}
