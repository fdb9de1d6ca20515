//! Reads a key page as text from standard input, and prints what is in it.
#![tactic(auto)]

use page_report::report;
use std::io;
use std::io::Read;

// one byte more than a text may have, so that a longer one is seen
const LONGEST: u64 = 1_048_577;

fn main(rt: HostRuntime) -> io::Result<()> {
    let mut input = Vec::new(rt.alloc());
    rt.stdin().take(LONGEST).read_to_end(&mut input)?;
    let text = report(rt.alloc(), &input)?;
    rt.print(text)
}
