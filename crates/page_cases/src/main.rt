//! Compares the reports on good, damaged and nonsensical pages with what a second reader expects of them.
//! The input has, for each, the lines of the request and then the lines of the report, each behind `= `: several of both, where
//! `recorded::replay` takes one of each.
#![tactic(auto)]

use page_report::report;
use recorded::Tally;
use std::io::{BufRead, BufReader, Print};

#[derive(Drop)]
struct Case {
    request: String,
    expected: String,
}

fn judge(rt: &(impl Print + AllocGlobal), case: &Case, tally: &mut Tally) -> anyhow::Result<()> {
    let Case { request, expected } = case;
    let text = report(rt.alloc(), request.as_bytes())?;
    let agrees = text.as_str() == expected.as_str();
    tally.count(agrees);
    if !agrees {
        print!(rt; "differs: {request}{text}")?;
    }
    Ok(())
}

fn main(rt: HostRuntime) -> anyhow::Result<()> {
    let alloc = rt.alloc();
    let mut tally = Tally::new();
    let mut case = Case {
        request: String::new(alloc),
        expected: String::new(alloc),
    };
    for line in BufReader::new(alloc, rt.stdin())?.lines(alloc) {
        let line = line?;
        if let Some(expected) = line.as_str().strip_prefix("= ") {
            writeln!(case.expected, "{expected}")?;
            continue;
        }
        if !case.expected.is_empty() {
            judge(&rt, &case, &mut tally)?;
            case.request.clear();
            case.expected.clear();
        }
        writeln!(case.request, "{line}")?;
    }
    judge(&rt, &case, &mut tally)?;
    println!(rt; "{tally} reports agree")?;
    Ok(())
}
