//! The lines of a report.
use key_pages::Run;
use page_format::Fault;
use page_text::{Hex, Spaced};
use std::fmt;

// A run that prints as its line: its sort, its count or its groups, its bytes, and its place.
#[derive(Clone, Copy)]
pub(crate) struct RunLine<'a>(pub(crate) Run<'a>);

impl fmt::Display for RunLine<'_> {
    ghost use Rattle.std.specs.Prelude.{Some};
    ghost use Rattle.key_pages.specs.Views.{view};
    ghost use Rattle.page_report.specs.Lines.{run_line};

    ghost output = { λ l. Some (run_line (view l.0)) };

    fn fmt<W: fmt::Write>(&self, f: &mut fmt::Formatter<W>) -> fmt::Result {
        match self.0 {
            Run::Repeat {
                count,
                value,
                place,
            } => writeln!(f, "run repeat {count} :{} at {place}", Hex(value)),
            Run::Packed {
                groups,
                bytes,
                place,
            } => writeln!(f, "run packed {groups} :{} at {place}", Hex(bytes)),
        }
    }
}

// What is told of a page behind its runs, which prints as its lines: the keys, the keys that are used, and whether our writer makes the
// same page.
#[derive(Drop)]
pub(crate) struct Contents {
    pub(crate) keys: Vec<u32>,
    pub(crate) used: Vec<u32>,
    pub(crate) same: bool,
}

impl fmt::Display for Contents {
    ghost use Rattle.std.specs.Prelude.{Some};
    ghost use Rattle.page_report.specs.Lines.{lines_behind_runs};

    ghost output = { λ c. Some (lines_behind_runs c.keys.items c.used.items c.same) };

    fn fmt<W: fmt::Write>(&self, f: &mut fmt::Formatter<W>) -> fmt::Result {
        let Contents { keys, used, same } = self;
        let answer = if *same { "yes" } else { "no" };
        write!(
            f,
            "keys{}\nused{}\nsame {answer}\n",
            Spaced(keys),
            Spaced(used)
        )
    }
}

// A fault that prints as its line.
#[derive(Clone, Copy)]
pub(crate) struct FaultLine(pub(crate) Fault);

impl fmt::Display for FaultLine {
    ghost use Rattle.std.specs.Prelude.{Some};
    ghost use Rattle.page_report.specs.Lines.{fault_line};

    ghost output = { λ l. Some (fault_line l.0) };

    fn fmt<W: fmt::Write>(&self, f: &mut fmt::Formatter<W>) -> fmt::Result {
        let fault = self.0;
        writeln!(f, "{fault}")
    }
}
