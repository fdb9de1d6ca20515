//! Lines of commands and answers.
ghost use Rattle.std.specs.Prelude.{List, map, Ok, IfOk, string_bytes};
ghost use Rattle.std.specs.Iterator.{Drains, IsFinite};
ghost use Rattle.recorded.specs.Lines.{Case, Replayed};

use crate::tally::Tally;
use std::alloc::Global;
use std::io;

/// Reads two lines for each answer, a command and `= ` with what was recorded, and counts the answers, and those of them that `answer`
/// gives too.
/// Of the others `differs` is told the command and our answer.
pub fn replay<L, A, D>(alloc: Global, lines: L, answer: A, differs: D) -> anyhow::Result<Tally>
where
    L: Iterator<Item = io::Result<String>> + Drop,
    A: Fn(&str) -> anyhow::Result<String>,
    D: Fn(&str, &str) -> anyhow::Result<()>,
    requires can { L.can_next lines }
    requires ends { IsFinite (L.remaining lines) }
    requires answers { A.IsAlwaysCallable answer }
    requires tells { D.IsAlwaysCallable differs }
    ensures replayed { IfOk result (λ t. (read : List _) × (cases : List Case) × Drains L.next_gives lines (map (λ line. Ok line) read) × Replayed A.Fn answer D.Fn differs (map (λ line. string_bytes line) read) cases t) }
{
    let mut command = String::new(alloc);
    let mut tally = Tally::new();
    for line in lines {
        let line = line?;
        let Some(recorded) = line.as_str().strip_prefix("= ") else {
            command = line;
            continue;
        };
        let ours = answer(command.as_str())?;
        let agrees = ours.as_str() == recorded;
        tally.count(agrees);
        if !agrees {
            differs(command.as_str(), ours.as_str())?;
        }
    }
    Ok(tally)
}
