//! The words of a command.
ghost use Rattle.std.specs.Prelude.{Result};
ghost use Rattle.std.specs.Result.{ResultUnwrapsOrElse};

use std::str::FromStr;

/// The number that a word writes. For a word that is none it is the default, and the answer then differs from the recorded one.
pub fn number<N>(word: &str) -> N
where
    N: FromStr + Default,
    N::Err: Drop,
    ensures { (read : Result N N.Err) × N.from_str_gives word.now read × ResultUnwrapsOrElse read N.is_default result }
{
    word.parse().unwrap_or_default()
}
