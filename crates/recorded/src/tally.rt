//! How many answers there were, and how many agree with ours. Both stop at 2^32 - 1.
ghost use Rattle.std.specs.Prelude.{◌≤◌};

use std::fmt;

#[derive(Clone, Copy, PartialEq, Eq, Debug)]
pub struct Tally {
    all: u32,
    agree: u32,
    ghost part: { agree ≤ all },
}

impl Tally {
    ghost use Rattle.std.specs.Prelude.{◌≡◌, ◌+◌, min, if◌then◌else◌};

    pub fn new() -> Tally
        ensures all { result.all ≡ 0 }
        ensures agree { result.agree ≡ 0 }
    {
        Tally { all: 0, agree: 0 }
    }

    /// Counts one answer more.
    pub fn count(&mut self, agrees: bool)
        ensures all { self.new.all ≡ min (self.old.all + 1) u32.MAX }
        ensures agree { self.new.agree ≡ (if agrees then min (self.old.agree + 1) u32.MAX else self.old.agree) }
    {
        *self = Tally {
            all: self.all.saturating_add(1),
            agree: self.agree.saturating_add(u32::from(agrees)),
        };
    }
}

impl fmt::Display for Tally {
    ghost use Rattle.std.specs.Prelude.{Some, ◌++◌, decimal, codes};

    ghost output = { λ t. Some (decimal t.agree ++ codes " of " ++ decimal t.all) };

    fn fmt<W: fmt::Write>(&self, f: &mut fmt::Formatter<W>) -> fmt::Result {
        write!(f, "{} of {}", self.agree, self.all)
    }
}
