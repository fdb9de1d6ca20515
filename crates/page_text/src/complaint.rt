//! What may be wrong with a request's text.
use std::fmt;

#[derive(Clone, Copy, PartialEq, Eq, Debug)]
pub enum Complaint {
    TooLong,
    NotPageLine,
    OtherEncoding,
    NotEntriesLine,
    LineTooMany,
}

/// What is wrong, and in which line, counted from 1.
#[derive(Clone, Copy, PartialEq, Eq, Debug)]
pub struct Wrong {
    pub line: u64,
    pub what: Complaint,
}

// Each complaint is about one line.
impl From<Complaint> for Wrong {
    ghost use Rattle.std.specs.Prelude.{◌≡◌};
    ghost use Rattle.page_text.specs.Complaints.{wrong_of};

    ghost from_gives = { λ what w. w ≡ wrong_of what };

    fn from(what: Complaint) -> Wrong {
        let line = match what {
            Complaint::TooLong | Complaint::NotPageLine | Complaint::OtherEncoding => 1,
            Complaint::NotEntriesLine => 2,
            Complaint::LineTooMany => 3,
        };
        Wrong { line, what }
    }
}

impl Complaint {
    ghost use Rattle.std.specs.Prelude.{◌≡◌};
    ghost use Rattle.page_text.specs.Complaints.{complaint_words};

    /// What was expected, in plain words.
    pub fn words(self) -> &'static str
        ensures text { result.now ≡ complaint_words self }
    {
        match self {
            Complaint::TooLong => "the text is longer than 1048576 bytes",
            Complaint::NotPageLine =>
                "expected 'page E N :HEX', decimal numbers below 2^64 and upper-case hex",
            Complaint::OtherEncoding => "this encoding is not read, only 8 is",
            Complaint::NotEntriesLine => "expected 'entries M', a decimal number below 2^64",
            Complaint::LineTooMany => "nothing may follow the entries line",
        }
    }
}

// Its words.
impl fmt::Display for Complaint {
    ghost use Rattle.std.specs.Prelude.{Some};
    ghost use Rattle.page_text.specs.Complaints.{complaint_words};

    ghost output = { λ c. Some (complaint_words c) };

    fn fmt<W: fmt::Write>(&self, f: &mut fmt::Formatter<W>) -> fmt::Result {
        f.write_str(self.words())
    }
}

// The line's number, and the complaint's words.
impl fmt::Display for Wrong {
    ghost use Rattle.std.specs.Prelude.{Some};
    ghost use Rattle.page_text.specs.Complaints.{complaint_text};

    ghost output = { λ w. Some (complaint_text w.line w.what) };

    fn fmt<W: fmt::Write>(&self, f: &mut fmt::Formatter<W>) -> fmt::Result {
        let Wrong { line, what } = *self;
        write!(f, "line {line}: {what}")
    }
}
