// What the calls answer by number, and how it is printed. The numbers are the C interface's, and stand here alone.
use crate::map::Loan;
use std::fmt;

// A call refused, by the number that says why.
#[derive(Clone, Copy, Debug, PartialEq, Eq)]
pub struct Refusal(u32);

impl fmt::Display for Refusal {
    fn fmt<W: fmt::Write>(&self, f: &mut fmt::Formatter<W>) -> fmt::Result {
        write!(f, "!{}", self.0)
    }
}

// Where a reading is.
#[derive(Clone, Copy, Debug, PartialEq, Eq)]
pub enum Reading {
    More,
    Blank,
    End,
}

impl TryFrom<u32> for Reading {
    type Error = Refusal;

    fn try_from(answer: u32) -> Result<Self, Refusal> {
        match answer {
            64 => Ok(Reading::More),
            65 => Ok(Reading::Blank),
            66 => Ok(Reading::End),
            _ => Err(Refusal(answer)),
        }
    }
}

impl fmt::Display for Reading {
    fn fmt<W: fmt::Write>(&self, f: &mut fmt::Formatter<W>) -> fmt::Result {
        f.write_str(match self {
            Reading::More => "more",
            Reading::Blank => "blank",
            Reading::End => "end",
        })
    }
}

// Where a record and its body begin, how long the body is, and the number of its type.
#[derive(Clone, Copy, Debug, PartialEq, Eq)]
pub struct Record {
    start: u64,
    body: u64,
    length: u64,
    kind: u64,
}

impl From<[u64; 4]> for Record {
    fn from(numbers: [u64; 4]) -> Self {
        let [start, body, length, kind] = numbers;
        Record {
            start,
            body,
            length,
            kind,
        }
    }
}

impl fmt::Display for Record {
    fn fmt<W: fmt::Write>(&self, f: &mut fmt::Formatter<W>) -> fmt::Result {
        let Record {
            start,
            body,
            length,
            kind,
        } = self;
        write!(f, "rec:{start}:{body}:{length}:{kind}")
    }
}

// What a walker came to.
#[derive(Clone, Copy, Debug, PartialEq, Eq)]
pub enum Step {
    More,
    Record(Record),
    Body,
    End,
}

impl Step {
    // From a walker's answer, with the numbers of the record that it may have come to.
    pub fn new(answer: u32, record: [u64; 4]) -> Result<Self, Refusal> {
        match answer {
            64 => Ok(Step::More),
            73 => Ok(Step::Record(Record::from(record))),
            74 => Ok(Step::Body),
            75 => Ok(Step::End),
            _ => Err(Refusal(answer)),
        }
    }
}

impl fmt::Display for Step {
    fn fmt<W: fmt::Write>(&self, f: &mut fmt::Formatter<W>) -> fmt::Result {
        match self {
            Step::More => f.write_str("more"),
            Step::Record(record) => write!(f, "{record}"),
            Step::Body => f.write_str("body"),
            Step::End => f.write_str("end"),
        }
    }
}

// Whether a download may go on.
#[derive(Clone, Copy, Debug, PartialEq, Eq)]
pub enum Verdict {
    Append,
    NoTag,
    Differ,
    NotPartial,
}

impl TryFrom<u32> for Verdict {
    type Error = Refusal;

    fn try_from(answer: u32) -> Result<Self, Refusal> {
        match answer {
            80 => Ok(Verdict::Append),
            81 => Ok(Verdict::NoTag),
            82 => Ok(Verdict::Differ),
            83 => Ok(Verdict::NotPartial),
            _ => Err(Refusal(answer)),
        }
    }
}

impl fmt::Display for Verdict {
    fn fmt<W: fmt::Write>(&self, f: &mut fmt::Formatter<W>) -> fmt::Result {
        f.write_str(match self {
            Verdict::Append => "0",
            Verdict::NoTag => "1",
            Verdict::Differ => "2",
            Verdict::NotPartial => "3",
        })
    }
}

// In which loan a text lies that is there, is not, or was refused.
pub fn found(answer: u32) -> Result<Option<Loan>, Refusal> {
    match answer {
        68 => Ok(None),
        71 => Ok(Some(Loan::Block)),
        72 => Ok(Some(Loan::Store)),
        _ => Err(Refusal(answer)),
    }
}

// What is done, or was refused.
pub fn done(answer: u32) -> Result<(), Refusal> {
    match answer {
        0 => Ok(()),
        _ => Err(Refusal(answer)),
    }
}

// Yes, no or a refusal.
pub fn truth(answer: u32) -> Result<bool, Refusal> {
    match answer {
        69 => Ok(true),
        70 => Ok(false),
        _ => Err(Refusal(answer)),
    }
}

// A number that is known, missing or refused.
pub fn known(answer: u32, number: u64) -> Result<Option<u64>, Refusal> {
    match answer {
        67 => Ok(Some(number)),
        68 => Ok(None),
        _ => Err(Refusal(answer)),
    }
}

// What a reading or a walker answered, and how much it took.
#[derive(Clone, Copy, Debug)]
pub struct Taken<T> {
    pub answer: Result<T, Refusal>,
    pub taken: u64,
}
