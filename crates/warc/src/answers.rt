// What the calls of `abi` answer. They answer numbers, as C sees them: each stands here once.
use crate::headers::LIMIT;
use leaves::refusals;
use leaves::refusals::Refusal;
use std::fmt;

// The refusal of a number; outside 1 to 13, which no call answers, the last.
fn refusal(number: u32) -> Refusal {
    match u8::try_from(number) {
        Ok(n) => Refusal::try_from(n).unwrap_or(Refusal::TooFar),
        Err(_) => Refusal::TooFar,
    }
}

fn meaning(refusal: Refusal) -> &'static str {
    match refusal {
        Refusal::BadRooms => "limit or store room outside its range",
        Refusal::ShortLoan => "block lent shorter than the limit, or store than the room",
        Refusal::BadMap => "bad map",
        Refusal::BlockFull => "the header goes on and its octets have reached the limit",
        Refusal::FieldsFull => "a 257th field is needed",
        Refusal::StoreFull => "the new octets exceed the room of the store",
        Refusal::WrongPhase => "a call that the map is not ready for",
        Refusal::ShortOutput => "output shorter than the written form",
        Refusal::BadVersion => "version line is not WARC/1.0 or WARC/1.1",
        Refusal::BadLength => {
            "Content-Length absent, repeated, not one or more digits, or over 1099511627776"
        }
        Refusal::BadTrailer => "an octet after the body differs from CR LF CR LF",
        Refusal::CutShort => "file ends inside a record",
        Refusal::TooFar => { "an octet at position 4611686018427387904 or later would be taken" }
    }
}

// A refusal's number, and what it means.
#[derive(Clone, Copy)]
pub struct Stop(pub Refusal);

impl fmt::Display for Stop {
    fn fmt<W: fmt::Write>(&self, f: &mut fmt::Formatter<W>) -> fmt::Result {
        write!(f, "{}: {}", refusals::number(self.0), meaning(self.0))
    }
}

// What ended a reading, or that nothing did yet.
#[derive(Clone, Copy)]
pub enum Read {
    More,
    Blank,
    Input,
}

impl Read {
    pub fn of(number: u32) -> Result<Read, Refusal> {
        match number {
            64 => Ok(Read::More),
            65 => Ok(Read::Blank),
            66 => Ok(Read::Input),
            _ => Err(refusal(number)),
        }
    }
}

// What a walker came to.
#[derive(Clone, Copy)]
pub enum Step {
    More,
    Record,
    Body,
    End,
}

impl Step {
    pub fn of(number: u32) -> Result<Step, Refusal> {
        match number {
            64 => Ok(Step::More),
            73 => Ok(Step::Record),
            74 => Ok(Step::Body),
            75 => Ok(Step::End),
            _ => Err(refusal(number)),
        }
    }
}

// Whether a test was passed.
#[derive(Clone, Copy)]
pub struct Test(pub Result<bool, Refusal>);

impl Test {
    // Whether a block is as `tidy` writes it.
    pub fn tidy(block: &[u8], status: bool, quirks: bool) -> Test {
        Test::from(abi::telling::bisquecrow_tidy(block, status, quirks, LIMIT))
    }

    // Whether a block is a WARC 1.1 header.
    pub fn grammatical(block: &[u8]) -> Test {
        Test::from(abi::telling::bisquecrow_grammatical(block))
    }
}

impl From<u32> for Test {
    fn from(number: u32) -> Test {
        Test(match number {
            69 => Ok(true),
            70 => Ok(false),
            _ => Err(refusal(number)),
        })
    }
}

impl fmt::Display for Test {
    fn fmt<W: fmt::Write>(&self, f: &mut fmt::Formatter<W>) -> fmt::Result {
        f.write_str(match self.0 {
            Ok(true) => "yes",
            Ok(false) => "no",
            Err(refusal) => meaning(refusal),
        })
    }
}

// Whether a body may be appended to another; why not, also where a header was not read to its blank line.
#[derive(Clone, Copy)]
pub enum Verdict {
    Append,
    NoTag,
    Differ,
    NotPartial,
    NotWhole,
    NotRead,
}

impl From<u32> for Verdict {
    fn from(number: u32) -> Verdict {
        match number {
            80 => Verdict::Append,
            81 => Verdict::NoTag,
            82 => Verdict::Differ,
            83 => Verdict::NotPartial,
            _ => Verdict::NotRead,
        }
    }
}

impl fmt::Display for Verdict {
    fn fmt<W: fmt::Write>(&self, f: &mut fmt::Formatter<W>) -> fmt::Result {
        f.write_str(match self {
            Verdict::Append => "append",
            Verdict::NoTag => {
                "do not append: one of the two has not exactly one ETag, or an empty one"
            }
            Verdict::Differ => "do not append: the two ETags differ",
            Verdict::NotPartial => "do not append: the second answer's code is not 206",
            Verdict::NotWhole => "do not append: a header was cut off before its blank line",
            Verdict::NotRead => "do not append: a header could not be read",
        })
    }
}
