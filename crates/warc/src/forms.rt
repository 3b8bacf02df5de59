// What is said of files and records.
use crate::answers::Stop;
use leaves::refusals::Refusal;
use std::fmt;

// So many records.
#[derive(Clone, Copy)]
pub struct Records(pub u64);

impl fmt::Display for Records {
    fn fmt<W: fmt::Write>(&self, f: &mut fmt::Formatter<W>) -> fmt::Result {
        match self.0 {
            1 => f.write_str("1 record"),
            n => write!(f, "{n} records"),
        }
    }
}

// What was good of a file before it could not be read on.
#[derive(Clone, Copy)]
pub struct Before {
    pub good: u64,
    pub whole: u64,
}

impl fmt::Display for Before {
    fn fmt<W: fmt::Write>(&self, f: &mut fmt::Formatter<W>) -> fmt::Result {
        let records = Records(self.good);
        let were = if self.good == 1 { "was" } else { "were" };
        let whole = self.whole;
        write!(f, "{records} before it {were} good, up to position {whole}")
    }
}

// What a person may want to know of a file.
#[derive(Clone, Copy)]
pub enum Remark {
    CutOff,
    Refused(Refusal),
    Unclean,
    Idle(usize),
    Empty,
    Packed,
    LfAlone,
    LfHeader,
    NoWarc,
    NoStart,
    BlankLine,
    NoRecordHere,
}

impl fmt::Display for Remark {
    fn fmt<W: fmt::Write>(&self, f: &mut fmt::Formatter<W>) -> fmt::Result {
        f.write_str(match *self {
            Remark::CutOff => "the header ended by the end of input, without a blank line",
            Remark::Refused(refusal) => {
                return write!(f, "the header stopped by number {}", Stop(refusal));
            }
            Remark::Unclean => {
                "nothing is written: the header is not clean, and would not be read back as it was"
            }
            Remark::Idle(n) => {
                return write!(f, "lines without a colon, which stand for nothing: {n}");
            }
            Remark::Empty => "the file is empty",
            Remark::Packed => "what begins here is packed, as by gzip or zstd: unpack it first",
            Remark::LfAlone => "the lines end in LF alone, and those of a WARC file end in CR LF",
            Remark::LfHeader => "the lines end in LF alone: --quirks reads such a header",
            Remark::NoWarc => "this is no WARC file, which begins with WARC/1.0 or WARC/1.1",
            Remark::NoStart => "no record starts there: warc walk lists where they do",
            Remark::BlankLine => "a blank line too many stands behind the last good record",
            Remark::NoRecordHere => {
                "what stands behind the last good record is none, which begins with WARC/1.0 or WARC/1.1"
            }
        })
    }
}
