// What is printed: pages of text, and how octets are shown on them.
use crate::outcomes::{Failure, Outcome};
use arrayvec::{ArrayString, ArrayVec};
use std::fmt::Write;
use std::{fmt, io};

// Where something is written.
#[derive(Clone, Copy)]
pub enum Stream {
    Output,
    Error,
}

impl Stream {
    fn put(self, rt: &HostRuntime, octets: &[u8]) -> io::Result<()> {
        match self {
            Stream::Output => rt.stdout().write_all(octets),
            Stream::Error => rt.stderr().write_all(octets),
        }
    }

    // Writes octets at once; where that fails, why is said.
    pub fn write(self, rt: &HostRuntime, octets: &[u8]) -> Outcome {
        self.put(rt, octets).map_err(|e| {
            fail(rt, "standard output", e);
            Failure::Unwritten
        })
    }
}

// Writes a line on standard error: a name, a colon and why a call failed.
pub fn fail<D: fmt::Display + Drop>(rt: &HostRuntime, name: D, e: io::Error) {
    let _ = eprintln!(rt; "{name}: {}", Reason(e));
}

// What an error's text says before the number that the system gives it.
#[derive(Drop)]
struct Reason(io::Error);

impl fmt::Display for Reason {
    fn fmt<W: fmt::Write>(&self, f: &mut fmt::Formatter<W>) -> fmt::Result {
        let mut text = ArrayString::<512>::new();
        write!(text, "{}", self.0)?;
        match text.as_str().split_once(" (os error ") {
            Some((reason, _)) => f.write_str(reason),
            None => f.write_str(text.as_str()),
        }
    }
}

// So many octets are written at once.
const ROOM: usize = 65536;

// Text that is written where the page is full, and where it is flushed. Its memory is the program's own, as that of a piece.
#[derive(Drop)]
pub struct Page<'a> {
    rt: &'a HostRuntime,
    to: Stream,
    text: ArrayVec<u8, ROOM>,
    // A write failed, which was said: what comes behind it is dropped.
    is_lost: bool,
}

impl<'a> Page<'a> {
    pub fn new(rt: &'a HostRuntime, to: Stream) -> Page<'a> {
        Page {
            rt,
            to,
            text: ArrayVec::new(),
            is_lost: false,
        }
    }

    // Goes on afresh where something else is written; what was not flushed is dropped.
    pub fn turn_to(&mut self, to: Stream) {
        self.to = to;
        self.text.clear();
        self.is_lost = false;
    }

    // Puts words on the page; whether they could be written `flush` tells.
    pub fn say<D: fmt::Display + Drop>(&mut self, words: D) {
        let _ = self.write_fmt(words);
    }

    pub fn flush(&mut self) -> Outcome {
        if self.is_lost {
            return Err(Failure::Unwritten);
        }
        let written = self.to.write(self.rt, self.text.as_slice());
        self.text.clear();
        self.is_lost = written.is_err();
        written
    }

    fn push(&mut self, x: u8) -> fmt::Result {
        if self.text.is_full() && self.flush().is_err() {
            return Err(fmt::Error);
        }
        self.text.try_push(x).map_err(|_| fmt::Error)
    }
}

impl<'a> fmt::Write for Page<'a> {
    fn write_str(&mut self, s: &str) -> fmt::Result {
        if self.is_lost {
            return Err(fmt::Error);
        }
        if self.text.try_extend_from_slice(s.as_bytes()).is_ok() {
            return Ok(());
        }
        for x in s.as_bytes() {
            self.push(*x)?;
        }
        Ok(())
    }
}

// Writes words alone on a page.
pub fn say<D: fmt::Display + Drop>(rt: &HostRuntime, to: Stream, words: D) -> Outcome {
    let mut page = Page::new(rt, to);
    page.say(words);
    page.flush()
}

// Which octets stand for themselves, and how another is written.
#[derive(Clone, Copy)]
enum Escape {
    Text,
    Column,
    Json,
}

impl Escape {
    fn keeps(self, x: u8) -> bool {
        match self {
            Escape::Text => matches!(x, b' '..=b'~'),
            Escape::Column => matches!(x, b'!'..=b'~') && x != b'%',
            Escape::Json => matches!(x, b' '..=b'~') && x != b'"' && x != b'\\',
        }
    }

    // Octets, mostly such as stand for themselves.
    fn write<W: fmt::Write>(self, f: &mut fmt::Formatter<W>, octets: &[u8]) -> fmt::Result {
        if octets.iter().all(|x| self.keeps(*x))
            && let Ok(text) = std::str::from_utf8(octets)
        {
            return f.write_str(text);
        }
        for part in octets.chunks(PART) {
            self.write_part(f, part)?;
        }
        Ok(())
    }

    // A few octets, which are put together first: a call for each would cost more than the octet.
    fn write_part<W: fmt::Write>(self, f: &mut fmt::Formatter<W>, part: &[u8]) -> fmt::Result {
        let mut shown = ArrayVec::<u8, SHOWN>::new();
        for x in part {
            self.show(&mut shown, *x)?;
        }
        let text = std::str::from_utf8(shown.as_slice()).map_err(|_| fmt::Error)?;
        f.write_str(text)
    }

    fn show(self, shown: &mut ArrayVec<u8, SHOWN>, x: u8) -> fmt::Result {
        if self.keeps(x) {
            return shown.try_push(x).map_err(|_| fmt::Error);
        }
        let high = DIGITS[usize::from(x / 16)];
        let low = DIGITS[usize::from(x % 16)];
        let escaped = match self {
            Escape::Json => shown.try_extend_from_slice(&[b'\\', b'u', b'0', b'0', high, low]),
            _ => shown.try_extend_from_slice(&[b'%', high, low]),
        };
        escaped.map_err(|_| fmt::Error)
    }
}

const DIGITS: &[u8; 16] = b"0123456789ABCDEF";

// So many octets are shown at once where some do not stand for themselves, each by six at most.
const PART: usize = 64;

const SHOWN: usize = 384;

// Octets as far as a terminal takes them for nothing else.
#[derive(Clone, Copy)]
pub struct Text<'a>(pub &'a [u8]);

impl<'a> fmt::Display for Text<'a> {
    fn fmt<W: fmt::Write>(&self, f: &mut fmt::Formatter<W>) -> fmt::Result {
        Escape::Text.write(f, self.0)
    }
}

// Octets without spaces, - for none; a column that is a dash is not none.
#[derive(Clone, Copy)]
pub struct Column<'a>(pub &'a [u8]);

impl<'a> fmt::Display for Column<'a> {
    fn fmt<W: fmt::Write>(&self, f: &mut fmt::Formatter<W>) -> fmt::Result {
        match self.0 {
            [] => f.write_str("-"),
            b"-" => f.write_str("%2D"),
            octets => Escape::Column.write(f, octets),
        }
    }
}

// Octets as a string of JSON, null for none.
#[derive(Clone, Copy)]
pub struct Json<'a>(pub Option<&'a [u8]>);

impl<'a> fmt::Display for Json<'a> {
    fn fmt<W: fmt::Write>(&self, f: &mut fmt::Formatter<W>) -> fmt::Result {
        let Some(octets) = self.0 else {
            return f.write_str("null");
        };
        f.write_str("\"")?;
        Escape::Json.write(f, octets)?;
        f.write_str("\"")
    }
}
