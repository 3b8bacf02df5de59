// Files that arguments name.
ghost use Rattle.std.specs.Prelude.{◌≤◌, IfOk};

use crate::forms::Remark;
use crate::out;
use crate::out::{Stream, Text};
use crate::outcomes::{Failure, Outcome};
use std::fs::File;
use std::io::{Read, Seek, SeekFrom, Stdin};
use std::{fs, io};

// The system's numbers of the errors that are found before it is asked: a name that is too long to be one, and one that is no UTF-8, by which nothing
// can be opened.
const TOO_LONG: i32 = 36;

const NO_TEXT: i32 = 84;

// A name that is too long to be one, of which so much is said.
const NAME: usize = 64;

// A file that an argument names: `-` is standard input.
#[derive(Clone, Copy)]
pub struct Named<'a> {
    pub rt: &'a HostRuntime,
    pub path: &'a [u8],
    pub is_one_of_several: bool,
}

impl<'a> Named<'a> {
    pub fn alone(rt: &'a HostRuntime, path: &'a [u8]) -> Named<'a> {
        Named {
            rt,
            path,
            is_one_of_several: false,
        }
    }

    // Says why a call on it failed.
    pub fn fail(&self, e: io::Error) -> Failure {
        out::fail(self.rt, Text(self.path), e);
        Failure::Unread
    }

    pub fn remark(&self, remark: Remark) {
        let _ = out::say(
            self.rt,
            Stream::Error,
            format_args!("{}: {remark}\n", Text(self.path)),
        );
    }

    // The line before what is said of a file that is one of several.
    pub fn headline(&self) -> Outcome {
        if !self.is_one_of_several {
            return Ok(());
        }
        out::say(
            self.rt,
            Stream::Output,
            format_args!("file {}:\n", Text(self.path)),
        )
    }

    // What to read from; where a file cannot be opened, why is said.
    pub fn open(&self) -> Result<Input<'a>, Failure> {
        let source = source_of(self.rt, self.path).map_err(|e| self.fail(e))?;
        Ok(Input {
            named: *self,
            source,
        })
    }
}

// Says of a name that it is too long to be one.
pub fn unnamed(rt: &HostRuntime, name: &[u8]) -> Failure {
    let beginning = name.get(..NAME).unwrap_or(name);
    Named::alone(rt, beginning).fail(io::Error::from_raw_os_error(TOO_LONG))
}

// Where octets come from. Where there is no standard input, a file may have its descriptor, and is let go before standard input is read.
#[derive(Drop)]
enum Source {
    Standard(Stdin),
    File(File),
}

fn source_of(rt: &HostRuntime, path: &[u8]) -> io::Result<Source> {
    if matches!(path, b"-") {
        return Ok(Source::Standard(rt.stdin()));
    }
    let name = std::str::from_utf8(path).map_err(|_| io::Error::from_raw_os_error(NO_TEXT))?;
    Ok(Source::File(fs::open(rt, name)?))
}

impl Read for Source {
    fn read(&mut self, buf: &mut [u8]) -> io::Result<usize> {
        match self {
            Source::Standard(stdin) => stdin.read(buf),
            Source::File(file) => file.read(buf),
        }
    }
}

// A file that is open.
#[derive(Drop)]
pub struct Input<'a> {
    named: Named<'a>,
    source: Source,
}

// So many octets are read at once, into memory of the program's own: none is asked for in a run, so none can be short.
pub const PIECE: usize = 262144;

// How many octets tell how a block begins.
const FIRST: usize = 5;

impl<'a> Input<'a> {
    // Reads once, and answers how many octets came; where that failed, why is said.
    pub fn read(&mut self, piece: &mut [u8; PIECE]) -> Result<usize, Failure>
        ensures { IfOk result (λ n. n ≤ PIECE) }
    {
        let named = self.named;
        self.source.read(piece).map_err(|e| named.fail(e))
    }

    // Reads the first octets, or those that there are; otherwise as `read` does.
    pub fn read_first(&mut self, piece: &mut [u8; PIECE]) -> Result<usize, Failure>
        ensures { IfOk result (λ n. n ≤ PIECE) }
    {
        match self.read_beginning(piece) {
            0 => self.read(piece),
            n => Ok(n),
        }
    }

    fn read_beginning(&mut self, piece: &mut [u8; PIECE]) -> usize
        ensures { result ≤ FIRST }
    {
        let mut done = 0;
        for _ in 0..FIRST {
            let n = self.source.read(&mut piece[done..FIRST]).unwrap_or(0);
            if n == 0 {
                break;
            }
            done += n;
        }
        done
    }

    // Goes to a start. What has no places, as standard input, is passed over.
    pub fn go_to(&mut self, start: u64) {
        if !self.is_set(start) {
            let _ = io::copy(&mut self.source.by_ref().take(start), &mut io::sink());
        }
    }

    fn is_set(&mut self, start: u64) -> bool {
        match (&mut self.source, i64::try_from(start)) {
            (Source::File(file), Ok(offset)) => file.seek(SeekFrom::Current(offset)).is_ok(),
            _ => false,
        }
    }
}
