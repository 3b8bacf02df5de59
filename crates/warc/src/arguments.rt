// What the arguments of a run are.
use crate::commands::Command;
use std::env::{Env, FillError};
use std::fmt;

fn is_argument(rt: &HostRuntime, i: usize) -> bool {
    !matches!(rt.arg(i, &mut [0]), Err(FillError::NotPresent))
}

// How many arguments there are, with the name of the program.
pub fn count(rt: &HostRuntime) -> usize {
    (0..usize::MAX)
        .find(|i| !is_argument(rt, *i))
        .unwrap_or(usize::MAX)
}

// Longer than each word.
const WORD: usize = 16;

// An argument's octets, of a long one the first; none where there is no such argument.
fn word<'r>(rt: &HostRuntime, i: usize, room: &'r mut [u8; WORD]) -> &'r [u8] {
    match rt.arg(i, room) {
        Ok(n) => &room[..n],
        Err(FillError::TooLong) => room,
        Err(FillError::NotPresent) => &[],
    }
}

// What the first argument asks for.
#[derive(Clone, Copy, PartialEq, Eq)]
pub enum Verb {
    Do(Command),
    Help,
    Version,
    Strange,
}

impl From<&[u8]> for Verb {
    fn from(word: &[u8]) -> Verb {
        match word {
            b"walk" => Verb::Do(Command::Walk),
            b"check" => Verb::Do(Command::Check),
            b"header" => Verb::Do(Command::Header),
            b"tidy" => Verb::Do(Command::Tidy),
            b"resume" => Verb::Do(Command::Resume),
            b"record" => Verb::Do(Command::Record),
            b"body" => Verb::Do(Command::Body),
            b"help" | b"--help" | b"-h" => Verb::Help,
            b"--version" => Verb::Version,
            _ => Verb::Strange,
        }
    }
}

impl Verb {
    pub fn of(rt: &HostRuntime, i: usize) -> Verb {
        Verb::from(word(rt, i, &mut [0; WORD]))
    }

    pub fn command(self) -> Option<Command> {
        match self {
            Verb::Do(command) => Some(command),
            _ => None,
        }
    }

    fn is_of_blocks(self) -> bool {
        matches!(self, Verb::Do(Command::Header | Command::Tidy))
    }
}

// What an argument is to a command.
#[derive(Clone, Copy, PartialEq, Eq)]
pub enum Argument {
    Help,
    Json,
    Status,
    Fields,
    Quirks,
    Strange,
    Standard,
    File,
}

impl Argument {
    pub fn of(rt: &HostRuntime, verb: Verb, i: usize) -> Argument {
        let mut room = [0; WORD];
        let word = word(rt, i, &mut room);
        // A word without dashes is an option where a header block is asked for.
        match word {
            b"--help" | b"-h" => Argument::Help,
            b"--json" => Argument::Json,
            b"--status" => Argument::Status,
            b"--fields" => Argument::Fields,
            b"--quirks" => Argument::Quirks,
            b"status" if verb.is_of_blocks() => Argument::Status,
            b"fields" if verb.is_of_blocks() => Argument::Fields,
            b"quirks" if verb.is_of_blocks() => Argument::Quirks,
            b"-" => Argument::Standard,
            [b'-', ..] => Argument::Strange,
            _ => Argument::File,
        }
    }

    pub fn is_file(self) -> bool {
        matches!(self, Argument::File | Argument::Standard)
    }
}

// What the arguments behind a command are.
#[derive(Clone, Copy, Default)]
pub struct Asked {
    pub files: usize,
    pub help: bool,
    pub json: bool,
    pub status: bool,
    pub fields: bool,
    pub quirks: bool,
    strange: bool,
    standard: usize,
}

impl Asked {
    pub fn of(rt: &HostRuntime, verb: Verb, count: usize) -> Asked {
        let mut asked = Asked::default();
        for i in 2..count {
            asked.add(Argument::of(rt, verb, i));
        }
        asked
    }

    fn add(&mut self, argument: Argument) {
        match argument {
            Argument::Help => self.help = true,
            Argument::Json => self.json = true,
            Argument::Status => self.status = true,
            Argument::Fields => self.fields = true,
            Argument::Quirks => self.quirks = true,
            Argument::Strange => self.strange = true,
            Argument::Standard => {
                self.standard = self.standard.saturating_add(1);
                self.files = self.files.saturating_add(1);
            }
            Argument::File => self.files = self.files.saturating_add(1),
        }
    }

    // Whether a command has no use for one of the options.
    fn exceeds(self, command: Command) -> bool {
        let is_of_blocks = self.status || self.fields || self.quirks;
        match command {
            Command::Walk => is_of_blocks,
            Command::Header | Command::Tidy => self.json,
            _ => self.json || is_of_blocks,
        }
    }

    // Whether a command can be done with them.
    pub fn suit(self, command: Command) -> Result<(), Misuse> {
        if self.strange {
            return Err(Misuse::NoOption);
        }
        if self.exceeds(command) {
            return Err(Misuse::NotItsOption);
        }
        if self.standard > 1 {
            return Err(Misuse::StandardTwice);
        }
        if self.status && self.fields {
            return Err(Misuse::StatusAndFields);
        }
        if !command.takes(self.files) {
            return Err(Misuse::FileCount);
        }
        Ok(())
    }
}

// What is wrong with the arguments.
#[derive(Clone, Copy)]
pub enum Misuse {
    NoCommand,
    NoOption,
    NotItsOption,
    StandardTwice,
    StatusAndFields,
    FileCount,
    NoStart,
}

impl fmt::Display for Misuse {
    fn fmt<W: fmt::Write>(&self, f: &mut fmt::Formatter<W>) -> fmt::Result {
        f.write_str(match self {
            Misuse::NoCommand => "there is no such command",
            Misuse::NoOption => "there is no such option",
            Misuse::NotItsOption => "that is no option of the command",
            Misuse::StandardTwice => "standard input is one file, and - stands twice",
            Misuse::StatusAndFields => "--status and --fields exclude each other",
            Misuse::FileCount => "the command takes another number of files",
            Misuse::NoStart => "START is no number of up to 18 digits",
        })
    }
}
