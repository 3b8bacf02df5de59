// The program `warc`: what a person runs on a file.
#![tactic(auto)]

mod answers;
mod arguments;
mod blocks;
mod commands;
mod forms;
mod headers;
mod inputs;
mod out;
mod outcomes;
mod texts;
mod walkers;
mod walks;

use arguments::{Argument, Asked, Misuse, Verb};
use arrayvec::ArrayString;
use blocks::{FirstLine, Reading};
use commands::Command;
use inputs::Named;
use out::Stream;
use outcomes::{Failure, Outcome};
use std::env::Env;
use std::fmt::Write;
use walks::Task;

// Where the exit status is written: who runs the program reads it there, so it is no `ExitCode`.
const STATUS_FILENO: i32 = 3;

fn help(rt: &HostRuntime, to: Stream, command: Option<Command>) -> Outcome {
    to.write(rt, commands::help(command).as_bytes())
}

// Longer than each line that says what is wrong.
const LINE: usize = 128;

// Says what is wrong, and the help of the command.
fn misused(rt: &HostRuntime, command: Option<Command>, misuse: Misuse) -> Failure {
    let mut line = ArrayString::<LINE>::new();
    let _ = write!(line, "warc: {misuse}\n\n");
    let _ = Stream::Error.write(rt, line.as_str().as_bytes());
    let _ = help(rt, Stream::Error, command);
    Failure::Unread
}

// A path has fewer octets.
const PATH: usize = 4096;

// The path that argument i is.
fn path<'r>(rt: &HostRuntime, i: usize, room: &'r mut [u8; PATH]) -> Result<&'r [u8], Failure> {
    match rt.arg(i, room) {
        Ok(n) => Ok(&room[..n]),
        Err(_) => Err(inputs::unnamed(rt, room)),
    }
}

// A command, and what its arguments ask for.
#[derive(Clone, Copy)]
struct Job<'a> {
    rt: &'a HostRuntime,
    command: Command,
    asked: Asked,
}

impl<'a> Job<'a> {
    fn misused(&self, misuse: Misuse) -> Failure {
        misused(self.rt, Some(self.command), misuse)
    }

    // What is done with the records of a file that is walked over.
    fn task(&self) -> Task {
        match self.command {
            Command::Check => Task::Count,
            _ if self.asked.json => Task::Describe,
            _ => Task::List,
        }
    }

    // How a header block is read.
    fn reading(&self) -> Reading {
        let first = match self.asked {
            Asked { status: true, .. } => FirstLine::IsStatus,
            Asked { fields: true, .. } => FirstLine::IsField,
            _ => FirstLine::Tells,
        };
        Reading {
            first,
            quirks: self.asked.quirks,
        }
    }

    // The command on one of its files.
    fn on_file(&self, named: &Named) -> Outcome {
        match self.command {
            Command::Header => blocks::header(named, self.reading()),
            Command::Tidy => blocks::tidy(named, self.reading()),
            _ => walks::walk_file(named, self.task(), 0),
        }
    }

    // The command on argument i, where that is a file.
    fn on_argument(&self, i: usize) -> Outcome {
        if !Argument::of(self.rt, Verb::Do(self.command), i).is_file() {
            return Ok(());
        }
        let mut room = [0; PATH];
        self.on_file(&Named {
            rt: self.rt,
            path: path(self.rt, i, &mut room)?,
            is_one_of_several: self.asked.files > 1,
        })
    }

    // The command on each of its files, until something cannot be written.
    fn on_each(&self, count: usize) -> Outcome {
        let mut outcome = Ok(());
        for i in 2..count {
            outcome = outcome.max(self.on_argument(i));
            if outcome == Err(Failure::Unwritten) {
                break;
            }
        }
        outcome
    }

    // The command on two arguments: two files, or a file and a start.
    fn on_two(&self) -> Outcome {
        let mut first_room = [0; PATH];
        let mut second_room = [0; PATH];
        let first = path(self.rt, 2, &mut first_room)?;
        let second = path(self.rt, 3, &mut second_room)?;
        let file = Named::alone(self.rt, first);
        match self.command {
            Command::Resume => blocks::resume(&file, &Named::alone(self.rt, second)),
            Command::Record => self.at_start(&file, Task::Show, second),
            _ => self.at_start(&file, Task::Write, second),
        }
    }

    // What is done with the record at a start.
    fn at_start(&self, file: &Named, task: Task, start: &[u8]) -> Outcome {
        match texts::decimal(start) {
            Some(start) => walks::walk_file(file, task, start),
            None => Err(self.misused(Misuse::NoStart)),
        }
    }

    fn run(&self, count: usize) -> Outcome {
        if let Err(misuse) = self.asked.suit(self.command) {
            return Err(self.misused(misuse));
        }
        match self.command {
            Command::Resume | Command::Record | Command::Body => self.on_two(),
            _ => self.on_each(count),
        }
    }
}

// Without arguments: the help, and a walk of the sample.
fn sample(rt: &HostRuntime) -> Outcome {
    let _ = help(rt, Stream::Output, None);
    let _ = Stream::Output.write(rt, b"\nwarc walk sample.warc:\n");
    walks::walk_file(&Named::alone(rt, b"sample.warc"), Task::List, 0)
}

// The help of a command, or of the program where none is named.
fn helped(rt: &HostRuntime, verb: Verb, count: usize) -> Outcome {
    let command = verb.command();
    if count > 2 && command.is_none() {
        return Err(misused(rt, None, Misuse::NoCommand));
    }
    help(rt, Stream::Output, command)
}

fn run(rt: &HostRuntime) -> Outcome {
    let count = arguments::count(rt);
    if count <= 1 {
        return sample(rt);
    }
    let verb = Verb::of(rt, 1);
    let asked = Asked::of(rt, verb, count);
    if asked.help {
        return helped(rt, verb, count);
    }
    match verb {
        Verb::Do(command) => Job { rt, command, asked }.run(count),
        Verb::Help => helped(rt, Verb::of(rt, 2), count),
        Verb::Version if count == 2 => Stream::Output.write(rt, b"warc (bisquecrow) 1.0.0\n"),
        Verb::Version | Verb::Strange => Err(misused(rt, None, Misuse::NoCommand)),
    }
}

fn main(rt: HostRuntime) {
    let status = match run(&rt) {
        Ok(()) => b"0\n",
        Err(Failure::Unread) => b"2\n",
        Err(Failure::Bad | Failure::Unwritten) => b"1\n",
    };
    io::write_all(STATUS_FILENO, status);
}
