// The records of a file: listed, or counted up to where the file stops; of one of them its header or its body.
use crate::answers::{Step, Stop};
use crate::forms::{Before, Records, Remark};
use crate::inputs::{Input, Named, PIECE};
use crate::out;
use crate::out::{Column, Json, Page, Stream, Text};
use crate::outcomes::{Failure, Outcome};
use crate::texts::Opening;
use crate::walkers::{Record, Walker};
use leaves::refusals::Refusal;
use std::io::IsTerminal;

// What is done with the records: they are counted, listed in columns, described in JSON; the first is shown, or its body is written.
#[derive(Clone, Copy, PartialEq, Eq)]
pub enum Task {
    Count,
    List,
    Describe,
    Show,
    Write,
}

impl Task {
    // Whether it asks for one record alone.
    fn is_of_one(self) -> bool {
        matches!(self, Task::Show | Task::Write)
    }

    // Behind a listing, what is told goes to standard error.
    fn target(self) -> Stream {
        match self {
            Task::Count => Stream::Output,
            _ => Stream::Error,
        }
    }
}

// How a walk ended: at the end of a file of whole records, where the record that was asked for was done with, or where the walker stopped.
#[derive(Clone, Copy)]
enum Ending {
    Whole,
    Found,
    Stopped(Refusal),
}

// Of a walk to whose walker the end was told.
impl From<Result<Step, Refusal>> for Ending {
    fn from(step: Result<Step, Refusal>) -> Ending {
        match step {
            Err(refusal) => Ending::Stopped(refusal),
            Ok(_) => Ending::Whole,
        }
    }
}

// A line of progress for every 256 MiB.
const STRIDE: u64 = 268435456;

// A walk over a file.
#[derive(Drop)]
struct Walk<'a> {
    named: Named<'a>,
    task: Task,
    walker: Walker,
    page: Page<'a>,
    // How many records were good.
    good: u64,
}

impl<'a> Walk<'a> {
    fn new(named: &Named<'a>, task: Task, position: u64) -> Walk<'a> {
        Walk {
            named: *named,
            task,
            walker: Walker::new(position),
            page: Page::new(named.rt, Stream::Output),
            good: 0,
        }
    }

    // Walks over a file, and answers how that ended, unless it did by the end of input.
    fn run(&mut self, input: &mut Input) -> Result<Option<Ending>, Failure> {
        let mut piece = [0u8; PIECE];
        let mut n = 0;
        // Nothing says that an input ends, and a proved loop has to.
        for _ in 0..u64::MAX {
            self.page.flush()?;
            self.say_progress(n as u64);
            n = input.read(&mut piece)?;
            if n == 0 {
                break;
            }
            let ending = self.walk_over(&piece[..n])?;
            if ending.is_some() {
                return Ok(ending);
            }
        }
        Ok(None)
    }

    // Says on a terminal how far a long file is walked over, where the last piece passed a stride.
    fn say_progress(&self, piece: u64) {
        let position = self.walker.position();
        if position % STRIDE < piece && position >= STRIDE && self.named.rt.stderr().is_terminal() {
            let records = Records(self.good);
            let _ = out::say(
                self.named.rt,
                Stream::Error,
                format_args!("so far: {records}, {position} octets\n"),
            );
        }
    }

    fn walk_over(&mut self, piece: &[u8]) -> Result<Option<Ending>, Failure> {
        let mut rest = piece;
        // Likewise: a step may take nothing.
        for _ in 0..u64::MAX {
            if rest.is_empty() {
                break;
            }
            let (step, taken) = self.walker.step(rest);
            let (part, behind) = rest.split_at_checked(taken as usize).unwrap_or((rest, &[]));
            rest = behind;
            let ending = self.take(step, part)?;
            if ending.is_some() {
                return Ok(ending);
            }
        }
        Ok(None)
    }

    // Does what is asked for with what the walker came to.
    fn take(
        &mut self,
        step: Result<Step, Refusal>,
        part: &[u8],
    ) -> Result<Option<Ending>, Failure> {
        match step {
            Ok(Step::Record) => {
                self.say_record();
                if self.task == Task::Show {
                    return Ok(Some(Ending::Found));
                }
            }
            Ok(Step::Body) if self.task == Task::Write => {
                Stream::Output.write(self.named.rt, part)?;
            }
            // The walker stands between records where one ended.
            Ok(Step::More) if self.walker.is_between_records() => {
                self.good = self.good.wrapping_add(1);
                if self.task == Task::Write {
                    return Ok(Some(Ending::Found));
                }
            }
            Err(refusal) => return Ok(Some(Ending::Stopped(refusal))),
            Ok(_) => {}
        }
        Ok(None)
    }

    // What is said of a record that begins.
    fn say_record(&mut self) {
        match self.task {
            Task::List => self.list(),
            Task::Describe => self.describe(),
            Task::Show => self.show(),
            Task::Count | Task::Write => {}
        }
    }

    fn list(&mut self) {
        let Record {
            start,
            body,
            length,
            kind,
        } = self.walker.record();
        let header = &self.walker.header;
        let date = Column(header.value(b"WARC-Date").unwrap_or_default());
        let uri = Column(header.value(b"WARC-Target-URI").unwrap_or_default());
        self.page.say(format_args!("{start} {body} {length} {kind} {date} {uri}\n"));
    }

    fn describe(&mut self) {
        let Record {
            start,
            body,
            length,
            ..
        } = self.walker.record();
        let header = &self.walker.header;
        let file = Json(Some(self.named.path));
        let kind = Json(header.value(b"WARC-Type"));
        let date = Json(header.value(b"WARC-Date"));
        let uri = Json(header.value(b"WARC-Target-URI"));
        self.page.say(format_args!(
            "{{\"file\":{file},\"start\":{start},\"body\":{body},\"length\":{length},\"type\":{kind},\"date\":{date},\"uri\":{uri}}}\n"
        ));
    }

    fn show(&mut self) {
        let Record {
            start,
            body,
            length,
            kind,
        } = self.walker.record();
        let header = &self.walker.header;
        self.page.say(format_args!(
            "start: {start}\nbody: {body}\nlength: {length}\ntype: {kind}\n{header}"
        ));
    }

    // Says how a file ends.
    fn say_ending(&mut self, ending: Result<Ending, Failure>) {
        let good = self.good;
        let records = Records(good);
        let position = self.walker.position();
        let before = Before {
            good,
            whole: self.walker.whole(),
        };
        match ending {
            Ok(Ending::Whole) => {
                self.page
                    .say(format_args!("good: {records}, {position} octets\n"));
            }
            Ok(Ending::Stopped(refusal)) => {
                let stop = Stop(refusal);
                self.page.say(format_args!(
                    "stopped at position {position} by number {stop}; {before}\n"
                ));
            }
            Err(Failure::Unread) => {
                self.page.say(format_args!("unreadable at position {position}; {before}\n"));
            }
            _ => {}
        }
    }

    // Says what is amiss with the one record that was asked for.
    fn say_failure(&mut self, ending: Result<Ending, Failure>) {
        let position = self.walker.position();
        match ending {
            Ok(Ending::Whole) => self.page.say(format_args!(
                "no record starts at position {position}, where the file ends or behind it\n"
            )),
            Ok(Ending::Stopped(refusal)) => {
                let stop = Stop(refusal);
                self.page.say(format_args!("stopped at position {position} by number {stop}\n"));
            }
            _ => {}
        }
    }

    // Says how the walk ended, on the page of the records, which was flushed.
    fn tell(&mut self, ending: Result<Ending, Failure>) -> Outcome {
        self.page.turn_to(self.task.target());
        if self.task.is_of_one() {
            self.say_failure(ending);
        } else if !matches!(ending, Err(Failure::Unwritten)) {
            if self.named.is_one_of_several {
                self.page.say(format_args!("{}: ", Text(self.named.path)));
            }
            self.say_ending(ending);
        }
        self.page.flush()
    }

    // Writes what was said of the records, and says how the file ends.
    fn conclude(&mut self, ending: Result<Ending, Failure>) -> Outcome {
        let listed = self.page.flush();
        let told = self.tell(ending);
        match ending? {
            Ending::Stopped(_) => Err(Failure::Bad),
            Ending::Whole if self.task.is_of_one() => Err(Failure::Bad),
            Ending::Whole | Ending::Found => listed.and(told),
        }
    }

    // What may help, by how the walk ended.
    fn hint(&self, ending: Ending) -> Option<Remark> {
        match ending {
            Ending::Whole if self.walker.position() == 0 => Some(Remark::Empty),
            Ending::Stopped(Refusal::BlockFull | Refusal::BadVersion | Refusal::CutShort) => {
                self.hint_at_header()
            }
            _ => None,
        }
    }

    // The same where a header is not read to its end, or its version line is none; the last good record ends where the header begins.
    fn hint_at_header(&self) -> Option<Remark> {
        let whole = self.walker.whole();
        let header = self
            .walker
            .header
            .front(self.walker.position().wrapping_sub(whole));
        match Opening::of(header) {
            Opening::Packed => Some(Remark::Packed),
            Opening::Version => None,
            Opening::VersionInLf => Some(Remark::LfAlone),
            _ if whole == 0 => Some(Remark::NoWarc),
            _ if self.task.is_of_one() => Some(Remark::NoStart),
            Opening::LineEnd => Some(Remark::BlankLine),
            Opening::Other => Some(Remark::NoRecordHere),
        }
    }
}

// Walks over an input from a position on, and says how it ends. The walk is large, and made first: behind other work its memory would be cleared twice.
fn walk_input(named: &Named, task: Task, position: u64, input: &mut Input) -> Outcome {
    let mut walk = Walk::new(named, task, position);
    let ended = walk.run(input);
    let last = Ending::from(walk.walker.end());
    let ending = ended.map(|ending| ending.unwrap_or(last));
    let outcome = walk.conclude(ending);
    if let Ok(ending) = ending
        && let Some(hint) = walk.hint(ending)
    {
        named.remark(hint);
    }
    outcome
}

// Walks over a file from a position on, and says how it ends.
pub fn walk_file(named: &Named, task: Task, position: u64) -> Outcome {
    let mut input = named.open()?;
    if position > 0 {
        input.go_to(position);
    }
    if task == Task::List {
        named.headline()?;
    }
    walk_input(named, task, position, &mut input)
}
