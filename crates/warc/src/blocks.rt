// A file's header block: shown, or written rebuilt; of two, whether a body may be appended to another.
use crate::answers::{Read, Stop, Test, Verdict};
use crate::forms::Remark;
use crate::headers::Header;
use crate::inputs::{Named, PIECE};
use crate::out::{Page, Stream};
use crate::outcomes::{Failure, Outcome};
use crate::texts::Lines;
use crate::{out, texts};
use leaves::refusals::Refusal;

// How a block's first line is taken: by what it begins with, as a status or as a field.
#[derive(Clone, Copy)]
pub enum FirstLine {
    Tells,
    IsStatus,
    IsField,
}

// How a block is read.
#[derive(Clone, Copy)]
pub struct Reading {
    pub first: FirstLine,
    pub quirks: bool,
}

impl Reading {
    // Whether a block that begins so is to have a status.
    fn awaits(self, s: &[u8]) -> bool {
        match self.first {
            FirstLine::IsStatus => true,
            FirstLine::IsField => false,
            FirstLine::Tells => s.starts_with(b"HTTP/") || s.starts_with(b"WARC/"),
        }
    }
}

// A block that was read: what ended it, the octets that it took, whether it was to have a status, and whether quirks were let pass. It is large: each is
// made where it stays, and lent to what reads it.
#[derive(Drop)]
struct Block {
    header: Header,
    end: Result<Read, Refusal>,
    taken: u64,
    status: bool,
    quirks: bool,
}

impl Block {
    // One of which nothing is read.
    fn new() -> Block {
        Block {
            header: Header::new(),
            end: Ok(Read::More),
            taken: 0,
            status: false,
            quirks: false,
        }
    }

    // Opens a file and reads its header block in large pieces, until one ends it or nothing more comes.
    fn load(&mut self, named: &Named, reading: Reading) -> Outcome {
        let mut piece = [0u8; PIECE];
        let mut input = named.open()?;
        let n = input.read_first(&mut piece)?;
        self.begin(reading.awaits(&piece[..n]), reading.quirks);
        let mut is_ended = self.feed(&piece[..n]);
        // Nothing says that an input ends, and a proved loop has to.
        for _ in 0..u64::MAX {
            if is_ended {
                break;
            }
            let n = input.read(&mut piece)?;
            is_ended = self.feed(&piece[..n]);
        }
        Ok(())
    }

    fn begin(&mut self, status: bool, quirks: bool) {
        self.header.begin(status, quirks);
        self.status = status;
        self.quirks = quirks;
    }

    // Reads on; whether that ended the block, as the end of input does, where the piece is empty.
    fn feed(&mut self, piece: &[u8]) -> bool {
        let (end, taken) = match piece {
            [] => (self.header.finish(), 0),
            _ => self.header.feed(piece),
        };
        self.end = end;
        self.taken = self.taken.wrapping_add(taken);
        !matches!(end, Ok(Read::More))
    }

    fn octets(&self) -> &[u8] {
        self.header.front(self.taken)
    }

    // What may help with the block.
    fn hint(&self) -> Option<Remark> {
        if texts::is_packed(&self.header.block) {
            return Some(Remark::Packed);
        }
        if !self.quirks && texts::is_lf_alone(&self.header.block) {
            return Some(Remark::LfHeader);
        }
        None
    }

    // How many lines stand for nothing, the status apart.
    fn idle_lines(&self) -> usize {
        Lines::new(self.octets(), self.quirks)
            .skip(usize::from(self.status))
            .filter(|line| is_idle(line))
            .count()
    }

    // What a person may want to know of the block.
    fn remark(&self, named: &Named) {
        if let Some(hint) = self.hint() {
            named.remark(hint);
        } else if matches!(self.end, Ok(Read::Blank)) {
            let n = self.idle_lines();
            if n > 0 {
                named.remark(Remark::Idle(n));
            }
        }
    }

    // Good is a block that its blank line ended.
    fn outcome(&self) -> Outcome {
        match self.end {
            Ok(Read::Blank) => Ok(()),
            _ => Err(Failure::Bad),
        }
    }

    // The block in words; of one that was refused nothing stands.
    fn say(&self, page: &mut Page) {
        let taken = self.taken;
        match self.end {
            Ok(Read::Blank) => page.say(format_args!(
                "ended by a blank line; octets taken: {taken}\n"
            )),
            Err(refusal) => {
                let stop = Stop(refusal);
                page.say(format_args!("stopped by number {stop}; octets taken: {taken}\n"));
                return;
            }
            _ => page.say(format_args!(
                "ended by the end of input, without a blank line; octets taken: {taken}\n"
            )),
        }
        page.say(&self.header);
        let clean = self.header.clean();
        let tidy = Test::tidy(self.octets(), self.status, self.quirks);
        let grammatical = Test::grammatical(self.octets());
        page.say(format_args!("clean: {clean}\ntidy: {tidy}\ngrammatical: {grammatical}\n"));
    }

    // Whether it was read, and is clean; what is amiss is said.
    fn can_be_rebuilt(&self, named: &Named) -> bool {
        match self.end {
            Ok(Read::Blank) => {}
            Err(refusal) => {
                named.remark(Remark::Refused(refusal));
                return false;
            }
            _ => named.remark(Remark::CutOff),
        }
        if matches!(self.header.clean(), Test(Ok(true))) {
            return true;
        }
        named.remark(Remark::Unclean);
        false
    }

    // Writes the block in words.
    fn show(&self, rt: &HostRuntime) -> Outcome {
        let mut page = Page::new(rt, Stream::Output);
        self.say(&mut page);
        self.outcome().max(page.flush())
    }

    // Writes the block rebuilt.
    fn write_rebuilt(&self, rt: &HostRuntime) -> Outcome {
        let mut sheet = [0u8; 65536];
        let rebuilt = self.header.rebuild(&mut sheet);
        self.outcome().max(Stream::Output.write(rt, rebuilt))
    }

    // Reads a block that is to be resumed; what is amiss is said.
    fn load_answer(&mut self, named: &Named) -> Outcome {
        let answer = Reading {
            first: FirstLine::IsStatus,
            quirks: false,
        };
        self.load(named, answer)?;
        self.say_amiss(named);
        Ok(())
    }

    // Says what is amiss with a block that is to be resumed: a cut-off one's last field may be the beginning of another.
    fn say_amiss(&self, named: &Named) {
        let amiss = match self.end {
            Ok(Read::Blank) => return,
            Err(refusal) => Remark::Refused(refusal),
            _ => Remark::CutOff,
        };
        if let Some(hint) = self.hint() {
            named.remark(hint);
        }
        named.remark(amiss);
    }
}

// A line that begins with a blank continues another.
fn is_idle(line: &[u8]) -> bool {
    !matches!(line, [b' ' | b'\t', ..]) && !line.contains(&b':')
}

// Shows a file's header block.
pub fn header(named: &Named, reading: Reading) -> Outcome {
    let mut block = Block::new();
    block.load(named, reading)?;
    block.remark(named);
    named.headline()?;
    block.show(named.rt)
}

// Writes a file's header block rebuilt.
pub fn tidy(named: &Named, reading: Reading) -> Outcome {
    let mut block = Block::new();
    block.load(named, reading)?;
    block.remark(named);
    if !block.can_be_rebuilt(named) {
        return Err(Failure::Bad);
    }
    block.write_rebuilt(named.rt)
}

fn verdict(first: &Block, second: &Block) -> Verdict {
    match (first.end, second.end) {
        (Ok(Read::Blank), Ok(Read::Blank)) => first.header.resumes(&second.header),
        (Err(_), _) | (_, Err(_)) => Verdict::NotRead,
        _ => Verdict::NotWhole,
    }
}

// Says whether the body of the second of two HTTP answers may be appended to that of the first. The second is read whatever the first is, so that both
// are told of.
pub fn resume(first: &Named, second: &Named) -> Outcome {
    let mut one = Block::new();
    let mut two = Block::new();
    let first_loaded = one.load_answer(first);
    let second_loaded = two.load_answer(second);
    first_loaded.and(second_loaded)?;
    let verdict = verdict(&one, &two);
    let said = out::say(first.rt, Stream::Output, format_args!("{verdict}\n"));
    match verdict {
        Verdict::Append => said,
        _ => Err(Failure::Bad).max(said),
    }
}
