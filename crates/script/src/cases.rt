// What a line's words do, one after the other.
use crate::answers;
use crate::answers::{Refusal, Step};
use crate::map::Map;
use crate::octets::Hex;
use crate::output::Output;
use crate::shows::Loans;
use crate::walks::Walker;
use crate::words::{Flags, Word};
use std::alloc::{AllocError, Global};

// The default limit.
const LIMIT: usize = 32768;

// The octets that an output is lent with.
const BLANK: u8 = 0xbb;

// A line's map and walker, the map that is kept, and the limit and room of the last begin.
#[derive(Drop)]
pub struct Case {
    alloc: Global,
    map: Map,
    kept: Map,
    walker: Walker,
    limit: usize,
    room: usize,
}

impl Case {
    // A line begins with empty maps and a walker that has ended.
    pub fn new(alloc: Global) -> Self {
        Case {
            alloc,
            map: Map::new(alloc),
            kept: Map::new(alloc),
            walker: Walker::new(),
            limit: 0,
            room: 0,
        }
    }

    // Does what a word says, and prints what the calls answer.
    pub fn answer(&mut self, word: Word<'_>, out: &mut Output) -> Result<(), AllocError> {
        let alloc = self.alloc;
        let map = &mut self.map;
        match word {
            Word::Begin(begin) => {
                self.lend(begin.limit, begin.room, begin.block, begin.store)?;
                out.say_done("b", self.map.begin(begin.flags, begin.limit, begin.room))
            }
            Word::Clear => out.say_done("c", map.clear()),
            Word::Feed(piece) => out.say_taken(map.feed(&piece.decode(alloc)?)),
            Word::Finish => out.say_result(map.finish()),
            Word::Set(key, value) => {
                out.say_done("ok", map.set(&key.decode(alloc)?, &value.decode(alloc)?))
            }
            Word::Append(key, value) => {
                out.say_done("ok", map.append(&key.decode(alloc)?, &value.decode(alloc)?))
            }
            Word::Remove(key) => out.say_done("ok", map.remove(&key.decode(alloc)?)),
            Word::SetStatus(text) => out.say_done("ok", map.set_status(&text.decode(alloc)?)),
            Word::Find(name, start) => out.say_known(map.find(&name.decode(alloc)?, start)),
            Word::Value(i) => out.say(shown(map.value(i))),
            Word::Key(i) => out.say(shown(map.key(i))),
            Word::Status => out.say(shown(map.status())),
            Word::Reason => out.say_known(map.reason().map(|text| text.map(Hex))),
            Word::StatusCode => out.say_known(map.status_code()),
            Word::RecordType => out.say_known(map.record_type()),
            Word::Clean => out.say_truth(map.is_clean()),
            Word::Write(n) => write(alloc, n, |sheet| map.write(sheet), out)?,
            Word::Rebuild(n) => write(alloc, n, |sheet| map.rebuild(sheet), out)?,
            Word::Keep => {
                self.kept.copy(map)?;
                out.say("K")
            }
            Word::Equal => out.say_truth(self.kept.equals(&self.map)),
            Word::Resume => out.say_result(self.kept.resumes(&self.map)),
            Word::Dump => out.say(&self.map),
            Word::Loans => out.say(Loans {
                map: &self.map,
                limit: self.limit,
                room: self.room,
            }),
            Word::ContentLength(text) => {
                out.say(leaves::lengths::content_length(&text.decode(alloc)?))
            }
            Word::Tidy(flags, limit, block) => {
                out.say_truth(is_tidy(flags, limit, &block.decode(alloc)?))
            }
            Word::Grammatical(text) => out.say_truth(answers::truth(
                abi::telling::bisquecrow_grammatical(&text.decode(alloc)?),
            )),
            Word::Walker(room, position) => {
                self.lend(LIMIT, room, LIMIT, room)?;
                out.say_done("ws", self.walker.start(&mut self.map, room, position))
            }
            Word::Walk(piece) => self.walk(&piece.decode(alloc)?, out),
            Word::End => out.say_result(self.walker.end(map)),
            Word::Damage(damage) => {
                damage.apply(&mut map.head, &mut map.table, &mut self.walker.trail);
                out.say("x")
            }
        }
        Ok(())
    }

    // Lends afresh, for a limit and a room.
    fn lend(
        &mut self,
        limit: usize,
        room: usize,
        block: usize,
        store: usize,
    ) -> Result<(), AllocError> {
        self.limit = limit;
        self.room = room;
        self.map.lend(block, store)
    }

    // Calls the walker on a piece until it is taken, or the walker stops or ends, or takes nothing of the whole.
    fn walk(&mut self, piece: &[u8], out: &mut Output) {
        let mut rest = piece;
        // A call may take nothing, so the piece does not say how many there are.
        for _ in 0..u64::MAX {
            let step = self.walker.walk(&mut self.map, rest);
            let (body, behind) = rest.split_at(rest.len().min(step.taken as usize));
            match step.answer {
                Ok(Step::Body) => out.say(format_args!("body:{}", Hex(body))),
                _ => out.say_taken(step),
            }
            let goes_on = matches!(step.answer, Ok(Step::More | Step::Record(_) | Step::Body));
            if !goes_on || behind.is_empty() || behind.len() == piece.len() {
                return;
            }
            out.say("/");
            rest = behind;
        }
    }
}

// Has so many octets written into that are blank, and shows all of them.
fn write<F: FnOnce(&mut [u8]) -> Result<u64, Refusal>>(
    alloc: Global,
    n: usize,
    call: F,
    out: &mut Output,
) -> Result<(), AllocError>
    requires { F.IsAlwaysCallable call }
{
    let mut sheet = vec![in alloc; BLANK; n]?;
    out.say_sheet(call(&mut sheet), &sheet);
    Ok(())
}

// What is shown of a text: no octets where there are none to show.
fn shown<'a>(text: Result<Option<&'a [u8]>, Refusal>) -> Hex<'a> {
    Hex(text.ok().flatten().unwrap_or(&[]))
}

fn is_tidy(flags: Flags, limit: usize, block: &[u8]) -> Result<bool, Refusal> {
    answers::truth(abi::telling::bisquecrow_tidy(block, flags.awaits, flags.quirks, limit))
}
