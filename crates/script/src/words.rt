// The words of a line, with their arguments.
ghost use Rattle.std.specs.Prelude.{◌-◌, length};
ghost use Rattle.std.specs.Iterator.{at_most};

use crate::damages::Damage;
use crate::octets::Octets;
use crate::reading::{Cursor, LOAN, Nonsense};

// How long an output may be: two arguments.
const OUTPUT: usize = 140000;

// Whether a block awaits a status, and whether quirks are read.
#[derive(Clone, Copy, Debug)]
pub struct Flags {
    pub awaits: bool,
    pub quirks: bool,
}

// What a map begins with: the flags, limit and room, and how long its loans are.
#[derive(Clone, Copy, Debug)]
pub struct Begin {
    pub flags: Flags,
    pub limit: usize,
    pub room: usize,
    pub block: usize,
    pub store: usize,
}

#[derive(Clone, Copy, Debug)]
pub enum Word<'a> {
    Begin(Begin),
    Clear,
    Feed(Octets<'a>),
    Finish,
    Set(Octets<'a>, Octets<'a>),
    Append(Octets<'a>, Octets<'a>),
    Remove(Octets<'a>),
    SetStatus(Octets<'a>),
    Find(Octets<'a>, usize),
    Value(usize),
    Key(usize),
    Status,
    Reason,
    StatusCode,
    RecordType,
    Clean,
    Write(usize),
    Rebuild(usize),
    Keep,
    Equal,
    Resume,
    Dump,
    Loans,
    ContentLength(Octets<'a>),
    Tidy(Flags, usize, Octets<'a>),
    Grammatical(Octets<'a>),
    Walker(usize, u64),
    Walk(Octets<'a>),
    End,
    Damage(Damage),
}

impl Flags {
    fn read(line: &mut Cursor<'_>) -> Result<Self, Nonsense> {
        line.expect(b' ')?;
        Ok(Flags {
            awaits: line.flag()?,
            quirks: line.flag()?,
        })
    }
}

fn number(line: &mut Cursor<'_>) -> Result<usize, Nonsense> {
    line.number_behind(b' ')
}

// A number up to another: a larger one makes no sense at its end.
fn length(line: &mut Cursor<'_>, most: usize) -> Result<usize, Nonsense> {
    let n = number(line)?;
    if n <= most {
        Ok(n)
    } else {
        Err(line.nonsense())
    }
}

fn octets<'a>(line: &mut Cursor<'a>) -> Result<Octets<'a>, Nonsense> {
    line.expect(b' ')?;
    line.octets()
}

impl Begin {
    // Loans that are too long make no sense at the end of the last number.
    fn read(line: &mut Cursor<'_>) -> Result<Self, Nonsense> {
        let begin = Begin {
            flags: Flags::read(line)?,
            limit: number(line)?,
            room: number(line)?,
            block: number(line)?,
            store: number(line)?,
        };
        if begin.block > LOAN || begin.store > LOAN {
            return Err(line.nonsense());
        }
        Ok(begin)
    }
}

// The letters of a word: those of a walker's words whatever stands behind them, else all up to a space.
fn letters<'a>(line: &mut Cursor<'a>) -> &'a [u8] {
    match line.rest() {
        [b'w', b's' | b'f' | b'F', ..] => line.take(2),
        _ => line.word(),
    }
}

impl<'a> Word<'a> {
    // A room that is too large makes no sense at the end of the position.
    fn walker(line: &mut Cursor<'a>) -> Result<Self, Nonsense> {
        let room = number(line)?;
        let position = number(line)?;
        if room > LOAN {
            return Err(line.nonsense());
        }
        Ok(Word::Walker(room, position as u64))
    }

    // A word by its letters, with its arguments. The octets 1, 2 and 3 alone are a walker's words too.
    fn named(line: &mut Cursor<'a>) -> Result<Self, Nonsense> {
        let unknown = line.nonsense();
        Ok(match letters(line) {
            b"b" => Word::Begin(Begin::read(line)?),
            b"c" => Word::Clear,
            b"f" => Word::Feed(octets(line)?),
            b"F" => Word::Finish,
            b"s" => Word::Set(octets(line)?, octets(line)?),
            b"a" => Word::Append(octets(line)?, octets(line)?),
            b"r" => Word::Remove(octets(line)?),
            b"u" => Word::SetStatus(octets(line)?),
            b"g" => Word::Find(octets(line)?, number(line)?),
            b"v" => Word::Value(number(line)?),
            b"k" => Word::Key(number(line)?),
            b"t" => Word::Status,
            b"H" => Word::Reason,
            b"h" => Word::StatusCode,
            b"y" => Word::RecordType,
            b"C" => Word::Clean,
            b"w" => Word::Write(length(line, OUTPUT)?),
            b"W" => Word::Rebuild(length(line, OUTPUT)?),
            b"K" => Word::Keep,
            b"e" => Word::Equal,
            b"R" => Word::Resume,
            b"d" => Word::Dump,
            b"m" => Word::Loans,
            b"l" => Word::ContentLength(octets(line)?),
            b"T" => Word::Tidy(Flags::read(line)?, number(line)?, octets(line)?),
            b"G" => Word::Grammatical(octets(line)?),
            b"ws" | b"\x01" => Word::walker(line)?,
            b"wf" | b"\x02" => Word::Walk(octets(line)?),
            b"wF" | b"\x03" => Word::End,
            b"x" => Word::Damage(Damage::read(line)?),
            _ => return Err(unknown),
        })
    }

    // A word that ends where its arguments do.
    fn read(line: &mut Cursor<'a>) -> Result<Self, Nonsense> {
        let word = Word::named(line)?;
        if line.is_behind_word() {
            Ok(word)
        } else {
            Err(line.nonsense())
        }
    }
}

// The words of a line.
#[derive(Drop)]
pub struct Words<'a> {
    line: Cursor<'a>,
}

impl<'a> Words<'a> {
    pub fn new(line: &'a [u8]) -> Self {
        Words {
            line: Cursor::new(line),
        }
    }
}

impl<'a> Iterator for Words<'a> {
    type Item = Result<Word<'a>, Nonsense>;

    ghost remaining = { λ s. at_most (length s.line.line.now - s.line.at) };

    fn next(&mut self) -> Option<Self::Item> {
        if self.line.is_at_end() {
            return None;
        }
        let mut line = self.line;
        if line.at() > 0 {
            // The space behind the word before.
            line.take(1);
        }
        let word = Word::read(&mut line);
        // A word has a letter at least.
        let length = line.at().saturating_sub(self.line.at()).max(1);
        self.line.take(length);
        Some(word)
    }
}
