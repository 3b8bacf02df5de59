// What stands on a line from a place on: characters, numbers, flags, names, octets in hex.
ghost use Rattle.std.specs.Prelude.{◌≡◌, ◌+◌, ◌≤◌, ◌↔◌, IsTrue, length, min};

use crate::octets;
use crate::octets::Octets;
use std::fmt;

// How long a loan may be, and the octets of an argument.
pub const LOAN: usize = 70000;

// The letters of the longest name.
const NAME: usize = 8;

// A line makes no sense at a column, the first being 1.
#[derive(Clone, Copy, Debug, PartialEq, Eq)]
pub struct Nonsense {
    column: usize,
}

impl fmt::Display for Nonsense {
    fn fmt<W: fmt::Write>(&self, f: &mut fmt::Formatter<W>) -> fmt::Result {
        write!(f, "?{}", self.column)
    }
}

// A place on a line.
#[derive(Clone, Copy, Debug)]
pub struct Cursor<'a> {
    line: &'a [u8],
    at: usize,
    ghost inside: { at ≤ length line.now },
}

impl<'a> Cursor<'a> {
    pub fn new(line: &'a [u8]) -> Self {
        Cursor { line, at: 0 }
    }

    // How far from the start of the line this is.
    pub fn at(&self) -> usize {
        self.at
    }

    pub fn is_at_end(&self) -> bool
        ensures { IsTrue result ↔ (self.now.at ≡ length self.now.line.now) }
    {
        self.at == self.line.len()
    }

    // Whether a word ends here.
    pub fn is_behind_word(&self) -> bool {
        self.rest().first().is_none_or(|x| *x == b' ')
    }

    // That the line makes no sense here.
    pub fn nonsense(&self) -> Nonsense {
        Nonsense {
            column: self.at + 1,
        }
    }

    pub fn rest(&self) -> &'a [u8]
        ensures { self.now.at + length result.now ≡ length self.now.line.now }
    {
        &self.line[self.at..]
    }

    // Moves on by so many characters, or to the end of the line, and answers them.
    pub fn take(&mut self, n: usize) -> &'a [u8]
        ensures moved { self.new.at ≡ min (self.old.at + n) (length self.old.line.now) }
        ensures same { self.new.line.now ≡ self.old.line.now }
    {
        let rest = self.rest();
        let n = n.min(rest.len());
        self.at += n;
        &rest[..n]
    }

    // Takes a character that has to stand here.
    pub fn expect(&mut self, character: u8) -> Result<(), Nonsense> {
        if self.rest().first() != Some(&character) {
            return Err(self.nonsense());
        }
        self.take(1);
        Ok(())
    }

    // The letters and what else stands before a space.
    pub fn word(&mut self) -> &'a [u8] {
        let n = self.rest().iter().take_while(|x| **x != b' ').count();
        self.take(n)
    }

    // The letters that stand here, as many as a name can have.
    pub fn name(&mut self) -> &'a [u8] {
        let letters = self.rest().iter().take_while(|x| x.is_ascii_alphabetic());
        let n = letters.count().min(NAME);
        self.take(n)
    }

    // Digit by digit: `parse` would not tell in which column the number grows too large.
    fn number(&mut self) -> Result<usize, Nonsense> {
        let rest = self.rest();
        if !rest.first().is_some_and(u8::is_ascii_digit) {
            return Err(self.nonsense());
        }
        let mut number = 0usize;
        for digit in rest.iter().map_while(|x| char::from(*x).to_digit(10)) {
            let longer = number
                .checked_mul(10)
                .and_then(|tenfold| tenfold.checked_add(digit as usize));
            number = longer.ok_or(self.nonsense())?;
            self.take(1);
        }
        Ok(number)
    }

    // A decimal number behind a character that has to stand here.
    pub fn number_behind(&mut self, character: u8) -> Result<usize, Nonsense> {
        self.expect(character)?;
        self.number()
    }

    // Takes a character that has a meaning.
    pub fn one_of<T, F: FnOnce(u8) -> Option<T>>(&mut self, meaning: F) -> Result<T, Nonsense>
        requires { F.IsAlwaysCallable meaning }
    {
        let character = self.rest().first().copied();
        let meant = character.and_then(meaning).ok_or(self.nonsense())?;
        self.take(1);
        Ok(meant)
    }

    pub fn flag(&mut self) -> Result<bool, Nonsense> {
        self.one_of(|character| match character {
            b'0' => Some(false),
            b'1' => Some(true),
            _ => None,
        })
    }

    // Octets in hex, or `-` for none.
    pub fn octets(&mut self) -> Result<Octets<'a>, Nonsense> {
        if self.expect(b'-').is_ok() {
            return Ok(Octets(&[]));
        }
        let digits = self.rest().iter().take_while(|x| octets::is_hex_digit(**x));
        let n = digits.count().min(2 * LOAN);
        let digits = self.take(n);
        if digits.is_empty() || digits.len() % 2 == 1 {
            return Err(self.nonsense());
        }
        Ok(Octets(digits))
    }
}
