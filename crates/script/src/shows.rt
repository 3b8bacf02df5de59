// How a map and its loans are printed.
use crate::map::{FRESH, Loan, Map, STORE};
use crate::octets::Hex;
use std::fmt;
use std::fmt::Display;

// A text: where it lies, and its octets.
#[derive(Clone, Copy, Debug)]
struct Text<'a> {
    loan: Loan,
    from: u64,
    to: u64,
    octets: Hex<'a>,
}

impl fmt::Display for Text<'_> {
    // Part by part: a map has many short texts, and by `write!` the word that shows it took half as long again.
    fn fmt<W: fmt::Write>(&self, f: &mut fmt::Formatter<W>) -> fmt::Result {
        f.write_str(match self.loan {
            Loan::Block => "b",
            Loan::Store => "s",
        })?;
        self.from.fmt(f)?;
        f.write_str(".")?;
        self.to.fmt(f)?;
        f.write_str("=")?;
        self.octets.fmt(f)
    }
}

impl Map {
    fn text(&self, loan: Loan, from: u64, to: u64) -> Text<'_> {
        Text {
            loan,
            from,
            to,
            octets: Hex(self.part(loan, from, to)),
        }
    }

    // The text that two numbers of a table say.
    fn text_at(&self, from: u32, to: u32) -> Text<'_> {
        match from.checked_sub(STORE) {
            None => self.text(Loan::Block, u64::from(from), u64::from(to)),
            Some(from) => self.text(Loan::Store, u64::from(from), u64::from(to)),
        }
    }

    fn status_text(&self) -> Option<Text<'_>> {
        let [_, _, _, _, _, _, kind, from, to, _, _, _, _] = self.head;
        match kind {
            0 => None,
            1 => Some(self.text(Loan::Block, from, to)),
            _ => Some(self.text(Loan::Store, from, to)),
        }
    }
}

// Phase, edited, count, line, mark, status, and the texts of the fields: before the first `,`, before a value `:`, before another key `;`.
impl fmt::Display for Map {
    fn fmt<W: fmt::Write>(&self, f: &mut fmt::Formatter<W>) -> fmt::Result {
        let phase = if self.head[12] == 1 { 'R' } else { 'D' };
        let [_, _, count, line, mark, fields, _, _, _, _, _, edited, _] = self.head;
        write!(f, "{phase},{edited},{count},{line},{mark},")?;
        match self.status_text() {
            None => f.write_str("-")?,
            Some(text) => text.fmt(f)?,
        }
        if fields == 0 {
            return f.write_str(",-");
        }
        for (i, field) in self.table.chunks_exact(4).take(fields as usize).enumerate() {
            if let [key_from, key_to, value_from, value_to] = field {
                f.write_str(if i == 0 { "," } else { ";" })?;
                self.text_at(*key_from, *key_to).fmt(f)?;
                f.write_str(":")?;
                self.text_at(*value_from, *value_to).fmt(f)?;
            }
        }
        Ok(())
    }
}

// The octets of the loans up to limit and room, and whether any past them changed.
#[derive(Clone, Copy)]
pub struct Loans<'a> {
    pub map: &'a Map,
    pub limit: usize,
    pub room: usize,
}

// A loan up to an octet, and what lies behind.
fn split(loan: &[u8], at: usize) -> (&[u8], &[u8]) {
    loan.split_at(at.min(loan.len()))
}

fn is_touched(octets: &[u8]) -> bool {
    octets.iter().any(|x| *x != FRESH)
}

impl fmt::Display for Loans<'_> {
    fn fmt<W: fmt::Write>(&self, f: &mut fmt::Formatter<W>) -> fmt::Result {
        let (block, behind_block) = split(&self.map.block, self.limit);
        let (store, behind_store) = split(&self.map.store, self.room);
        let touched = is_touched(behind_block) || is_touched(behind_store);
        write!(f, "{},{},{}", Hex(block), Hex(store), u8::from(touched))
    }
}
