// A header block and the map of it, as the calls of `abi` are lent them: in arrays and numbers, as C sees them.
use crate::answers::{Read, Test, Verdict};
use crate::out::Text;
use leaves::names;
use leaves::refusals::Refusal;
use std::fmt;

// The limit of a block, and the room of its store.
pub const LIMIT: usize = 32768;

// The number of a map that counts its fields, and those that say where its status lies: none, in the block or in the store, and from where to where.
const FIELDS: usize = 5;

const STATUS: usize = 6;

const STATUS_FROM: usize = 7;

const STATUS_TO: usize = 8;

// From here on an offset in a map's table is one of the store.
const STORE: u32 = 2147483648;

#[derive(Clone, Copy)]
enum Loan {
    Block,
    Store,
}

// Where a text lies.
#[derive(Clone, Copy)]
struct Place {
    loan: Loan,
    from: usize,
    to: usize,
}

impl Place {
    // Of two offsets in a map's table.
    fn new(from: u32, to: u32) -> Place {
        Place {
            loan: if from < STORE {
                Loan::Block
            } else {
                Loan::Store
            },
            from: offset(from),
            to: offset(to),
        }
    }
}

fn offset(n: u32) -> usize {
    if n < STORE {
        return n as usize;
    }
    (n - STORE) as usize
}

impl fmt::Display for Place {
    fn fmt<W: fmt::Write>(&self, f: &mut fmt::Formatter<W>) -> fmt::Result {
        let loan = match self.loan {
            Loan::Block => "block",
            Loan::Store => "store",
        };
        write!(f, "{loan} {}..{}", self.from, self.to)
    }
}

// Where a field's texts lie.
#[derive(Clone, Copy)]
struct Field {
    key: Place,
    value: Place,
}

impl From<[u32; 4]> for Field {
    fn from(row: [u32; 4]) -> Field {
        let [a, b, c, d] = row;
        Field {
            key: Place::new(a, b),
            value: Place::new(c, d),
        }
    }
}

#[derive(Drop)]
pub struct Header {
    pub head: [u64; 13],
    pub table: [u32; 1024],
    pub block: [u8; LIMIT],
    pub store: [u8; LIMIT],
}

impl Header {
    pub fn new() -> Header {
        Header {
            head: [0; 13],
            table: [0; 1024],
            block: [0; LIMIT],
            store: [0; LIMIT],
        }
    }

    pub fn begin(&mut self, status: bool, quirks: bool) {
        abi::reading::bisquecrow_begin(
            &mut self.head,
            &self.table,
            LIMIT,
            LIMIT,
            status,
            quirks,
            &self.block,
            &self.store,
        );
    }

    // Reads on, and answers how many octets were taken.
    pub fn feed(&mut self, piece: &[u8]) -> (Result<Read, Refusal>, u64) {
        let mut taken = 0;
        let answer = abi::reading::bisquecrow_feed(
            &mut self.head,
            &mut self.table,
            &mut self.block,
            &mut self.store,
            piece,
            &mut taken,
        );
        (Read::of(answer), taken)
    }

    pub fn finish(&mut self) -> Result<Read, Refusal> {
        Read::of(abi::reading::bisquecrow_finish(
            &mut self.head,
            &mut self.table,
            &self.block,
            &mut self.store,
        ))
    }

    // Whether it can be written and read back.
    pub fn clean(&self) -> Test {
        Test::from(abi::telling::bisquecrow_clean(
            &self.head,
            &self.table,
            &self.block,
            &self.store,
        ))
    }

    // Whether the body behind another header may be appended to that behind this one.
    pub fn resumes(&self, other: &Header) -> Verdict {
        Verdict::from(abi::telling::bisquecrow_resume(
            &self.head,
            &self.table,
            &self.block,
            &self.store,
            &other.head,
            &other.table,
            &other.block,
            &other.store,
        ))
    }

    // Writes the rebuilt block on a sheet, and answers it.
    pub fn rebuild<'s>(&self, sheet: &'s mut [u8]) -> &'s [u8] {
        let mut count = 0;
        abi::writing::bisquecrow_rebuild(
            &self.head,
            &self.table,
            &self.block,
            &self.store,
            sheet,
            &mut count,
        );
        sheet.get(..count as usize).unwrap_or_default()
    }

    // The block's first octets, or all.
    pub fn front(&self, n: u64) -> &[u8] {
        self.block.get(..n as usize).unwrap_or(&self.block)
    }

    fn text(&self, place: Place) -> &[u8] {
        let loan = match place.loan {
            Loan::Block => self.block.as_slice(),
            Loan::Store => self.store.as_slice(),
        };
        loan.get(place.from..place.to).unwrap_or_default()
    }

    // Where the status lies, if there is one.
    fn status(&self) -> Option<Place> {
        let loan = match self.head[STATUS] {
            0 => return None,
            2 => Loan::Store,
            _ => Loan::Block,
        };
        Some(Place {
            loan,
            from: self.head[STATUS_FROM] as usize,
            to: self.head[STATUS_TO] as usize,
        })
    }

    // The rows of the table that stand for fields.
    fn rows(&self) -> &[[u32; 4]] {
        let (rows, _) = self.table.as_chunks();
        rows.get(..self.head[FIELDS] as usize).unwrap_or(rows)
    }

    // The value of the first field of a name.
    pub fn value(&self, name: &[u8]) -> Option<&[u8]> {
        for row in self.rows() {
            let field = Field::from(*row);
            if names::same_name(self.text(field.key), name) {
                return Some(self.text(field.value));
            }
        }
        None
    }
}

// The status and the fields, with their places, each on a line.
impl fmt::Display for Header {
    fn fmt<W: fmt::Write>(&self, f: &mut fmt::Formatter<W>) -> fmt::Result {
        match self.status() {
            Some(place) => writeln!(f, "status: {place}: {}", Text(self.text(place)))?,
            None => f.write_str("status: none\n")?,
        }
        for (i, row) in self.rows().iter().enumerate() {
            let Field { key, value } = Field::from(*row);
            let name = Text(self.text(key));
            let words = Text(self.text(value));
            writeln!(f, "field {i}: key {key}, value {value}: {name}: {words}")?;
        }
        Ok(())
    }
}
