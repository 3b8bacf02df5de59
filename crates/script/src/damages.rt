// The word `x`: the name of a number of a map or of a walker, and what it is to be. Numbers and flags in decimal, the phase `R` or `D`, a place
// `b.3.7` or `s.0.9`, no status `-`.
use crate::map::{Loan, STORE};
use crate::reading::{Cursor, Nonsense};

// Where a text lies: in a loan, from an offset to before another.
#[derive(Clone, Copy, Debug, PartialEq, Eq)]
pub struct Place {
    pub loan: Loan,
    pub from: u32,
    pub to: u32,
}

// What has a name: numbers of a head and of a trail by their index there, and what has more than one.
#[derive(Clone, Copy, Debug, PartialEq, Eq)]
enum Part {
    Head(usize),
    Phase,
    Status,
    Trail(usize),
    Key,
    Value,
}

// What is overwritten, and what it is to be; of a key and a value the number of the field.
#[derive(Clone, Copy, Debug, PartialEq, Eq)]
pub enum Damage {
    Head(usize, u64),
    Status(Option<Place>),
    Trail(usize, u64),
    Key(usize, Place),
    Value(usize, Place),
}

impl Part {
    fn named(name: &[u8]) -> Option<Part> {
        Some(match name {
            b"limit" => Part::Head(0),
            b"room" => Part::Head(1),
            b"count" => Part::Head(2),
            b"line" => Part::Head(3),
            b"mark" => Part::Head(4),
            b"fields" => Part::Head(5),
            b"status" => Part::Status,
            b"awaits" => Part::Head(9),
            b"quirks" => Part::Head(10),
            b"edited" => Part::Head(11),
            b"phase" => Part::Phase,
            b"position" => Part::Trail(0),
            b"rest" => Part::Trail(1),
            b"key" => Part::Key,
            b"value" => Part::Value,
            _ => return None,
        })
    }
}

fn phase(line: &mut Cursor<'_>) -> Result<u64, Nonsense> {
    line.expect(b' ')?;
    line.one_of(|letter| match letter {
        b'D' => Some(0),
        b'R' => Some(1),
        _ => None,
    })
}

impl Place {
    fn read(line: &mut Cursor<'_>) -> Result<Option<Place>, Nonsense> {
        line.expect(b' ')?;
        if line.expect(b'-').is_ok() {
            return Ok(None);
        }
        let loan = line.one_of(Loan::lettered)?;
        let from = line.number_behind(b'.')?;
        let to = line.number_behind(b'.')?;
        match (u32::try_from(from), u32::try_from(to)) {
            (Ok(from), Ok(to)) => Ok(Some(Place { loan, from, to })),
            _ => Err(line.nonsense()),
        }
    }

    // The place of a key or a value, which each field has.
    fn read_some(line: &mut Cursor<'_>) -> Result<Place, Nonsense> {
        Place::read(line)?.ok_or(line.nonsense())
    }
}

impl Damage {
    pub fn read(line: &mut Cursor<'_>) -> Result<Damage, Nonsense> {
        line.expect(b' ')?;
        let name = line.name();
        Ok(match Part::named(name).ok_or(line.nonsense())? {
            Part::Head(i) => Damage::Head(i, line.number_behind(b' ')? as u64),
            Part::Phase => Damage::Head(12, phase(line)?),
            Part::Status => Damage::Status(Place::read(line)?),
            Part::Trail(i) => Damage::Trail(i, line.number_behind(b' ')? as u64),
            Part::Key => Damage::Key(line.number_behind(b'.')?, Place::read_some(line)?),
            Part::Value => Damage::Value(line.number_behind(b'.')?, Place::read_some(line)?),
        })
    }
}

fn put<T: Drop>(numbers: &mut [T], i: usize, number: T) {
    if let Some(old) = numbers.get_mut(i) {
        *old = number;
    }
}

// The status has three numbers of a head.
fn put_status(head: &mut [u64; 13], status: Option<Place>) {
    let numbers = match status {
        None => [0, 0, 0],
        Some(place) => {
            let kind = match place.loan {
                Loan::Block => 1,
                Loan::Store => 2,
            };
            [kind, u64::from(place.from), u64::from(place.to)]
        }
    };
    head[6..9].copy_from_slice(&numbers);
}

impl Place {
    // How a place begins in a table. An offset that has no room there is one that no loan has.
    fn in_table(self) -> u32 {
        match self.loan {
            _ if self.from >= STORE => u32::MAX,
            Loan::Block => self.from,
            Loan::Store => self.from + STORE,
        }
    }
}

// A place has two numbers of a table, from an index on; past the table nothing is overwritten.
fn put_place(table: &mut [u32; 1024], i: usize, place: Place) {
    put(table, i, place.in_table());
    put(table, i.saturating_add(1), place.to);
}

impl Damage {
    // Overwrites the numbers where they stand.
    pub fn apply(self, head: &mut [u64; 13], table: &mut [u32; 1024], trail: &mut [u64; 4]) {
        match self {
            Damage::Head(i, number) => put(head, i, number),
            Damage::Status(status) => put_status(head, status),
            Damage::Trail(i, number) => put(trail, i, number),
            Damage::Key(field, place) => put_place(table, field.saturating_mul(4), place),
            Damage::Value(field, place) => {
                put_place(table, field.saturating_mul(4).saturating_add(2), place)
            }
        }
    }
}
