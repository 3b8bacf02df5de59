// What octets say: a number, and what a text begins with.
ghost use Rattle.std.specs.Prelude.{◌<◌, length, IfSome};
ghost use Rattle.std.specs.Iterator.{at_most};

// The numbers that a start may be are below this one.
const NO_START: u64 = 1000000000000000000;

// A number of up to 18 digits.
pub fn decimal(s: &[u8]) -> Option<u64> {
    if !s.iter().all(|x| x.is_ascii_digit()) {
        return None;
    }
    let text = std::str::from_utf8(s).ok()?;
    let n = text.parse::<u64>().ok()?;
    (n < NO_START).then_some(n)
}

// Whether the first line of a text ends in LF alone.
pub fn is_lf_alone(s: &[u8]) -> bool {
    let mut lines = s.split(|x| *x == b'\n');
    match (lines.next(), lines.next()) {
        (Some([.., last]), Some(_)) => *last != b'\r',
        _ => false,
    }
}

// Whether a text begins as gzip's and zstd's files do.
pub fn is_packed(s: &[u8]) -> bool {
    s.starts_with(b"\x1f\x8b") || s.starts_with(b"\x28\xb5\x2f\xfd")
}

// What a text begins with, of what a record's header might.
#[derive(Clone, Copy, PartialEq, Eq)]
pub enum Opening {
    Packed,
    Version,
    VersionInLf,
    LineEnd,
    Other,
}

impl Opening {
    pub fn of(s: &[u8]) -> Opening {
        match s {
            _ if is_packed(s) => Opening::Packed,
            [b'W', b'A', b'R', b'C', b'/', ..] if is_lf_alone(s) => Opening::VersionInLf,
            [b'W', b'A', b'R', b'C', b'/', ..] => Opening::Version,
            [b'\r' | b'\n', ..] => Opening::LineEnd,
            _ => Opening::Other,
        }
    }
}

// The lines of a header block, each with its end: CR LF, with quirks LF alone.
#[derive(Drop)]
pub struct Lines<'a> {
    rest: &'a [u8],
    quirks: bool,
}

impl<'a> Lines<'a> {
    // Without the blank line at the end of the block.
    pub fn new(block: &'a [u8], quirks: bool) -> Lines<'a> {
        let rest = match block {
            [rest @ .., _] => rest,
            [] => block,
        };
        Lines { rest, quirks }
    }
}

impl<'a> Iterator for Lines<'a> {
    type Item = &'a [u8];

    ghost remaining = { λ s. at_most (length s.rest.now) };

    fn next(&mut self) -> Option<&'a [u8]> {
        let end = line_end(self.rest, self.quirks)?;
        let (line, rest) = self.rest.split_at_checked(end)?;
        self.rest = rest;
        Some(line)
    }
}

// Where the first line ends.
fn line_end(s: &[u8], quirks: bool) -> Option<usize>
    ensures { IfSome result (λ end. 0 < end) }
{
    if quirks {
        return s.iter().position(|x| *x == b'\n')?.checked_add(1);
    }
    s.windows(2)
        .position(|w| matches!(w, b"\r\n"))?
        .checked_add(2)
}
