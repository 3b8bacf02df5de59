// One line of a reading: what it makes of a map but for its table. Whoever has the table puts the field that the line changes.
#![tactic(auto)]

ghost use Rattle.std.specs.Prelude.{◌≡◌, ◌+◌, ◌-◌, ◌≤◌, ◌<◌, length, take, drop};
ghost use Rattle.leaves.specs.Octets.{before};
ghost use Rattle.maps.specs.Maps.{Is};
ghost use Rattle.line_reader.specs.Lying.{Lying};
ghost use Rattle.line_reader.specs.Handling.{Able, slot_of, handled_of, handled_by, line_ended, next_handled, last_handled};

use folds::Change;
use leaves::refusals::Refusal;
use lines::Took;
use maps::{Field, Head};

// What a piece, or the end of input, did: more is wanted, or a blank line or the end of input closed the reading.
#[derive(Clone, Copy)]
pub enum Answer {
    More,
    Blank,
    Input,
}

// What a line did: the head after it, what it changes in the table, how far the piece is taken, the answer, and whether the reading
// goes on. The answer does not tell that: more is wanted behind a line, where it goes on, and at a piece's end, where it does not.
#[derive(Clone, Copy)]
pub struct Handled {
    pub head: Head,
    pub change: Result<Change, Refusal>,
    pub taken: usize,
    pub answer: Result<Answer, Refusal>,
    pub going: bool,
}

// The number of the last of n fields, 0 if there is none.
pub fn last_of(n: usize) -> usize
    ensures { result ≡ n - 1 }
{
    n.saturating_sub(1)
}

// How many octets of a line stand before its first colon. Where the line lies whole in the piece, at from, it is looked for there: octets
// that were just stored are slow to read back.
pub fn colon_of(piece: &[u8], from: usize, k: usize, line: &[u8], whole: bool) -> usize
    requires { Lying piece.now from k line.now whole }
    ensures { result ≡ before 58 line.now }
{
    if whole {
        lines::before_within(piece, from, k, 58)
    } else {
        lines::find_octet(line, 0, 58)
    }
}

fn handled_of(
    head: Head,
    change: Result<Change, Refusal>,
    taken: usize,
    answer: Result<Answer, Refusal>,
    going: bool,
) -> Handled
    ensures { result ≡ handled_of head change taken answer going }
{
    Handled {
        head,
        change,
        taken,
        answer,
        going,
    }
}

// What a change makes of a head whose line it handles, with the answer if nothing was refused.
fn handled_by(
    h: Head,
    change: Result<Change, Refusal>,
    taken: usize,
    answer: Result<Answer, Refusal>,
    going: bool,
) -> Handled
    requires { slot_of change < 256 }
    ensures { result ≡ handled_by h change taken answer going }
{
    let line = h.count;
    match change {
        Ok(Change::Nothing) => {
            let head = Head { line, ..h };
            handled_of(head, change, taken, answer, going)
        }
        Ok(Change::Status(p)) => {
            let head = Head {
                line,
                status: Some(p),
                awaits: false,
                ..h
            };
            handled_of(head, change, taken, answer, going)
        }
        Ok(Change::Put(slot, x, to)) => {
            let head = Head {
                line,
                mark: to,
                fields: slot + 1,
                ..h
            };
            handled_of(head, change, taken, answer, going)
        }
        Err(e) => handled_of(h, change, taken, Err(e), false),
    }
}

// Handles a line that has ended at the head's count: k octets of the piece, from a place on, are its end, or all of it.
fn close_line(
    h: Head,
    last: Field,
    block: &[u8],
    store: &mut [u8],
    piece: &[u8],
    from: usize,
    k: usize,
    whole: bool,
) -> Handled
    requires { Able h last block.now store.old × Lying piece.now from k (take (h.count - h.line) (drop h.line block.now)) whole }
    ensures { Is (line_ended h last block.now store.old (from + k)) result block.now store.new }
{
    let start = h.line;
    let count = h.count;
    let taken = from + k;
    let line = &block[start..count];
    if folds::ends_block(line, h.quirks) {
        let head = Head { line: count, ..h };
        return handled_of(head, Ok(Change::Nothing), taken, Ok(Answer::Blank), false);
    }
    let c = colon_of(piece, from, k, line, whole);
    let change = folds::line_change(
        c, block, store, start, count, h.awaits, last, h.fields, h.room, h.mark,
    );
    handled_by(h, change, taken, Ok(Answer::More), true)
}

// Takes a line out of a piece from a place on: what it makes of a reading that stands at a head, whose last field is given.
pub fn handle_next(
    h: Head,
    last: Field,
    block: &mut [u8],
    store: &mut [u8],
    piece: &[u8],
    at: usize,
) -> Handled
    requires { Able h last block.old store.old × (at ≤ length piece.now) }
    ensures { Is (next_handled h last block.old store.old piece.now at) result block.new store.new }
{
    let count = h.count;
    match lines::take_line(piece, at, block, count, h.limit, h.line, h.quirks) {
        Took::More(k) => {
            let head = Head {
                count: count + k,
                ..h
            };
            handled_of(head, Ok(Change::Nothing), at + k, Ok(Answer::More), false)
        }
        Took::Full(k) => {
            let head = Head {
                count: count + k,
                ..h
            };
            handled_of(
                head,
                Ok(Change::Nothing),
                at + k,
                Err(Refusal::BlockFull),
                false,
            )
        }
        Took::Line(k) => {
            let head = Head {
                count: count + k,
                ..h
            };
            close_line(head, last, block, store, piece, at, k, h.line == count)
        }
    }
}

// Handles the leftover line of a reading that stands at a head, if there is one.
pub fn handle_last(h: Head, last: Field, block: &[u8], store: &mut [u8]) -> Handled
    requires { Able h last block.now store.old }
    ensures { Is (last_handled h last block.now store.old) result block.now store.new }
{
    let start = h.line;
    let count = h.count;
    if start < count {
        let change = folds::rule_four(
            block, store, start, count, h.awaits, last, h.fields, h.room, h.mark,
        );
        return handled_by(h, change, 0, Ok(Answer::Input), false);
    }
    handled_of(h, Ok(Change::Nothing), 0, Ok(Answer::Input), false)
}
