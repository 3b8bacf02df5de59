// Lines and folds: what a line does to a map, by rules 3 and 4.
#![tactic(auto)]

ghost use Rattle.std.specs.Prelude.{◌≡◌, not, ◌&&◌, ◌∷◌, ◌++◌, ◌+◌, ◌-◌, ◌≤◌, ◌<◌, ltb, length, take, drop};
ghost use Rattle.lines.specs.Line.{tight};
ghost use Rattle.leaves.specs.Octets.{before};
ghost use Rattle.leaves.specs.Paste.{pasted};
ghost use Rattle.maps.specs.Places.{part};
ghost use Rattle.folds.specs.Rule.{ends_block, continues, split, plain, grown, folded, rule4, trimmed_at, put_field};
ghost use Rattle.folds.specs.Asks.{Changes, FoldReady, Roomy, Folding, put_tight};

use leaves::refusals::Refusal;
use leaves::trims;
use maps::{Field, Place};

// What a line does: nothing, the status, or a field in a slot with the mark after it.
#[derive(Clone, Copy)]
pub enum Change {
    Nothing,
    Status(Place),
    Put(usize, Field, usize),
}

// Whether a line ends the block.
pub fn ends_block(line: &[u8], quirks: bool) -> bool
    ensures { result ≡ ends_block quirks line.now }
{
    if quirks {
        trims::trim_bounds(line).end == 0
    } else {
        line == b"\r\n".as_slice()
    }
}

// The place of the blank-free part of a line that stands in the block at start.
fn trimmed_place(line: &[u8], start: usize) -> Place
    requires { start + length line.now ≤ 65536 }
    ensures { result ≡ trimmed_at start line.now }
{
    let at = trims::trim_bounds(line);
    maps::in_block(start + at.start, start + at.end)
}

// Whether a line continues the last value.
fn is_fold(line: &[u8]) -> bool
    ensures { result ≡ continues line.now }
{
    matches!(line.first(), Some(32 | 9))
}

// How many octets stand before the first colon.
fn colon(line: &[u8]) -> usize
    ensures { result ≡ before 58 line.now }
{
    lines::find_octet(line, 0, 58)
}

// A line that is no continuation: a field, or nothing.
fn name_line(line: &[u8], start: usize, fields: usize, mark: usize) -> Result<Change, Refusal>
    requires { start + length line.now ≤ 65536 }
    ensures { split start line.now fields mark ≡ plain result }
{
    let c = colon(line);
    if c >= line.len() {
        return Ok(Change::Nothing);
    }
    if fields >= 256 {
        return Err(Refusal::FieldsFull);
    }
    let after = c + 1;
    let key = trimmed_place(&line[..c], start);
    let value = trimmed_place(&line[after..], start + after);
    Ok(Change::Put(fields, Field { key, value }, mark))
}

// Writes a text into the store at a place.
fn copy_at(store: &mut [u8], at: usize, text: &[u8])
    requires { at + length text.now ≤ length store.old }
    ensures { store.new ≡ pasted store.old at text.now }
{
    lines::copy_in(&mut store[at..], text);
}

// Copies a part of the store to a place behind it.
fn copy_within(store: &mut [u8], from: usize, end: usize, to: usize)
    requires { (from ≤ «end») × («end» ≤ to) × (to + («end» - from) ≤ length store.old) }
    ensures { store.new ≡ pasted store.old to (take («end» - from) (drop from store.old)) }
{
    store.copy_within(from..end, to);
}

// Writes a space and a text into the store at a place.
fn put_tail(store: &mut [u8], at: usize, text: &[u8])
    requires { at + (1 + length text.now) ≤ length store.old }
    ensures { store.new ≡ pasted store.old at (32 ∷ text.now) }
{
    store[at] = 32;
    copy_at(store, at + 1, text);
}

fn put_field(slot: usize, key: Place, from: usize, to: usize) -> Result<Change, Refusal>
    requires { (from ≤ 65536) × (to ≤ 65536) }
    ensures { result ≡ put_field slot key from to }
{
    let value = maps::in_store(from, to);
    Ok(Change::Put(slot, Field { key, value }, to))
}

// The text as a new value at the mark. Here and below, a slot, its key, the room and the mark stand one by one and in no struct, since
// `grown`, `folded` and `rule4` take them so, and the calls that other crates make, rule_four and line_change.
fn grow_new(
    store: &mut [u8],
    room: usize,
    slot: usize,
    key: Place,
    mark: usize,
    text: &[u8],
) -> Result<Change, Refusal>
    requires { Roomy store.old room mark }
    ensures { Changes (grown room slot key mark mark text.now) store.old mark store.new result }
{
    let k = text.len();
    if room - mark < k {
        return Err(Refusal::StoreFull);
    }
    copy_at(store, mark, text);
    put_field(slot, key, mark, mark + k)
}

// The value that ends at the mark, with a space and the text.
fn grow_here(
    store: &mut [u8],
    room: usize,
    slot: usize,
    key: Place,
    from: usize,
    mark: usize,
    text: &[u8],
) -> Result<Change, Refusal>
    requires { Roomy store.old room mark × (from ≤ mark) × (length text.now ≤ 65536) }
    ensures { Changes (grown room slot key from mark (32 ∷ text.now)) store.old mark store.new result }
{
    let k = 1 + text.len();
    if room - mark < k {
        return Err(Refusal::StoreFull);
    }
    put_tail(store, mark, text);
    put_field(slot, key, from, mark + k)
}

// A value of the block, copied to the mark, with a space and the text.
fn grow_copy(
    store: &mut [u8],
    room: usize,
    slot: usize,
    key: Place,
    mark: usize,
    old: &[u8],
    text: &[u8],
) -> Result<Change, Refusal>
    requires { Roomy store.old room mark × (length old.now ≤ 65536) × (length text.now ≤ 65536) }
    ensures { Changes (grown room slot key mark mark (old.now ++ (32 ∷ text.now))) store.old mark store.new result }
{
    let n = old.len();
    let k = n + (1 + text.len());
    if room - mark < k {
        return Err(Refusal::StoreFull);
    }
    copy_at(store, mark, old);
    put_tail(store, mark + n, text);
    put_field(slot, key, mark, mark + k)
}

// A value of the store that ends before the mark, copied to the mark, with a space and the text.
fn grow_again(
    store: &mut [u8],
    room: usize,
    slot: usize,
    key: Place,
    from: usize,
    end: usize,
    mark: usize,
    text: &[u8],
) -> Result<Change, Refusal>
    requires { Roomy store.old room mark × (from ≤ «end») × («end» ≤ mark) × (length text.now ≤ 65536) }
    ensures { Changes (grown room slot key mark mark (part from «end» (take mark store.old) ++ (32 ∷ text.now))) store.old mark store.new result }
{
    let n = end - from;
    let k = n + (1 + text.len());
    if room - mark < k {
        return Err(Refusal::StoreFull);
    }
    copy_within(store, from, end, mark);
    put_tail(store, mark + n, text);
    put_field(slot, key, mark, mark + k)
}

// A continuation line with its blank-free text.
fn fold_line(
    block: &[u8],
    store: &mut [u8],
    text: &[u8],
    last: Field,
    fields: usize,
    room: usize,
    mark: usize,
) -> Result<Change, Refusal>
    requires { Folding block.now store.old text.now last fields room mark }
    ensures { Changes (folded room block.now fields last mark (take mark store.old) text.now) store.old mark store.new result }
{
    if fields == 0 {
        let none = maps::in_store(mark, mark);
        return grow_new(store, room, 0, none, mark, text);
    }
    let slot = fields - 1;
    let key = last.key;
    match last.value {
        Place::Block(a, e) => {
            let from = maps::wide(a.0);
            let end = maps::wide(e.0);
            grow_copy(store, room, slot, key, mark, &block[from..end], text)
        }
        Place::Store(a, e) => {
            let from = maps::wide(a.0);
            let end = maps::wide(e.0);
            if end == mark {
                grow_here(store, room, slot, key, from, mark, text)
            } else {
                grow_again(store, room, slot, key, from, end, mark, text)
            }
        }
    }
}

// What the line from start to count does, by rule 4. The last field stands in last, if there is one.
pub fn rule_four(
    block: &[u8],
    store: &mut [u8],
    start: usize,
    count: usize,
    awaits: bool,
    last: Field,
    fields: usize,
    room: usize,
    mark: usize,
) -> Result<Change, Refusal>
    requires { FoldReady block.now store.old start count last fields room mark }
    ensures { Changes (rule4 room (take count block.now) start awaits fields last mark (take mark store.old)) store.old mark store.new result }
{
    let whole = &block[..count];
    let line = &whole[start..];
    if awaits {
        return Ok(Change::Status(trimmed_place(line, start)));
    }
    if is_fold(line) {
        let text = trims::trim(line);
        return fold_line(whole, store, text, last, fields, room, mark);
    }
    name_line(line, start, fields, mark)
}

// Whether a line is a field that tells its places at a glance: no status is awaited, there is a slot, and the line is tight around
// its colon at c.
fn is_tight_field(line: &[u8], c: usize, awaits: bool, fields: usize) -> bool
    ensures { result ≡ (not awaits && (ltb fields 256 && tight c line.now)) }
{
    !awaits && fields < 256 && lines::is_tight(line, c)
}

// The field of a tight line of n octets that stands in the block at start, with its colon at c.
fn tight_field(
    start: usize,
    c: usize,
    n: usize,
    fields: usize,
    mark: usize,
) -> Result<Change, Refusal>
    requires { (c + 5 ≤ n) × (start + n ≤ 65536) }
    ensures { result ≡ put_tight start c n fields mark }
{
    let key = maps::in_block(start, start + c);
    let value = maps::in_block(start + (c + 2), start + (n - 2));
    Ok(Change::Put(fields, Field { key, value }, mark))
}

// What rule_four does, told where the line's first colon is: nearly every line is tight and needs no search for its blanks.
pub fn line_change(
    c: usize,
    block: &[u8],
    store: &mut [u8],
    start: usize,
    count: usize,
    awaits: bool,
    last: Field,
    fields: usize,
    room: usize,
    mark: usize,
) -> Result<Change, Refusal>
    requires { FoldReady block.now store.old start count last fields room mark × (c ≡ before 58 (drop start (take count block.now))) }
    ensures { Changes (rule4 room (take count block.now) start awaits fields last mark (take mark store.old)) store.old mark store.new result }
{
    let whole = &block[..count];
    let line = &whole[start..];
    if is_tight_field(line, c, awaits, fields) {
        return tight_field(start, c, line.len(), fields, mark);
    }
    rule_four(block, store, start, count, awaits, last, fields, room, mark)
}
