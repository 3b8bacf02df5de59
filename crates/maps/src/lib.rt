// Places, fields and the header map; what makes a map good; the part that a place says.
#![tactic(auto)]

ghost use Rattle.std.specs.Prelude.{◌≡◌, ◌≤◌, take};
ghost use Rattle.maps.specs.Places.{Parted, Cut, in_block, in_store};
ghost use Rattle.maps.specs.Good.{good_place, good_status, good_field, good_fields, good_rooms, good_counts, good, checked, checked_done, is_reading, is_done};
ghost use Rattle.maps.specs.Heads.{under, head_of};
ghost use Rattle.maps.specs.Maps.{unmade};

use leaves::refusals::Refusal;

// The limit that a header gets where its reader names none.
pub const DEFAULT_LIMIT: usize = 32768;

// The largest limit and the largest store room.
pub const LARGEST: usize = 65536;

// How many fields a map holds.
pub const FIELDS: usize = 256;

// An offset of the block, and one of the store: two types, so that they cannot be mixed.
#[derive(Clone, Copy)]
pub struct BlockOffset(pub u32);

#[derive(Clone, Copy)]
pub struct StoreOffset(pub u32);

// A range of the block or a range of the store.
#[derive(Clone, Copy)]
pub enum Place {
    Block(BlockOffset, BlockOffset),
    Store(StoreOffset, StoreOffset),
}

#[derive(Clone, Copy)]
pub struct Field {
    pub key: Place,
    pub value: Place,
}

#[derive(Clone, Copy)]
pub enum Phase {
    Reading,
    Done,
}

// What a block was read to, or edits made of it: its texts lie in the two loans.
#[derive(Clone, Copy)]
pub struct HeaderMap {
    pub table: [Field; 256],
    pub limit: usize,
    pub room: usize,
    pub count: usize,
    pub line: usize,
    pub mark: usize,
    pub fields: usize,
    pub status: Option<Place>,
    pub awaits: bool,
    pub quirks: bool,
    pub edited: bool,
    pub phase: Phase,
}

impl HeaderMap {
    // The first map of a caller: empty, Done, without rooms. Begin gives it rooms.
    pub fn new() -> HeaderMap
        ensures { result ≡ unmade }
    {
        let none = Field {
            key: Place::Block(BlockOffset(0), BlockOffset(0)),
            value: Place::Block(BlockOffset(0), BlockOffset(0)),
        };
        HeaderMap {
            table: [none; 256],
            limit: 0,
            room: 0,
            count: 0,
            line: 0,
            mark: 0,
            fields: 0,
            status: None,
            awaits: false,
            quirks: false,
            edited: false,
            phase: Phase::Done,
        }
    }

    // The map but for its table.
    pub fn head(self) -> Head
        ensures { result ≡ head_of self }
    {
        Head {
            limit: self.limit,
            room: self.room,
            count: self.count,
            line: self.line,
            mark: self.mark,
            fields: self.fields,
            status: self.status,
            awaits: self.awaits,
            quirks: self.quirks,
            edited: self.edited,
            phase: self.phase,
        }
    }

    // The map of a table under a head.
    pub fn under(table: [Field; 256], h: Head) -> HeaderMap
        ensures { result ≡ under table h }
    {
        HeaderMap {
            table,
            limit: h.limit,
            room: h.room,
            count: h.count,
            line: h.line,
            mark: h.mark,
            fields: h.fields,
            status: h.status,
            awaits: h.awaits,
            quirks: h.quirks,
            edited: h.edited,
            phase: h.phase,
        }
    }
}

// A map but for its table.
#[derive(Clone, Copy)]
pub struct Head {
    pub limit: usize,
    pub room: usize,
    pub count: usize,
    pub line: usize,
    pub mark: usize,
    pub fields: usize,
    pub status: Option<Place>,
    pub awaits: bool,
    pub quirks: bool,
    pub edited: bool,
    pub phase: Phase,
}

// An offset as an index.
pub fn wide(x: u32) -> usize
    ensures { result ≡ x }
{
    x as usize
}

pub fn in_block(from: usize, to: usize) -> Place
    requires { (from ≤ 65536) × (to ≤ 65536) }
    ensures { result ≡ in_block from to }
{
    Place::Block(BlockOffset(from as u32), BlockOffset(to as u32))
}

pub fn in_store(from: usize, to: usize) -> Place
    requires { (from ≤ 65536) × (to ≤ 65536) }
    ensures { result ≡ in_store from to }
{
    Place::Store(StoreOffset(from as u32), StoreOffset(to as u32))
}

// Octets from to before to of a text, as far as it has them.
fn between<'a>(s: &'a [u8], from: usize, to: usize) -> &'a [u8]
    ensures { Cut s.now s.entry.ref_ptr from to result.now result.ref_ptr }
{
    let n = s.len();
    if n < to {
        if n < from {
            return &s[n..n];
        }
        return &s[from..n];
    }
    if to < from {
        return &s[to..to];
    }
    &s[from..to]
}

// The part of the block or of the store that a place says.
pub fn part<'a>(block: &'a [u8], store: &'a [u8], p: Place) -> &'a [u8]
    ensures { Parted block.now store.now block.entry.ref_ptr store.entry.ref_ptr p result.now result.ref_ptr }
{
    match p {
        Place::Block(a, e) => {
            let from = a.0 as usize;
            let to = e.0 as usize;
            between(block, from, to)
        }
        Place::Store(a, e) => {
            let from = a.0 as usize;
            let to = e.0 as usize;
            between(store, from, to)
        }
    }
}

fn good_place(p: Place, count: usize, mark: usize) -> bool
    ensures { result ≡ good_place count mark p }
{
    match p {
        Place::Block(a, e) => {
            let end = wide(e.0);
            wide(a.0) <= end && end <= count
        }
        Place::Store(a, e) => {
            let end = wide(e.0);
            wide(a.0) <= end && end <= mark
        }
    }
}

pub fn good_status(s: Option<Place>, count: usize, mark: usize) -> bool
    ensures { result ≡ good_status count mark s }
{
    match s {
        None => true,
        Some(p) => good_place(p, count, mark),
    }
}

pub fn good_field(f: Field, count: usize, mark: usize) -> bool
    ensures { result ≡ good_field count mark f }
{
    good_place(f.key, count, mark) && good_place(f.value, count, mark)
}

// Whether the first n fields of the table are good.
fn good_fields(t: [Field; 256], n: usize, count: usize, mark: usize) -> bool
    requires { n ≤ 256 }
    ensures { result ≡ good_fields count mark (take n t) }
{
    for f in &t[..n] {
        if !good_field(*f, count, mark) {
            return false;
        }
    }
    true
}

pub fn good_rooms(limit: usize, room: usize) -> bool
    ensures { result ≡ good_rooms limit room }
{
    limit <= LARGEST && limit <= room && room <= LARGEST
}

pub fn good_counts(
    limit: usize,
    room: usize,
    count: usize,
    mark: usize,
    line: usize,
    fields: usize,
) -> bool
    ensures { result ≡ good_counts limit room count mark line fields }
{
    count <= limit && mark <= room && line <= count && fields <= FIELDS
}

// 3 is not given: the map is good. A map without fields is judged without its table, which would be copied.
fn is_good(m: HeaderMap) -> bool
    ensures { result ≡ good m }
{
    if !good_rooms(m.limit, m.room) {
        return false;
    }
    if !good_counts(m.limit, m.room, m.count, m.mark, m.line, m.fields) {
        return false;
    }
    if !good_status(m.status, m.count, m.mark) {
        return false;
    }
    m.fields == 0 || good_fields(m.table, m.fields, m.count, m.mark)
}

// What every call but begin checks first: 3, 2, 7. Ready says whether the map's phase is the one that the call wants.
pub fn check(m: HeaderMap, ready: bool, block: usize, store: usize) -> Result<(), Refusal>
    ensures { result ≡ checked ready m block store }
{
    if !is_good(m) {
        return Err(Refusal::BadMap);
    }
    if block < m.limit {
        return Err(Refusal::ShortLoan);
    }
    if store < m.room {
        return Err(Refusal::ShortLoan);
    }
    if !ready {
        return Err(Refusal::WrongPhase);
    }
    Ok(())
}

pub fn is_reading(p: Phase) -> bool
    ensures { result ≡ is_reading p }
{
    matches!(p, Phase::Reading)
}

pub fn is_done(p: Phase) -> bool
    ensures { result ≡ is_done p }
{
    matches!(p, Phase::Done)
}

// The first checks of a call that wants a map that is Done.
pub fn check_done(m: HeaderMap, block: &[u8], store: &[u8]) -> Result<(), Refusal>
    ensures { result ≡ checked_done m block.now store.now }
{
    check(m, is_done(m.phase), block.len(), store.len())
}
