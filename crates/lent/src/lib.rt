// A map in lent numbers: thirteen for its head, four to a field for its table, so that no call copies the table.
#![tactic(auto)]

pub mod heads;
pub mod tables;

ghost use Rattle.std.specs.Prelude.{◌≡◌, true, ◌≤◌, min, length, replicate};
ghost use Rattle.leaves.specs.Paste.{lay};
ghost use Rattle.maps.specs.Places.{no_field};
ghost use Rattle.maps.specs.Good.{good, checked, checked_done};
ghost use Rattle.lent.specs.Table.{fields_from, map_in, live_in};
ghost use Rattle.lent.specs.Numbers.{head_of, sound_map, long_map};

use leaves::refusals::Refusal;
use maps::{BlockOffset, Field, Head, HeaderMap, Place};

// How many numbers a table is.
pub const TABLE: usize = 1024;

// 3 is not given: the map is good.
#[tactic(auto, unfolding(maps::specs::Good::good))]
fn is_good(h: Head, t: &[u32]) -> bool
    requires { length t.now ≡ 1024 }
    ensures { result ≡ good (map_in t.now h) }
{
    if !maps::good_rooms(h.limit, h.room) {
        return false;
    }
    if !maps::good_counts(h.limit, h.room, h.count, h.mark, h.line, h.fields) {
        return false;
    }
    if !maps::good_status(h.status, h.count, h.mark) {
        return false;
    }
    tables::good_fields(t, h.fields, h.count, h.mark)
}

// What every call but begin checks first: 3, 2, 7. Ready says whether the map's phase is the one that the call wants.
pub fn check(h: Head, t: &[u32], ready: bool, block: usize, store: usize) -> Result<(), Refusal>
    requires { length t.now ≡ 1024 }
    ensures { result ≡ checked ready (map_in t.now h) block store }
{
    if !is_good(h, t) {
        return Err(Refusal::BadMap);
    }
    if block < h.limit {
        return Err(Refusal::ShortLoan);
    }
    if store < h.room {
        return Err(Refusal::ShortLoan);
    }
    if ready {
        Ok(())
    } else {
        Err(Refusal::WrongPhase)
    }
}

// How many fields a map holds of n.
fn few(n: usize) -> usize
    ensures { result ≡ min n 256 }
{
    n.min(maps::FIELDS)
}

// A table by value: the first n fields, and behind them what was never used.
fn live_table(t: &[u32], n: usize) -> [Field; 256]
    requires { (n ≤ 256) × (length t.now ≡ 1024) }
    ensures { result ≡ lay (replicate 256 no_field) (fields_from t.now 0 n) }
{
    let none = Field {
        key: Place::Block(BlockOffset(0), BlockOffset(0)),
        value: Place::Block(BlockOffset(0), BlockOffset(0)),
    };
    let mut table = [none; 256];
    for i in 0..n {
        table[i] = tables::field_at(t, i);
    }
    table
}

// The first checks of a call that wants a map that is Done.
pub fn check_done(h: Head, t: &[u32], block: &[u8], store: &[u8]) -> Result<(), Refusal>
    requires { length t.now ≡ 1024 }
    ensures { result ≡ checked_done (map_in t.now h) block.now store.now }
{
    check(h, t, maps::is_done(h.phase), block.len(), store.len())
}

// The map by value, with the fields that count alone.
pub fn live_map(h: Head, t: &[u32]) -> HeaderMap
    requires { length t.now ≡ 1024 }
    ensures { result ≡ live_in t.now h }
{
    HeaderMap::under(live_table(t, few(h.fields)), h)
}

// Whether numbers are a map's.
#[tactic(auto, unfolding(crate::specs::Numbers::sound_map))]
pub fn is_sound(n: &[u64], t: &[u32]) -> bool
    ensures { result ≡ sound_map n.now t.now }
{
    heads::is_sound(n) && t.len() == TABLE
}

// Whether numbers are as many as a map's.
#[tactic(auto, unfolding(crate::specs::Numbers::long_map))]
pub fn is_long(n: &[u64], t: &[u32]) -> bool
    ensures { result ≡ long_map n.now t.now }
{
    n.len() == heads::HEAD && t.len() == TABLE
}

// The map that numbers are, by value, with the fields that count alone.
pub fn live_at(n: &[u64], t: &[u32]) -> HeaderMap
    requires { sound_map n.now t.now ≡ true }
    ensures { result ≡ live_in t.now (head_of n.now) }
{
    live_map(heads::head_at(n), t)
}
