// The table's numbers: two to a place, four to a field.
ghost use Rattle.std.specs.Prelude.{◌≡◌, ◌+◌, ◌-◌, ◌<◌, ◌≤◌, length};
ghost use Rattle.maps.specs.Good.{Fits, Fit, good_place, good_field, good_fields};
ghost use Rattle.lookups.specs.Lookups.{named, seeking};
ghost use Rattle.lent.specs.Table.{place_of, good_stored, place_at, field_at, fields_from, from_of, to_of, place_put, field_put};

use leaves::names;
use maps::{BlockOffset, Field, Place, StoreOffset};

// Offsets of the store stand behind this number, those of the block before it.
const STORE: u32 = 2147483648;

fn place_of(from: u32, to: u32) -> Place
    ensures { result ≡ place_of from to }
{
    if from < STORE {
        return Place::Block(BlockOffset(from), BlockOffset(to));
    }
    Place::Store(StoreOffset(from - STORE), StoreOffset(to))
}

fn place_at(t: &[u32], at: usize) -> Place
    requires { at + 1 < length t.now }
    ensures { result ≡ place_at t.now at }
{
    place_of(t[at], t[at + 1])
}

// The field i.
pub fn field_at(t: &[u32], i: usize) -> Field
    requires { (i < 256) × (length t.now ≡ 1024) }
    ensures { result ≡ field_at t.now i }
{
    Field {
        key: place_at(t, i * 4),
        value: place_at(t, i * 4 + 2),
    }
}

fn from_of(p: Place) -> u32
    requires { Fits 65536 65536 p }
    ensures { result ≡ from_of p }
{
    match p {
        Place::Block(a, _) => a.0,
        Place::Store(a, _) => STORE + a.0,
    }
}

fn to_of(p: Place) -> u32
    ensures { result ≡ to_of p }
{
    match p {
        Place::Block(_, e) => e.0,
        Place::Store(_, e) => e.0,
    }
}

fn put_place(t: &mut [u32], at: usize, p: Place)
    requires { (at + 1 < length t.old) × Fits 65536 65536 p }
    ensures { t.new ≡ place_put t.old at p }
{
    t[at] = from_of(p);
    t[at + 1] = to_of(p);
}

// Makes a field the field i.
pub fn put_field(t: &mut [u32], i: usize, f: Field)
    requires { (i < 256) × (length t.old ≡ 1024) × Fit 65536 65536 f }
    ensures { t.new ≡ field_put t.old i f }
{
    put_place(t, i * 4, f.key);
    put_place(t, i * 4 + 2, f.value);
}

// Whether two numbers are a good place of the store.
fn good_stored(from: u32, to: u32, mark: usize) -> bool
    ensures { result ≡ good_stored mark from to }
{
    from >= STORE && from - STORE <= to && (to as usize) <= mark
}

// Whether the place of two numbers is good. Most places are the block's: two comparisons of the numbers as they stand tell a good one.
// Each is left by itself: where they are joined, or what follows is written once, the compiler makes a value of each, and judging a map takes half as long again.
#[tactic(auto, using(crate::proofs::LentLaws::place_plain, crate::proofs::LentLaws::place_over, crate::proofs::LentLaws::place_turned))]
fn good_place(from: u32, to: u32, count: usize, mark: usize) -> bool
    requires { count ≤ 65536 }
    ensures { result ≡ good_place count mark (place_of from to) }
{
    if from > to {
        return good_stored(from, to, mark);
    }
    if (to as usize) <= count {
        return true;
    }
    good_stored(from, to, mark)
}

fn good_field(t: &[u32], i: usize, count: usize, mark: usize) -> bool
    requires { (i < 256) × (length t.now ≡ 1024) × (count ≤ 65536) }
    ensures { result ≡ good_field count mark (field_at t.now i) }
{
    let key = i * 4;
    let value = key + 2;
    good_place(t[key], t[key + 1], count, mark) && good_place(t[value], t[value + 1], count, mark)
}

// Whether the first n fields are good.
pub fn good_fields(t: &[u32], n: usize, count: usize, mark: usize) -> bool
    requires { (n ≤ 256) × (length t.now ≡ 1024) × (count ≤ 65536) }
    ensures { result ≡ good_fields count mark (fields_from t.now 0 n) }
{
    for i in 0..n {
        if !good_field(t, i, count, mark) {
            return false;
        }
    }
    true
}

// The number of the first of n fields from a given number on that has a name.
pub fn find<'a>(
    t: &[u32],
    n: usize,
    block: &'a [u8],
    store: &'a [u8],
    name: &[u8],
    from: usize,
) -> Option<usize>
    requires { (n ≤ 256) × (length t.now ≡ 1024) }
    ensures { result ≡ seeking (named block.now store.now name.now) from (fields_from t.now from (n - from)) }
{
    for i in from..n {
        let key = maps::part(block, store, place_at(t, i * 4));
        if names::same_name(key, name) {
            return Some(i);
        }
    }
    None
}
