// Edits: set, append, remove, set status.
#![tactic(auto)]

ghost use Rattle.std.specs.Prelude.{◌≡◌, true, false, ◌||◌, ◌++◌, ◌+◌, ◌≤◌, leb, ltb, length};
ghost use Rattle.leaves.specs.Paste.{pasted};
ghost use Rattle.leaves.specs.Sanitise.{sanitised};
ghost use Rattle.maps.specs.Good.{checked_done};
ghost use Rattle.maps.specs.Maps.{Is};
ghost use Rattle.edits.specs.Edits.{left, new_field, planned, putting, removing, setting, appending, statusing};

use leaves::refusals::Refusal;
use leaves::sanitise;
use maps::{Field, HeaderMap};

mod tables;

// An edit's answer and the map that it leaves: the map as it was if it is refused.
#[derive(Clone, Copy)]
pub struct Edited {
    pub answer: Result<(), Refusal>,
    pub map: HeaderMap,
}

fn refused(m: HeaderMap, e: Refusal) -> Edited
    ensures { result ≡ left m e }
{
    Edited {
        answer: Err(e),
        map: m,
    }
}

// Whether a map is edited once k of its n fields stay.
pub fn changed(e: bool, k: usize, n: usize) -> bool
    ensures { result ≡ (e || ltb k n) }
{
    e || k < n
}

// Drops every field whose key is the sanitised key.
pub fn remove<'a>(m: HeaderMap, block: &'a [u8], store: &'a [u8], key: &[u8]) -> Edited
    ensures { Is (removing m block.now store.now key.now) result block.now store.now }
{
    match maps::check_done(m, block, store) {
        Ok(()) => {
            let kept = tables::compact(m.table, 0, m.fields, block, store, key);
            let table = kept.table; // an array field goes into a literal by a variable alone
            let map = HeaderMap {
                table,
                fields: kept.n,
                edited: changed(m.edited, kept.n, m.fields),
                ..m
            };
            Edited {
                answer: Ok(()),
                map,
            }
        }
        Err(e) => refused(m, e),
    }
}

// The field whose key and value are to stand at the mark.
fn new_field(mark: usize, k: usize, v: usize) -> Field
    requires { mark + k + v ≤ 65536 }
    ensures { result ≡ new_field mark k v }
{
    let mid = mark + k;
    let key = maps::in_store(mark, mid);
    let value = maps::in_store(mid, mid + v);
    Field { key, value }
}

// Whether two texts fit into the store's free part.
fn fit(free: usize, k: usize, v: usize) -> bool
    ensures { result ≡ leb (k + v) free }
{
    k <= free && v <= free - k
}

// Writes the sanitised key and then the sanitised value at the mark.
pub fn write_both(store: &mut [u8], mark: usize, key: &[u8], value: &[u8]) -> usize
    requires { mark + length (sanitised true key.now) + length (sanitised false value.now) ≤ length store.old }
    ensures { (result ≡ mark + length (sanitised true key.now) + length (sanitised false value.now)) × (store.new ≡ pasted store.old mark (sanitised true key.now ++ sanitised false value.now)) }
{
    let k = sanitise::sanitise_into(store, mark, key, true);
    let mid = mark + k;
    let v = sanitise::sanitise_into(store, mid, value, false);
    mid + v
}

// What putting a key and a value in at a number comes to: the field that is to stand at the mark, or 5, or 6.
pub fn plan_put(
    at: usize,
    mark: usize,
    room: usize,
    key: &[u8],
    value: &[u8],
) -> Result<Field, Refusal>
    requires { (mark ≤ room) × (room ≤ 65536) }
    ensures { result ≡ planned at mark room (sanitised true key.now) (sanitised false value.now) }
{
    if at >= maps::FIELDS {
        return Err(Refusal::FieldsFull);
    }
    let k = sanitise::sanitised_length(key, true);
    let v = sanitise::sanitised_length(value, false);
    if fit(room - mark, k, v) {
        Ok(new_field(mark, k, v))
    } else {
        Err(Refusal::StoreFull)
    }
}

// The new key and value become the field number at, and later fields of that key go.
fn put_at<'a>(
    m: HeaderMap,
    block: &'a [u8],
    store: &mut [u8],
    at: usize,
    key: &[u8],
    value: &[u8],
) -> Edited
    requires { (Ok tt ≡ checked_done m block.now store.old) × (at ≤ m.fields) }
    ensures { Is (putting m block.now store.old at key.now value.now) result block.now store.new }
{
    match plan_put(at, m.mark, m.room, key, value) {
        Ok(field) => {
            let kept = tables::put(m.table, m.fields, at, field, block, store, key);
            let table = kept.table; // an array field goes into a literal by a variable alone
            let mark = write_both(store, m.mark, key, value);
            let filled = HeaderMap {
                table,
                fields: kept.n,
                mark,
                edited: true,
                ..m
            };
            Edited {
                answer: Ok(()),
                map: filled,
            }
        }
        Err(e) => refused(m, e),
    }
}

// The first match gets the new key and value and later ones go, or they are appended.
pub fn set<'a>(m: HeaderMap, block: &'a [u8], store: &mut [u8], key: &[u8], value: &[u8]) -> Edited
    ensures { Is (setting m block.now store.old key.now value.now) result block.now store.new }
{
    match maps::check_done(m, block, store) {
        Ok(()) => {
            let at = tables::first_at(&m.table[..m.fields], block, store, key);
            put_at(m, block, store, at, key, value)
        }
        Err(e) => refused(m, e),
    }
}

// The new key and value behind the last field.
pub fn append<'a>(
    m: HeaderMap,
    block: &'a [u8],
    store: &mut [u8],
    key: &[u8],
    value: &[u8],
) -> Edited
    ensures { Is (appending m block.now store.old key.now value.now) result block.now store.new }
{
    match maps::check_done(m, block, store) {
        Ok(()) => put_at(m, block, store, m.fields, key, value),
        Err(e) => refused(m, e),
    }
}

// The sanitised text is the status.
pub fn set_status(m: HeaderMap, block: &[u8], store: &mut [u8], text: &[u8]) -> Edited
    ensures { Is (statusing m block.now store.old text.now) result block.now store.new }
{
    match maps::check_done(m, block, store) {
        Ok(()) => {
            let k = sanitise::sanitised_length(text, true);
            if k > m.room - m.mark {
                return refused(m, Refusal::StoreFull);
            }
            let mark = m.mark + sanitise::sanitise_into(store, m.mark, text, true);
            let with_status = HeaderMap {
                status: Some(maps::in_store(m.mark, mark)),
                mark,
                edited: true,
                ..m
            };
            Edited {
                answer: Ok(()),
                map: with_status,
            }
        }
        Err(e) => refused(m, e),
    }
}
