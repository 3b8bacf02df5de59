// Find, value, key, status and reason; how many fields there are.
ghost use Rattle.std.specs.Prelude.{◌≡◌, length, ◌≤◌, Ok};
ghost use Rattle.lent.specs.Table.{map_in};
ghost use Rattle.lookups.specs.Lookups.{status_in};
ghost use Rattle.abi.specs.Calls.{Tells, fields_tell, Below, Sees, seen_at, find_sees, Lies, place_lies, handed_lies, value_lies, key_lies, status_lies, shifted, reason_of, reason_lies};

use crate::{answers, opening};
use codes::line;
use lent::{heads, tables};
use maps::{Head, Place};

// How many fields there are: the table's first numbers are then the places of all of them.
pub fn bisquecrow_fields(
    head: &[u64],
    table: &[u32],
    block: &[u8],
    store: &[u8],
    count: &mut u64,
) -> u32
    ensures { Tells (fields_tell head.now table.now count.old block.now store.now) result count.new }
{
    match opening::open(head, table, block, store) {
        Ok(()) => {
            *count = head[5];
            answers::DONE
        }
        Err(e) => answers::refused(e),
    }
}

// Hands out a place: its kind is the answer.
fn put_place(p: Place, from: &mut u64, to: &mut u64) -> u32
    ensures { Lies (place_lies p) result from.new to.new }
{
    match p {
        Place::Block(a, e) => {
            *from = a.0 as u64;
            *to = e.0 as u64;
            answers::IN_BLOCK
        }
        Place::Store(a, e) => {
            *from = a.0 as u64;
            *to = e.0 as u64;
            answers::IN_STORE
        }
    }
}

// Hands out the number of a field that was found, and its value's place.
fn put_found(
    found: Option<usize>,
    h: Head,
    table: &[u32],
    number: &mut u64,
    from: &mut u64,
    to: &mut u64,
) -> u32
    requires { (length table.now ≡ 1024) × Below found }
    ensures { Sees (seen_at (map_in table.now h) number.old from.old to.old (Ok found)) result number.new from.new to.new }
{
    match found {
        Some(i) => {
            *number = i as u64;
            let field = tables::field_at(table, i);
            put_place(field.value, from, to)
        }
        None => answers::MISSING,
    }
}

// The first field from a given number on that has a name: its number, and where its value lies.
pub fn bisquecrow_find<'a>(
    head: &[u64],
    table: &[u32],
    block: &'a [u8],
    store: &'a [u8],
    name: &[u8],
    start: usize,
    number: &mut u64,
    from: &mut u64,
    to: &mut u64,
) -> u32
    ensures { Sees (find_sees head.now table.now number.old from.old to.old block.now store.now name.now start) result number.new from.new to.new }
{
    match opening::open(head, table, block, store) {
        Ok(()) => {
            let h = heads::head_at(head);
            let found = tables::find(table, h.fields, block, store, name, start);
            put_found(found, h, table, number, from, to)
        }
        Err(e) => answers::refused(e),
    }
}

// Where the value of a field lies.
pub fn bisquecrow_value(
    head: &[u64],
    table: &[u32],
    block: &[u8],
    store: &[u8],
    number: usize,
    from: &mut u64,
    to: &mut u64,
) -> u32
    ensures { Lies (value_lies head.now table.now from.old to.old block.now store.now number) result from.new to.new }
{
    match opening::open(head, table, block, store) {
        Ok(()) => {
            if (number as u64) < head[5] {
                let f = tables::field_at(table, number);
                let p = f.value;
                return put_place(p, from, to);
            }
            answers::MISSING
        }
        Err(e) => answers::refused(e),
    }
}

// Where the key of a field lies.
pub fn bisquecrow_key(
    head: &[u64],
    table: &[u32],
    block: &[u8],
    store: &[u8],
    number: usize,
    from: &mut u64,
    to: &mut u64,
) -> u32
    ensures { Lies (key_lies head.now table.now from.old to.old block.now store.now number) result from.new to.new }
{
    match opening::open(head, table, block, store) {
        Ok(()) => {
            if (number as u64) < head[5] {
                let f = tables::field_at(table, number);
                let p = f.key;
                return put_place(p, from, to);
            }
            answers::MISSING
        }
        Err(e) => answers::refused(e),
    }
}

fn put_status(s: Option<Place>, from: &mut u64, to: &mut u64) -> u32
    ensures { Lies (handed_lies from.old to.old (status_in s)) result from.new to.new }
{
    match s {
        None => answers::MISSING,
        Some(p) => put_place(p, from, to),
    }
}

// Where the status lies.
pub fn bisquecrow_status(
    head: &[u64],
    table: &[u32],
    block: &[u8],
    store: &[u8],
    from: &mut u64,
    to: &mut u64,
) -> u32
    ensures { Lies (status_lies head.now table.now from.old to.old block.now store.now) result from.new to.new }
{
    match opening::open(head, table, block, store) {
        Ok(()) => {
            let h = heads::head_at(head);
            let s = h.status;
            put_status(s, from, to)
        }
        Err(e) => answers::refused(e),
    }
}

// Hands out a place from its octet k on.
fn put_rest(p: Place, k: usize, from: &mut u64, to: &mut u64) -> u32
    requires { k ≤ 4294967295 }
    ensures { Lies (place_lies (shifted k p)) result from.new to.new }
{
    match p {
        Place::Block(a, e) => {
            *from = (a.0 as u64) + (k as u64);
            *to = e.0 as u64;
            answers::IN_BLOCK
        }
        Place::Store(a, e) => {
            *from = (a.0 as u64) + (k as u64);
            *to = e.0 as u64;
            answers::IN_STORE
        }
    }
}

fn put_reason<'a>(p: Place, block: &'a [u8], store: &'a [u8], from: &mut u64, to: &mut u64) -> u32
    ensures { Lies (handed_lies from.old to.old (reason_of block.now store.now (Some p))) result from.new to.new }
{
    let text = maps::part(block, store, p);
    match line::reason_start(text) {
        Some(k) => put_rest(p, k, from, to),
        None => answers::MISSING,
    }
}

// Where the reason lies.
pub fn bisquecrow_reason<'a>(
    head: &[u64],
    table: &[u32],
    block: &'a [u8],
    store: &'a [u8],
    from: &mut u64,
    to: &mut u64,
) -> u32
    ensures { Lies (reason_lies head.now table.now from.old to.old block.now store.now) result from.new to.new }
{
    match opening::open(head, table, block, store) {
        Ok(()) => {
            let h = heads::head_at(head);
            let s = h.status;
            match s {
                None => answers::MISSING,
                Some(p) => put_reason(p, block, store, from, to),
            }
        }
        Err(e) => answers::refused(e),
    }
}
