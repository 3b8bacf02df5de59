// Lookups: a field's number by its name; key, value and status as parts of the block or of the store.
#![tactic(auto)]

ghost use Rattle.std.specs.Prelude.{◌≡◌, drop};
ghost use Rattle.lookups.specs.Lookups.{named, seeking, finding, sighted_in, sighting, slot_of, shown_status, value_place, key_place, status_place, Handed};

use leaves::names;
use leaves::refusals::Refusal;
use maps::{Field, HeaderMap, Place};

// The first field from a given number on that has a name.
fn seek<'a>(
    fields: &[Field],
    block: &'a [u8],
    store: &'a [u8],
    name: &[u8],
    from: usize,
) -> Option<(usize, Field)>
    ensures { result ≡ sighted_in fields.now (seeking (named block.now store.now name.now) from (drop from fields.now)) }
{
    for i in from..fields.len() {
        let field = fields[i];
        let key = maps::part(block, store, field.key);
        if names::same_name(key, name) {
            return Some((i, field));
        }
    }
    None
}

// The first field from a given number on that has a name, with its number: who wants its value too need not have the map judged again.
pub fn sight<'a>(
    m: HeaderMap,
    block: &'a [u8],
    store: &'a [u8],
    name: &[u8],
    from: usize,
) -> Result<Option<(usize, Field)>, Refusal>
    ensures { result ≡ sighting m block.now store.now name.now from }
{
    maps::check_done(m, block, store)?;
    Ok(seek(&m.table[..m.fields], block, store, name, from))
}

// The number of the first field from a given number on that has a name.
pub fn find<'a>(
    m: HeaderMap,
    block: &'a [u8],
    store: &'a [u8],
    name: &[u8],
    from: usize,
) -> Result<Option<usize>, Refusal>
    ensures { result ≡ finding m block.now store.now name.now from }
{
    // A `map` with a closure was tried, and its clause was not proved.
    match sight(m, block, store, name, from)? {
        Some((i, _)) => Ok(Some(i)),
        None => Ok(None),
    }
}

// The field i: none for a wrong number or a refusal.
#[tactic(auto, using(maps::proofs::GoodLaws::ready_of, crate::proofs::HandLaws::slot_fine, crate::proofs::HandLaws::slot_wrong, crate::proofs::HandLaws::slot_refused))]
fn slot_at(m: HeaderMap, block: &[u8], store: &[u8], i: usize) -> Option<Field>
    ensures { result ≡ slot_of m block.now store.now i }
{
    if maps::check_done(m, block, store).is_ok() && i < m.fields {
        Some(m.table[i])
    } else {
        None
    }
}

// The value of the field i.
pub fn value<'a>(m: HeaderMap, block: &'a [u8], store: &'a [u8], i: usize) -> &'a [u8]
    ensures { Handed block.now store.now block.entry.ref_ptr store.entry.ref_ptr (value_place m block.now store.now i) result.now result.ref_ptr }
{
    match slot_at(m, block, store, i) {
        Some(field) => maps::part(block, store, field.value),
        None => &block[0..0],
    }
}

// The key of the field i.
pub fn key<'a>(m: HeaderMap, block: &'a [u8], store: &'a [u8], i: usize) -> &'a [u8]
    ensures { Handed block.now store.now block.entry.ref_ptr store.entry.ref_ptr (key_place m block.now store.now i) result.now result.ref_ptr }
{
    match slot_at(m, block, store, i) {
        Some(field) => maps::part(block, store, field.key),
        None => &block[0..0],
    }
}

// The status of a map that can be looked at.
fn shown_status(m: HeaderMap, block: &[u8], store: &[u8]) -> Option<Place>
    ensures { result ≡ shown_status m block.now store.now }
{
    match maps::check_done(m, block, store) {
        Ok(()) => m.status,
        Err(_) => None,
    }
}

// The status.
pub fn status<'a>(m: HeaderMap, block: &'a [u8], store: &'a [u8]) -> &'a [u8]
    ensures { Handed block.now store.now block.entry.ref_ptr store.entry.ref_ptr (status_place m block.now store.now) result.now result.ref_ptr }
{
    match shown_status(m, block, store) {
        Some(place) => maps::part(block, store, place),
        None => &block[0..0],
    }
}
