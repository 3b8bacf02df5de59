// What a map whose table is lent in numbers tells of the record or the message behind it: status code, content length, record type.
#![tactic(auto)]

ghost use Rattle.std.specs.Prelude.{◌≡◌, ◌<◌, length};
ghost use Rattle.maps.specs.Places.{at};
ghost use Rattle.lookups.specs.Lookups.{finding};
ghost use Rattle.codes.specs.Codes.{coding, length_of, kind_of};
ghost use Rattle.lent.specs.Table.{field_at, map_in};

use codes::line;
use leaves::lengths;
use leaves::refusals::Refusal;
use lent::tables;
use maps::Head;
use standard::types;

// The status code, if there is one.
pub fn status_code<'a>(
    h: Head,
    t: &[u32],
    block: &'a [u8],
    store: &'a [u8],
) -> Result<Option<u16>, Refusal>
    requires { length t.now ≡ 1024 }
    ensures { result ≡ coding (map_in t.now h) block.now store.now }
{
    lent::check_done(h, t, block, store)?;
    let text = codes::status_text(h.status, block, store);
    Ok(line::code_of(text))
}

// The number of the first field that has a name.
fn find<'a>(
    h: Head,
    t: &[u32],
    block: &'a [u8],
    store: &'a [u8],
    name: &[u8],
) -> Result<Option<usize>, Refusal>
    requires { length t.now ≡ 1024 }
    ensures { result ≡ finding (map_in t.now h) block.now store.now name.now 0 }
{
    lent::check_done(h, t, block, store)?; // who reads the field that is found need not judge the map again
    Ok(tables::find(t, h.fields, block, store, name, 0))
}

// The value of a field that was found: its map is judged already.
fn value<'a>(t: &[u32], block: &'a [u8], store: &'a [u8], i: usize) -> &'a [u8]
    requires { (i < 256) × (length t.now ≡ 1024) }
    ensures { result.now ≡ at block.now store.now (field_at t.now i).value }
{
    let field = tables::field_at(t, i);
    maps::part(block, store, field.value)
}

// The content length of the first field of that name, if there is one.
pub fn content_length<'a>(
    h: Head,
    t: &[u32],
    block: &'a [u8],
    store: &'a [u8],
) -> Result<Option<u64>, Refusal>
    requires { length t.now ≡ 1024 }
    ensures { result ≡ length_of (map_in t.now h) block.now store.now }
{
    match find(h, t, block, store, b"Content-Length")? {
        Some(i) => Ok(Some(lengths::content_length(value(t, block, store, i)))),
        None => Ok(None),
    }
}

// The code of a record's type.
pub fn record_type<'a>(h: Head, t: &[u32], block: &'a [u8], store: &'a [u8]) -> Result<u16, Refusal>
    requires { length t.now ≡ 1024 }
    ensures { result ≡ kind_of (map_in t.now h) block.now store.now }
{
    match find(h, t, block, store, b"WARC-Type")? {
        Some(i) => Ok(types::record_type(value(t, block, store, i))),
        None => Ok(0),
    }
}
