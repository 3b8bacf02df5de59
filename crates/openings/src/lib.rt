// What a header that was read opens: a record, or 9 or 10.
#![tactic(auto)]

ghost use Rattle.std.specs.Prelude.{◌≡◌, ◌≤◌, length};
ghost use Rattle.maps.specs.Good.{checked_done};
ghost use Rattle.maps.specs.Said.{saying};
ghost use Rattle.openings.specs.Opening.{version_text, is_length, opened, opening};
ghost use Rattle.openings.specs.Sights.{seen, noted, spotted, length_text, kind_code, opened_by, opened_at};

use leaves::refusals::Refusal;
use leaves::{lengths, names, trims};
use maps::{Field, HeaderMap, Place};
use standard::types;

// The largest Content-Length.
pub const CAP: u64 = 1099511627776;

// The number of the first field of a name that was seen, and how many were: 2 is two or more. A count, and no enum, since the contracts of
// note, open_spots and of the lent walker's pass are written on it (`seen`, `spots_at`, `length_text`, `kind_code`).
#[derive(Clone, Copy)]
pub struct Sight {
    pub at: usize,
    pub times: usize,
}

// What was seen of the two names that open a record: Content-Length and WARC-Type.
#[derive(Clone, Copy)]
pub struct Sights {
    pub length: Sight,
    pub kind: Sight,
}

// The same with the places of the values.
#[derive(Clone, Copy)]
pub struct Spots {
    pub lengths: usize,
    pub length: Place,
    pub kinds: usize,
    pub kind: Place,
}

fn is_version(text: &[u8]) -> bool
    ensures { result ≡ version_text text.now }
{
    equals::same_octets(text, b"WARC/1.0") || equals::same_octets(text, b"WARC/1.1")
}

fn is_length(value: &[u8]) -> bool
    ensures { result ≡ is_length value.now }
{
    lengths::is_decimal(value) && lengths::content_length(value) <= CAP
}

// The field i, and whether it is one of the name.
#[tactic(auto, using(leaves::proofs::ChoiceLaws::choices), unfolding(crate::specs::Sights::again))]
fn see(z: Sight, same: bool, i: usize) -> Sight
    ensures { result ≡ seen z same i }
{
    if !same {
        z
    } else if z.times == 0 {
        Sight { at: i, times: 1 }
    } else {
        Sight { at: z.at, times: 2 }
    }
}

// The field i with a key: what a pass over fields does with each.
pub fn note(z: Sights, key: &[u8], i: usize) -> Sights
    ensures { result ≡ noted z key.now i }
{
    Sights {
        length: see(z.length, names::same_name(key, b"Content-Length"), i),
        kind: see(z.kind, names::same_name(key, b"WARC-Type"), i),
    }
}

// A pass over the first n fields of a table.
fn spot(t: &[Field], n: usize, block: &[u8], store: &[u8]) -> Spots
    requires { (n ≤ 256) × (length t.now ≡ 256) }
    ensures { result ≡ spotted block.now store.now t.now n }
{
    let none = Sight { at: 0, times: 0 };
    let mut z = Sights {
        length: none,
        kind: none,
    };
    for (i, f) in t[..n].iter().enumerate() {
        z = note(z, maps::part(block, store, f.key), i);
    }
    Spots {
        lengths: z.length.times,
        length: t[z.length.at].value,
        kinds: z.kind.times,
        kind: t[z.kind.at].value,
    }
}

#[tactic(auto, using(leaves::proofs::ChoiceLaws::choices), unfolding(crate::specs::Sights::length_text))]
fn length_text<'a>(times: usize, p: Place, block: &'a [u8], store: &'a [u8]) -> &'a [u8]
    ensures { result.now ≡ length_text block.now store.now times p }
{
    if times == 1 {
        maps::part(block, store, p)
    } else {
        &block[..0]
    }
}

#[tactic(auto, using(leaves::proofs::ChoiceLaws::choices), unfolding(crate::specs::Sights::kind_code))]
fn kind_code<'a>(times: usize, p: Place, block: &'a [u8], store: &'a [u8]) -> u16
    ensures { result ≡ kind_code block.now store.now times p }
{
    if times == 0 {
        return 0;
    }
    types::record_type(maps::part(block, store, p))
}

// What a status, the value of the only Content-Length and a type open.
fn open_texts(status: &[u8], value: &[u8], kind: u16) -> Result<(u64, u16), Refusal>
    ensures { result ≡ opened_by status.now value.now kind }
{
    let text = trims::trim(status);
    if !is_version(text) {
        return Err(Refusal::BadVersion);
    }
    if !is_length(value) {
        return Err(Refusal::BadLength);
    }
    Ok((lengths::content_length(value), kind))
}

// What a status opens with what a pass over the fields found.
pub fn open_spots<'a>(
    status: Option<Place>,
    z: Spots,
    block: &'a [u8],
    store: &'a [u8],
) -> Result<(u64, u16), Refusal>
    ensures { result ≡ opened_at block.now store.now status z }
{
    match status {
        None => Err(Refusal::BadVersion),
        Some(p) => {
            let text = maps::part(block, store, p);
            let value = length_text(z.lengths, z.length, block, store);
            let kind = kind_code(z.kinds, z.kind, block, store);
            open_texts(text, value, kind)
        }
    }
}

// What a map opens that was judged already.
pub fn open_good<'a>(m: HeaderMap, block: &'a [u8], store: &'a [u8]) -> Result<(u64, u16), Refusal>
    requires { Ok tt ≡ checked_done m block.now store.now }
    ensures { result ≡ opened (saying m block.now store.now) }
{
    let z = spot(&m.table, m.fields, block, store);
    open_spots(m.status, z, block, store)
}

// What a map opens.
pub fn open_record<'a>(
    m: HeaderMap,
    block: &'a [u8],
    store: &'a [u8],
) -> Result<(u64, u16), Refusal>
    ensures { result ≡ opening m block.now store.now }
{
    maps::check_done(m, block, store)?;
    open_good(m, block, store)
}
