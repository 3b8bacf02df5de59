// The written form of a map, written into an output that the caller lends.
#![tactic(auto)]

ghost use Rattle.std.specs.Prelude.{◌≡◌, ◌∷◌, [], map, ◌+◌, ◌≤◌, length, take};
ghost use Rattle.maps.specs.Said.{pair_at, status_at};
ghost use Rattle.writes.specs.Written.{Put, pair_line, pair_lines, status_line, giving, rebuilding, untouched, writing, IsWritten};

use leaves::refusals::Refusal;
use maps::{Field, HeaderMap, Place};

// Writes a text over the output from at on; answers where it ends.
fn put(out: &mut [u8], at: usize, text: &[u8]) -> usize
    requires { at + length text.now ≤ length out.old }
    ensures { Put out.old out.new at result text.now }
{
    let end = at + text.len();
    lines::copy_in(&mut out[at..end], text);
    end
}

// Writes two octets over the output from at on; answers where they end.
pub fn put_two(out: &mut [u8], at: usize, x: u8, y: u8) -> usize
    requires { at + 2 ≤ length out.old }
    ensures { Put out.old out.new at result (x ∷ y ∷ []) }
{
    out[at] = x;
    out[at + 1] = y;
    at + 2
}

// Writes a text over the output's start, if the output holds it; 8 if it does not.
pub fn give(out: &mut [u8], text: &[u8]) -> Result<usize, Refusal>
    ensures { IsWritten (giving out.old text.now) result out.new }
{
    if out.len() < text.len() {
        return Err(Refusal::ShortOutput);
    }
    Ok(put(out, 0, text))
}

// Key, colon, space (all three only if the key is not empty), value, CR LF.
pub fn put_pair(out: &mut [u8], at: usize, key: &[u8], value: &[u8]) -> usize
    requires { at + length (pair_line key.now value.now) ≤ length out.old }
    ensures { Put out.old out.new at result (pair_line key.now value.now) }
{
    if key.len() == 0 {
        let a = put(out, at, value);
        return put_two(out, a, 13, 10);
    }
    let a = put(out, at, key);
    let b = put_two(out, a, 58, 32);
    let c = put(out, b, value);
    put_two(out, c, 13, 10)
}

// How many octets that is.
pub fn pair_length(key: &[u8], value: &[u8]) -> usize
    requires { (length key.now ≤ 4294967295) × (length value.now ≤ 4294967295) }
    ensures { (result ≡ length (pair_line key.now value.now)) × (result ≤ 8589934594) }
{
    if key.len() == 0 {
        return value.len() + 2;
    }
    key.len() + 2 + value.len() + 2
}

fn fields_length<'a>(t: [Field; 256], n: usize, block: &'a [u8], store: &'a [u8]) -> usize
    requires { n ≤ 256 }
    ensures { (result ≡ length (pair_lines (map (pair_at block.now store.now) (take n t)))) × (result ≤ 2199023257000) }
{
    let mut sum = 0;
    for i in 0..n {
        let f = t[i];
        let key = maps::part(block, store, f.key);
        let value = maps::part(block, store, f.value);
        sum += pair_length(key, value);
    }
    sum
}

fn put_fields<'a>(
    out: &mut [u8],
    at: usize,
    t: [Field; 256],
    n: usize,
    block: &'a [u8],
    store: &'a [u8],
) -> usize
    requires { (n ≤ 256) × (at + length (pair_lines (map (pair_at block.now store.now) (take n t))) ≤ length out.old) }
    ensures { Put out.old out.new at result (pair_lines (map (pair_at block.now store.now) (take n t))) }
{
    let mut k = at;
    for i in 0..n {
        let f = t[i];
        let key = maps::part(block, store, f.key);
        let value = maps::part(block, store, f.value);
        k = put_pair(out, k, key, value);
    }
    k
}

// How long the status line is; 0 if the status is absent or empty.
pub fn status_length<'a>(s: Option<Place>, block: &'a [u8], store: &'a [u8]) -> usize
    ensures { (result ≡ length (status_line (status_at block.now store.now s))) × (result ≤ 4294967297) }
{
    match s {
        None => 0,
        Some(p) => {
            let text = maps::part(block, store, p);
            if text.len() == 0 {
                return 0;
            }
            text.len() + 2
        }
    }
}

// Writes the status line over the output's start; answers where it ends.
pub fn put_status<'a>(out: &mut [u8], s: Option<Place>, block: &'a [u8], store: &'a [u8]) -> usize
    requires { length (status_line (status_at block.now store.now s)) ≤ length out.old }
    ensures { Put out.old out.new 0 result (status_line (status_at block.now store.now s)) }
{
    match s {
        None => 0,
        Some(p) => {
            let text = maps::part(block, store, p);
            if text.len() == 0 {
                return 0;
            }
            let a = put(out, 0, text);
            put_two(out, a, 13, 10)
        }
    }
}

// Status, fields and the blank line, whatever the map was read from.
pub fn rebuild<'a>(
    m: HeaderMap,
    block: &'a [u8],
    store: &'a [u8],
    out: &mut [u8],
) -> Result<usize, Refusal>
    ensures { IsWritten (rebuilding m block.now store.now out.old) result out.new }
{
    maps::check_done(m, block, store)?;
    let n = m.fields;
    let line = status_length(m.status, block, store);
    let lines = fields_length(m.table, n, block, store);
    if out.len() < line + lines + 2 {
        return Err(Refusal::ShortOutput);
    }
    let i = put_status(out, m.status, block, store);
    let j = put_fields(out, i, m.table, n, block, store);
    Ok(put_two(out, j, 13, 10))
}

// Unedited and not empty.
pub fn is_untouched(edited: bool, count: usize) -> bool
    ensures { result ≡ untouched edited count }
{
    !edited && 0 < count
}

// The block as it was read, or the map rebuilt.
pub fn write<'a>(
    m: HeaderMap,
    block: &'a [u8],
    store: &'a [u8],
    out: &mut [u8],
) -> Result<usize, Refusal>
    ensures { IsWritten (writing m block.now store.now out.old) result out.new }
{
    maps::check_done(m, block, store)?;
    if is_untouched(m.edited, m.count) {
        return give(out, &block[0..m.count]);
    }
    rebuild(m, block, store, out)
}
