// The written form of a map whose table is lent in numbers, written into an output that the caller lends.
#![tactic(auto)]

ghost use Rattle.std.specs.Prelude.{◌≡◌, map, ◌+◌, ◌≤◌, length};
ghost use Rattle.maps.specs.Said.{pair_at, saying};
ghost use Rattle.writes.specs.Written.{Put, pair_lines, rebuilt, giving, rebuilding, writing, IsWritten};
ghost use Rattle.lent.specs.Table.{fields_from, map_in};

use leaves::refusals::Refusal;
use lent::tables;
use maps::Head;

// How many octets the lines of the first n fields are.
fn fields_length<'a>(t: &[u32], n: usize, block: &'a [u8], store: &'a [u8]) -> usize
    requires { (n ≤ 256) × (length t.now ≡ 1024) }
    ensures { (result ≡ length (pair_lines (map (pair_at block.now store.now) (fields_from t.now 0 n)))) × (result ≤ 2199023257000) }
{
    let mut sum = 0;
    for i in 0..n {
        let f = tables::field_at(t, i);
        let key = maps::part(block, store, f.key);
        let value = maps::part(block, store, f.value);
        sum += writes::pair_length(key, value);
    }
    sum
}

fn put_fields<'a>(
    out: &mut [u8],
    at: usize,
    t: &[u32],
    n: usize,
    block: &'a [u8],
    store: &'a [u8],
) -> usize
    requires { (n ≤ 256) × (length t.now ≡ 1024) × (at + length (pair_lines (map (pair_at block.now store.now) (fields_from t.now 0 n))) ≤ length out.old) }
    ensures { Put out.old out.new at result (pair_lines (map (pair_at block.now store.now) (fields_from t.now 0 n))) }
{
    let mut k = at;
    for i in 0..n {
        let f = tables::field_at(t, i);
        let key = maps::part(block, store, f.key);
        let value = maps::part(block, store, f.value);
        k = writes::put_pair(out, k, key, value);
    }
    k
}

// Status, fields and the blank line, if the output holds them; 8 if it does not.
fn give_map<'a>(
    out: &mut [u8],
    h: Head,
    t: &[u32],
    block: &'a [u8],
    store: &'a [u8],
) -> Result<usize, Refusal>
    requires { (h.fields ≤ 256) × (length t.now ≡ 1024) }
    ensures { IsWritten (giving out.old (rebuilt (saying (map_in t.now h) block.now store.now))) result out.new }
{
    let n = h.fields;
    let line = writes::status_length(h.status, block, store);
    let lines = fields_length(t, n, block, store);
    if out.len() < line + lines + 2 {
        return Err(Refusal::ShortOutput);
    }
    let i = writes::put_status(out, h.status, block, store);
    let j = put_fields(out, i, t, n, block, store);
    Ok(writes::put_two(out, j, 13, 10))
}

// Status, fields and the blank line, whatever the map was read from.
pub fn rebuild<'a>(
    h: Head,
    t: &[u32],
    block: &'a [u8],
    store: &'a [u8],
    out: &mut [u8],
) -> Result<usize, Refusal>
    requires { length t.now ≡ 1024 }
    ensures { IsWritten (rebuilding (map_in t.now h) block.now store.now out.old) result out.new }
{
    lent::check_done(h, t, block, store)?;
    give_map(out, h, t, block, store)
}

// The block as it was read, or the map rebuilt. An unedited map costs its checks and one copy of the block.
pub fn write<'a>(
    h: Head,
    t: &[u32],
    block: &'a [u8],
    store: &'a [u8],
    out: &mut [u8],
) -> Result<usize, Refusal>
    requires { length t.now ≡ 1024 }
    ensures { IsWritten (writing (map_in t.now h) block.now store.now out.old) result out.new }
{
    lent::check_done(h, t, block, store)?;
    if writes::is_untouched(h.edited, h.count) {
        writes::give(out, &block[0..h.count])
    } else {
        give_map(out, h, t, block, store)
    }
}
