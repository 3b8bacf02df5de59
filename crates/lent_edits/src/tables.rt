// A lent table: one pass that drops fields, the first match, a field put in.
ghost use Rattle.std.specs.Prelude.{◌≡◌, true, ◌++◌, ◌≤◌, ◌<◌, length, take, drop};
ghost use Rattle.leaves.specs.Sanitise.{sanitised};
ghost use Rattle.maps.specs.Good.{Fit, FitAll};
ghost use Rattle.lookups.specs.Lookups.{named};
ghost use Rattle.edits.specs.Fields.{keeps, first_at, put_at, laid};
ghost use Rattle.lent.specs.Table.{table_of};
ghost use Rattle.lent_edits.specs.Lent.{kept_in};

use leaves::sanitise;
use maps::Field;

// Of the fields from start on those whose key is the sanitised key go, the others move up; how many then count.
pub fn compact<'a>(
    t: &mut [u32],
    start: usize,
    n: usize,
    block: &'a [u8],
    store: &'a [u8],
    key: &[u8],
) -> usize
    requires { (start ≤ n) × (n ≤ 256) × (length t.old ≡ 1024) × FitAll 65536 65536 (take n (table_of t.old)) }
    ensures { kept_in t.new result ≡ laid (table_of t.old) (take start (table_of t.old) ++ keeps (named block.now store.now (sanitised true key.now)) (drop start (take n (table_of t.old)))) }
{
    let mut k = start;
    for i in start..n {
        let field = lent::tables::field_at(t, i);
        let text = maps::part(block, store, field.key);
        if sanitise::matches_sanitised(text, key) {
            continue;
        }
        lent::tables::put_field(t, k, field);
        k += 1;
    }
    k
}

// The number of the first field whose key is the sanitised key, or that of fields.
pub fn first_at<'a>(t: &[u32], n: usize, block: &'a [u8], store: &'a [u8], key: &[u8]) -> usize
    requires { (n ≤ 256) × (length t.now ≡ 1024) }
    ensures { (result ≡ first_at (named block.now store.now (sanitised true key.now)) (take n (table_of t.now))) × (result ≤ n) }
{
    for i in 0..n {
        let field = lent::tables::field_at(t, i);
        let text = maps::part(block, store, field.key);
        if sanitise::matches_sanitised(text, key) {
            return i;
        }
    }
    n
}

// The field f becomes the field number at, and later fields whose key is the sanitised key go; how many then count.
pub fn put<'a>(
    t: &mut [u32],
    n: usize,
    at: usize,
    f: Field,
    block: &'a [u8],
    store: &'a [u8],
    key: &[u8],
) -> usize
    requires { (n ≤ 256) × (at < 256) × (at ≤ n) × (length t.old ≡ 1024) × FitAll 65536 65536 (take n (table_of t.old)) × Fit 65536 65536 f }
    ensures { kept_in t.new result ≡ laid (table_of t.old) (put_at (named block.now store.now (sanitised true key.now)) f at (take n (table_of t.old))) }
{
    lent::tables::put_field(t, at, f);
    let start = at + 1;
    if n < start {
        return start;
    }
    compact(t, start, n, block, store, key)
}
