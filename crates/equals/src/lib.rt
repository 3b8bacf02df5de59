// Map equality: status, keys and values by octets.
#![tactic(auto)]

ghost use Rattle.std.specs.Prelude.{◌≡◌, Ok, map, ◌≤◌, take};
ghost use Rattle.leaves.specs.Octets.{same_list};
ghost use Rattle.maps.specs.Good.{checked_done};
ghost use Rattle.maps.specs.Said.{pair_at, status_at};
ghost use Rattle.equals.specs.Equal.{same_pairs, same_status, comparing};

use leaves::refusals::Refusal;
use maps::{Field, HeaderMap, Place};

// Whether two texts are the same, octet by octet.
#[tactic(auto, using(crate::proofs::OctetLaws::same_list_is))]
pub fn same_octets(a: &[u8], b: &[u8]) -> bool
    ensures { result ≡ same_list a.now b.now }
{
    a == b
}

// Whether the first n fields of two tables say the same, in the same order.
fn same_fields<'a>(
    t: [Field; 256],
    u: [Field; 256],
    n: usize,
    b: &'a [u8],
    s: &'a [u8],
    c: &'a [u8],
    z: &'a [u8],
) -> bool
    requires { n ≤ 256 }
    ensures { result ≡ same_pairs (map (pair_at b.now s.now) (take n t)) (map (pair_at c.now z.now) (take n u)) }
{
    for i in 0..n {
        let f = t[i];
        let g = u[i];
        if !same_octets(maps::part(b, s, f.key), maps::part(c, z, g.key)) {
            return false;
        }
        if !same_octets(maps::part(b, s, f.value), maps::part(c, z, g.value)) {
            return false;
        }
    }
    true
}

// Whether two maps' status is the same: absent is not empty.
fn same_status<'a>(
    x: Option<Place>,
    y: Option<Place>,
    b: &'a [u8],
    s: &'a [u8],
    c: &'a [u8],
    z: &'a [u8],
) -> bool
    ensures { result ≡ same_status (status_at b.now s.now x) (status_at c.now z.now y) }
{
    match (x, y) {
        (Some(p), Some(q)) => same_octets(maps::part(b, s, p), maps::part(c, z, q)),
        (None, None) => true,
        (None, Some(_)) => false,
        (Some(_), None) => false,
    }
}

// Whether two maps say the same that were checked already.
fn compare_checked<'a>(
    m: HeaderMap,
    b: &'a [u8],
    s: &'a [u8],
    k: HeaderMap,
    c: &'a [u8],
    z: &'a [u8],
) -> bool
    requires { (Ok tt ≡ checked_done m b.now s.now) × (Ok tt ≡ checked_done k c.now z.now) }
    ensures { Ok result ≡ comparing m b.now s.now k c.now z.now }
{
    if m.fields != k.fields {
        return false;
    }
    if !same_status(m.status, k.status, b, s, c, z) {
        return false;
    }
    same_fields(m.table, k.table, m.fields, b, s, c, z)
}

// Whether two maps say the same. The first map, with its block b and its store s, is checked whole before the second.
#[tactic(auto, using(maps::proofs::GoodLaws::handed_on), unfolding(crate::specs::Equal::comparing))]
pub fn compare<'a>(
    m: HeaderMap,
    b: &'a [u8],
    s: &'a [u8],
    k: HeaderMap,
    c: &'a [u8],
    z: &'a [u8],
) -> Result<bool, Refusal>
    ensures { result ≡ comparing m b.now s.now k c.now z.now }
{
    maps::check_done(m, b, s)?;
    maps::check_done(k, c, z)?;
    Ok(compare_checked(m, b, s, k, c, z))
}
