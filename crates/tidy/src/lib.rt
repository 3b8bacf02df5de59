// The clean test, which asks a map, and the tidy test, which asks octets.
#![tactic(auto)]

mod scan;
mod texts;

ghost use Rattle.std.specs.Prelude.{◌≡◌, Ok, map, ◌≤◌, take};
ghost use Rattle.maps.specs.Good.{checked_done};
ghost use Rattle.maps.specs.Said.{pair_at, status_at};
ghost use Rattle.rebuilds.specs.Clean.{clean_pairs, clean_status};
ghost use Rattle.tidy.specs.Calls.{cleaning, tidying};

use leaves::refusals::Refusal;
use maps::{Field, HeaderMap, Place};

fn status_is_clean<'a>(s: Option<Place>, block: &'a [u8], store: &'a [u8]) -> bool
    ensures { result ≡ clean_status (status_at block.now store.now s) }
{
    match s {
        None => true,
        Some(p) => texts::is_clean_status(maps::part(block, store, p)),
    }
}

// Whether the first n fields of a table are clean.
fn are_clean<'a>(t: [Field; 256], n: usize, block: &'a [u8], store: &'a [u8]) -> bool
    requires { n ≤ 256 }
    ensures { result ≡ clean_pairs (map (pair_at block.now store.now) (take n t)) }
{
    for i in 0..n {
        let f = t[i];
        let key = maps::part(block, store, f.key);
        let value = maps::part(block, store, f.value);
        if !texts::is_clean_pair(key, value) {
            return false;
        }
    }
    true
}

// Whether what a map says is clean that was checked already.
fn is_clean<'a>(m: HeaderMap, block: &'a [u8], store: &'a [u8]) -> bool
    requires { Ok tt ≡ checked_done m block.now store.now }
    ensures { Ok result ≡ cleaning m block.now store.now }
{
    if !status_is_clean(m.status, block, store) {
        return false;
    }
    are_clean(m.table, m.fields, block, store)
}

// Whether what a map says is clean.
#[tactic(auto, using(maps::proofs::GoodLaws::handed_on), unfolding(crate::specs::Calls::cleaning))]
pub fn clean<'a>(m: HeaderMap, block: &'a [u8], store: &'a [u8]) -> Result<bool, Refusal>
    ensures { result ≡ cleaning m block.now store.now }
{
    maps::check_done(m, block, store)?;
    Ok(is_clean(m, block, store))
}

// Whether a block is tidy for its flags and limit: one pass over its lines, with nothing lent. Quirks make no difference.
pub fn tidy(octets: &[u8], status: bool, quirks: bool, limit: usize) -> Result<bool, Refusal>
    ensures { result ≡ tidying octets.now status quirks limit }
{
    if maps::LARGEST < limit {
        return Err(Refusal::BadRooms);
    }
    if limit < octets.len() {
        return Ok(false);
    }
    Ok(scan::is_scanned(octets, status))
}
