// The resume check: may the second message's body be appended to the first's.
#![tactic(auto)]

ghost use Rattle.std.specs.Prelude.{◌≡◌, Ok};
ghost use Rattle.maps.specs.Good.{checked_done};
ghost use Rattle.resume.specs.Resume.{is_partial, tagged, resuming};

use leaves::refusals::Refusal;
use maps::HeaderMap;

#[derive(Clone, Copy)]
pub enum Verdict {
    Append,
    NoTag,
    Differ,
    NotPartial,
}

fn is_partial(code: Result<Option<u16>, Refusal>) -> bool
    ensures { result ≡ is_partial code }
{
    match code {
        Ok(Some(n)) => n == 206,
        Ok(None) => false,
        Err(_) => false,
    }
}

fn compare_tags(x: &[u8], y: &[u8]) -> Verdict
    ensures { Ok result ≡ tagged x.now y.now }
{
    if x.len() == 0 {
        return Verdict::NoTag;
    }
    if y.len() == 0 {
        return Verdict::NoTag;
    }
    if equals::same_octets(x, y) {
        Verdict::Append
    } else {
        Verdict::Differ
    }
}

// What two maps that were checked already come to.
fn resume_checked<'a>(
    m: HeaderMap,
    b: &'a [u8],
    s: &'a [u8],
    k: HeaderMap,
    c: &'a [u8],
    z: &'a [u8],
) -> Verdict
    requires { (Ok tt ≡ checked_done m b.now s.now) × (Ok tt ≡ checked_done k c.now z.now) }
    ensures { Ok result ≡ resuming m b.now s.now k c.now z.now }
{
    if is_partial(codes::status_code(k, c, z)) {
        let first = singles::only_value(m, b, s, b"ETag");
        let second = singles::only_value(k, c, z, b"ETag");
        compare_tags(first, second)
    } else {
        Verdict::NotPartial
    }
}

// The first map, with its block b and its store s, is checked whole before the second.
#[tactic(auto, using(maps::proofs::GoodLaws::handed_on), unfolding(crate::specs::Resume::resuming))]
pub fn resume<'a>(
    m: HeaderMap,
    b: &'a [u8],
    s: &'a [u8],
    k: HeaderMap,
    c: &'a [u8],
    z: &'a [u8],
) -> Result<Verdict, Refusal>
    ensures { result ≡ resuming m b.now s.now k c.now z.now }
{
    maps::check_done(m, b, s)?;
    maps::check_done(k, c, z)?;
    Ok(resume_checked(m, b, s, k, c, z))
}
