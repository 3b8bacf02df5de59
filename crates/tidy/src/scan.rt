// One pass over the lines of a block, which keeps nothing but the place and the number of fields passed.
ghost use Rattle.std.specs.Prelude.{◌≡◌, ◌∷◌, [], ◌≤◌, length, take, drop};
ghost use Rattle.leaves.specs.Octets.{same_list};
ghost use Rattle.writes.specs.Written.{crlf};
ghost use Rattle.rebuilds.specs.Scan.{scan_pairs, scanned};
ghost use Rattle.tidy.specs.Pass.{past_text, past_filled, past_pair};

use crate::texts;

fn has_two(octets: &[u8], at: usize, x: u8, y: u8) -> bool
    requires { at ≤ length octets.now }
    ensures { result ≡ same_list (take 2 (drop at octets.now)) (x ∷ y ∷ []) }
{
    if octets.len() - at < 2 {
        return false;
    }
    octets[at] == x && octets[at + 1] == y
}

// Past the neat text before the first x, and x and y behind it.
fn past_text(octets: &[u8], at: usize, x: u8, y: u8) -> Option<usize>
    requires { at ≤ length octets.now }
    ensures { result ≡ past_text x y octets.now at }
{
    let end = lines::find_octet(octets, at, x);
    if has_two(octets, end, x, y) {
        if texts::is_neat(&octets[at..end]) {
            return Some(end + 2);
        }
        return None;
    }
    None
}

// The same, with a text that is not empty.
fn past_filled(octets: &[u8], at: usize, x: u8, y: u8) -> Option<usize>
    requires { at ≤ length octets.now }
    ensures { result ≡ past_filled x y octets.now at }
{
    if at < octets.len() {
        if octets[at] == x {
            return None;
        }
        return past_text(octets, at, x, y);
    }
    None
}

// Past a key, colon and space, a value, CR and LF.
fn past_pair(octets: &[u8], at: usize) -> Option<usize>
    requires { at ≤ length octets.now }
    ensures { result ≡ past_pair octets.now at }
{
    let value = past_filled(octets, at, 58, 32)?;
    past_text(octets, value, 13, 10)
}

// Whether CR LF stands at at, and nothing behind it.
fn ends_at(octets: &[u8], at: usize) -> bool
    requires { at ≤ length octets.now }
    ensures { result ≡ same_list (drop at octets.now) crlf }
{
    if octets.len() - at == 2 {
        return has_two(octets, at, 13, 10);
    }
    false
}

fn scan_pairs(octets: &[u8], from: usize) -> bool
    requires { from ≤ length octets.now }
    ensures { result ≡ scan_pairs 256 (drop from octets.now) }
{
    let mut at = from;
    for passed in 0..256usize {
        if ends_at(octets, at) {
            return true;
        }
        match past_pair(octets, at) {
            Some(next) => at = next,
            None => return false,
        }
    }
    ends_at(octets, at)
}

// Whether the lines of clean fields make up a block, before them, where it is expected, the line of a clean status.
pub fn is_scanned(octets: &[u8], status: bool) -> bool
    ensures { result ≡ scanned status octets.now }
{
    if status {
        let line = past_filled(octets, 0, 13, 10);
        match line {
            Some(next) => scan_pairs(octets, next),
            None => false,
        }
    } else {
        scan_pairs(octets, 0)
    }
}
