// Sanitising: trimmed text with CR dropped, LF turned into a space and, in keys and status lines, colons dropped.
ghost use Rattle.std.specs.Prelude.{◌≡◌, true, ◌+◌, ◌≤◌, length};
ghost use Rattle.leaves.specs.Paste.{pasted};
ghost use Rattle.leaves.specs.Name.{same_name};
ghost use Rattle.leaves.specs.Sanitise.{dropped, spaced, scrubbed, sanitised};

use crate::{names, trims};

// Whether sanitising drops an octet.
#[tactic(auto, unfolding(crate::specs::Sanitise::dropped))]
fn is_dropped(x: u8, key: bool) -> bool
    ensures { result ≡ dropped key x }
{
    x == b'\r' || (key && x == b':')
}

// A space for LF.
#[tactic(auto, unfolding(crate::specs::Sanitise::spaced))]
fn no_break(x: u8) -> u8
    ensures { result ≡ spaced x }
{
    if x == b'\n' { b' ' } else { x }
}

// Writes what sanitising leaves of a trimmed text at the front of a slice.
fn scrub_into(out: &mut [u8], part: &[u8], key: bool) -> usize
    requires { length (scrubbed key part.now) ≤ length out.old }
    ensures { (result ≡ length (scrubbed key part.now)) × (out.new ≡ pasted out.old 0 (scrubbed key part.now)) }
{
    let mut n = 0;

    // Counted by hand, with i raised in each arm: the three forms of `for` that were measured took half as long again.
    let mut i = 0;
    while i < part.len() {
        let x = part[i];
        if is_dropped(x, key) {
            i += 1;
        } else {
            out[n] = no_break(x);
            n += 1;
            i += 1;
        }
    }
    n
}

// Writes the sanitised text into the store's part that begins at at, and answers its length.
pub fn sanitise_into(store: &mut [u8], at: usize, text: &[u8], key: bool) -> usize
    requires { at + length (sanitised key text.now) ≤ length store.old }
    ensures { (result ≡ length (sanitised key text.now)) × (store.new ≡ pasted store.old at (sanitised key text.now)) }
{
    let part = trims::trim(text);
    scrub_into(&mut store[at..], part, key)
}

// How many octets sanitising leaves of a trimmed text.
fn scrubbed_length(part: &[u8], key: bool) -> usize
    ensures { result ≡ length (scrubbed key part.now) }
{
    let mut n = 0;
    for x in part {
        if !is_dropped(*x, key) {
            n += 1;
        }
    }
    n
}

// How long the sanitised form of a text is.
pub fn sanitised_length(text: &[u8], key: bool) -> usize
    ensures { result ≡ length (sanitised key text.now) }
{
    let part = trims::trim(text);
    scrubbed_length(part, key)
}

// Whether a name is, but for ASCII case, what sanitising a key leaves of a trimmed text.
fn matches_scrubbed(name: &[u8], part: &[u8]) -> bool
    ensures { result ≡ same_name name.now (scrubbed true part.now) }
{
    let kept = part.iter().filter(|x| !is_dropped(**x, true));
    let wanted = kept.map(|x| names::lower(no_break(*x)));
    name.iter().map(|x| names::lower(*x)).eq(wanted)
}

// Whether a name is, but for ASCII case, the sanitised form of a raw key.
pub fn matches_sanitised(name: &[u8], raw: &[u8]) -> bool
    ensures { result ≡ same_name name.now (sanitised true raw.now) }
{
    let part = trims::trim(raw);
    matches_scrubbed(name, part)
}
