// Clean texts: keys, values and status lines.
ghost use Rattle.std.specs.Prelude.{◌≡◌};
ghost use Rattle.leaves.specs.Octets.{has};
ghost use Rattle.rebuilds.specs.Clean.{neat, clean_pair, clean_status};
ghost use Rattle.tidy.specs.Keys.{clean_key};

use leaves::trims;

fn holds(text: &[u8], wanted: u8) -> bool
    ensures { result ≡ has wanted text.now }
{
    lines::find_octet(text, 0, wanted) < text.len()
}

// Neither CR nor LF nor an outer blank.
pub fn is_neat(text: &[u8]) -> bool
    ensures { result ≡ neat text.now }
{
    if holds(text, 13) {
        return false;
    }
    if holds(text, 10) {
        return false;
    }
    let inner = trims::trim(text);
    inner.len() == text.len()
}

// Neat, and not empty.
#[tactic(auto, using(crate::proofs::TextLaws::bare_status, crate::proofs::TextLaws::full_status))]
pub fn is_clean_status(text: &[u8]) -> bool
    ensures { result ≡ clean_status (Some text.now) }
{
    if text.len() == 0 {
        return false;
    }
    is_neat(text)
}

fn is_clean_key(key: &[u8]) -> bool
    ensures { result ≡ clean_key key.now }
{
    if key.len() == 0 {
        return false;
    }
    if holds(key, 58) {
        return false;
    }
    is_neat(key)
}

pub fn is_clean_pair<'a>(key: &'a [u8], value: &'a [u8]) -> bool
    ensures { result ≡ clean_pair (record { key = key.now; value = value.now }) }
{
    if is_clean_key(key) {
        return is_neat(value);
    }
    false
}
