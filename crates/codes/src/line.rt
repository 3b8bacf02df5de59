// The code and the reason that a status line's text says.
ghost use Rattle.std.specs.Prelude.{◌≡◌, ◌≤◌, length};
ghost use Rattle.codes.specs.Line.{is_http, behind_space, without_plus, small_number, status_code, reason_start};

use leaves::lengths;

fn is_http(text: &[u8]) -> bool
    ensures { result ≡ is_http text.now }
{
    if text.len() < 5 {
        return false;
    }
    equals::same_octets(&text[0..5], b"HTTP/")
}

// The place behind the first space from a place on.
fn behind_space(text: &[u8], from: usize) -> Option<usize>
    requires { from ≤ length text.now }
    ensures { result ≡ behind_space from text.now }
{
    let i = lines::find_octet(text, from, 32);
    if i < text.len() { Some(i + 1) } else { None }
}

#[tactic(auto, using(crate::proofs::LineLaws::plus_empty, crate::proofs::LineLaws::plus_tail, crate::proofs::LineLaws::plus_kept))]
fn without_plus<'a>(text: &'a [u8]) -> &'a [u8]
    ensures { result.now ≡ without_plus text.now }
{
    if text.len() == 0 {
        return text;
    }
    if text[0] == 43 {
        return &text[1..];
    }
    text
}

// The number of one or more digits, at most 65,535.
#[tactic(auto, using(crate::proofs::LineLaws::number_small, crate::proofs::LineLaws::number_large, crate::proofs::LineLaws::number_none))]
fn small_number(text: &[u8]) -> Option<u16>
    ensures { result ≡ small_number text.now }
{
    if lengths::is_decimal(text) {
        let n = lengths::content_length(text);
        if n <= 65535 {
            return Some(n as u16);
        }
    }
    None
}

// The status code of a status line.
pub fn code_of(text: &[u8]) -> Option<u16>
    ensures { result ≡ status_code text.now }
{
    if is_http(text) {
        let start = behind_space(text, 0)?;
        let end = lines::find_octet(text, start, 32);
        small_number(without_plus(&text[start..end]))
    } else {
        None
    }
}

// Where the reason of a status line starts.
pub fn reason_start(text: &[u8]) -> Option<usize>
    ensures { result ≡ reason_start text.now }
{
    if is_http(text) {
        let start = behind_space(text, 0)?;
        behind_space(text, start)
    } else {
        None
    }
}
