// The grammar test: whether octets are a header by the standard's grammar.
#![tactic(auto)]

ghost use Rattle.std.specs.Prelude.{◌≡◌};
ghost use Rattle.leaves.specs.Class.{Classified};
ghost use Rattle.grammar.specs.Walk.{opened, folded, keyed, texted, awaited, next, is_over, walk, is_version, grammatical};

use leaves::classes;

// Where a walk over the lines behind the version line stands: at the first line, at a line behind a field (which may be a folded one),
// inside a key, inside a text, behind a text's CR, behind the blank line's CR, behind the blank line, or where no header goes on.
#[derive(Clone, Copy)]
enum Stage {
    First,
    Line,
    Key,
    Text,
    Return,
    Closing,
    Over,
    Wrong,
}

// A line begins that is a field's or the blank one.
#[tactic(auto, using(leaves::proofs::ChoiceLaws::choices), unfolding(crate::specs::Walk::opened))]
fn open_line(t: &[u8; 256], x: u8) -> Stage
    requires { Classified t.now }
    ensures { result ≡ opened x }
{
    match x {
        _ if classes::is_token(t, x) => Stage::Key,
        b'\r' => Stage::Closing,
        _ => Stage::Wrong,
    }
}

// A line begins that may be a folded one too.
#[tactic(auto, using(leaves::proofs::ChoiceLaws::choices), unfolding(crate::specs::Walk::folded))]
fn fold_line(t: &[u8; 256], x: u8) -> Stage
    requires { Classified t.now }
    ensures { result ≡ folded x }
{
    match x {
        b' ' | b'\t' => Stage::Text,
        _ => open_line(t, x),
    }
}

#[tactic(auto, using(leaves::proofs::ChoiceLaws::choices), unfolding(crate::specs::Walk::keyed))]
fn take_key(t: &[u8; 256], x: u8) -> Stage
    requires { Classified t.now }
    ensures { result ≡ keyed x }
{
    match x {
        _ if classes::is_token(t, x) => Stage::Key,
        b':' => Stage::Text,
        _ => Stage::Wrong,
    }
}

#[tactic(auto, using(leaves::proofs::ChoiceLaws::choices), unfolding(crate::specs::Walk::texted))]
fn take_text(t: &[u8; 256], x: u8) -> Stage
    requires { Classified t.now }
    ensures { result ≡ texted x }
{
    match x {
        _ if classes::is_text(t, x) => Stage::Text,
        b'\r' => Stage::Return,
        _ => Stage::Wrong,
    }
}

// Behind a CR only LF goes on.
#[tactic(auto, using(leaves::proofs::ChoiceLaws::choices), unfolding(crate::specs::Walk::awaited))]
fn await_lf(onward: Stage, x: u8) -> Stage
    ensures { result ≡ awaited onward x }
{
    if x == b'\n' { onward } else { Stage::Wrong }
}

fn next(t: &[u8; 256], stage: Stage, x: u8) -> Stage
    requires { Classified t.now }
    ensures { result ≡ next stage x }
{
    match stage {
        Stage::First => open_line(t, x),
        Stage::Line => fold_line(t, x),
        Stage::Key => take_key(t, x),
        Stage::Text => take_text(t, x),
        Stage::Return => await_lf(Stage::Line, x),
        Stage::Closing => await_lf(Stage::Over, x),
        Stage::Over | Stage::Wrong => Stage::Wrong,
    }
}

fn is_over(stage: Stage) -> bool
    ensures { result ≡ is_over stage }
{
    matches!(stage, Stage::Over)
}

// Whether the octets are fields and the blank line.
fn are_fields(t: &[u8; 256], lines: &[u8]) -> bool
    requires { Classified t.now }
    ensures { result ≡ walk Stage.First lines.now }
{
    let mut stage = Stage::First;
    for x in lines {
        stage = next(t, stage, *x);
    }
    is_over(stage)
}

fn is_version(line: &[u8]) -> bool
    ensures { result ≡ is_version line.now }
{
    equals::same_octets(line, b"WARC/1.0\r\n") || equals::same_octets(line, b"WARC/1.1\r\n")
}

// Whether the octets are a header by the grammar: the version line, fields with their folded lines, the blank line, and nothing behind it.
pub fn grammatical(octets: &[u8]) -> bool
    ensures { result ≡ grammatical octets.now }
{
    if octets.len() < 10 {
        return false;
    }
    is_version(&octets[..10]) && are_fields(&classes::table(), &octets[10..])
}
