// Trimming: the blank-free part of a line.
ghost use Rattle.std.specs.Prelude.{◌≡◌};
ghost use Rattle.std.specs.List.{prefix_len, suffix_len};
ghost use Rattle.leaves.specs.Class.{blank};
ghost use Rattle.leaves.specs.Trim.{trim_end, Trimming, Trimmed};

use crate::classes;

// A part of a slice: from start to before end.
#[derive(Clone, Copy, Debug, PartialEq, Eq)]
pub struct Span {
    pub start: usize,
    pub end: usize,
}

// How many blanks the line begins with.
fn count_leading(line: &[u8]) -> usize
    ensures { result ≡ prefix_len blank line.now }
{
    line.iter().take_while(|x| classes::is_blank(**x)).count()
}

// How many blanks the line ends with.
fn count_trailing(line: &[u8]) -> usize
    ensures { result ≡ suffix_len blank line.now }
{
    line.iter()
        .rev()
        .take_while(|x| classes::is_blank(**x))
        .count()
}

// The place after the last octet that is no blank, or 0.
#[tactic(auto, using(crate::proofs::TrimLaws::end_from_back, crate::proofs::TrimLaws::suffix_within))]
fn find_end(line: &[u8]) -> usize
    ensures { result ≡ trim_end line.now }
{
    line.len() - count_trailing(line)
}

// Where the blank-free part lies; the empty part at the line's start where all is blank.
pub fn trim_bounds(line: &[u8]) -> Span
    ensures { Trimming line.now result }
{
    let end = find_end(line);
    let start = count_leading(line);
    if start < end {
        Span { start, end }
    } else {
        Span { start: end, end }
    }
}

// The blank-free part of the line.
pub fn trim(line: &[u8]) -> &[u8]
    ensures { Trimmed line.now line.entry.ref_ptr result.now result.ref_ptr }
{
    let Span { start, end } = trim_bounds(line);
    &line[start..end]
}
