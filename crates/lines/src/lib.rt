// Lines: where one ends in a piece, the first place of an octet, copying into the block, and the form that most lines have.
#![tactic(auto)]

ghost use Rattle.std.specs.Prelude.{◌≡◌, cond, ◌||◌, eqb, ◌+◌, ◌-◌, ◌≤◌, ◌<◌, max, length, take, drop};
ghost use Rattle.leaves.specs.Octets.{has, before, Skipped};
ghost use Rattle.leaves.specs.Paste.{pasted};
ghost use Rattle.lines.specs.Line.{ends_line, cr_before, Takes, cr_at, line_end, tight};

fn is_cr(x: u8) -> bool
    ensures { result ≡ eqb x 13 }
{
    x == b'\r'
}

// Whether the line from start on, up to count, ends with CR.
#[tactic(auto, unfolding(crate::specs::Line::cr_before))]
fn cr_before(block: &[u8], start: usize, count: usize) -> bool
    requires { count ≤ length block.now }
    ensures { result ≡ cr_before block.now start count }
{
    start < count && is_cr(block[count - 1])
}

// What an octet is worth in a search: left where it is the wanted one, else nothing.
fn worth(x: u8, wanted: u8, left: u8) -> u8
    ensures { result ≡ cond (eqb x wanted) left 0 }
{
    if x == wanted { left } else { 0 }
}

fn larger(a: u8, b: u8) -> u8
    ensures { result ≡ max a b }
{
    a.max(b)
}

// How many of the 64 octets from at on stand before the first wanted one, 64 for none. The loop has 64 turns and no early end, so
// it is compiled to comparisons of vectors of octets; fewer turns, or a wider best or left, would not be.
fn before_in_64(s: &[u8], at: usize, wanted: u8) -> usize
    requires { at + 64 ≤ length s.now }
    ensures { result ≡ before wanted (take 64 (drop at s.now)) }
{
    let mut best: u8 = 0;
    let mut left: u8 = 64;
    for j in 0..64 {
        best = larger(best, worth(s[at + j], wanted, left));
        left -= 1;
    }
    64 - best as usize
}

fn or_equal(hit: bool, x: u8, wanted: u8) -> bool
    ensures { result ≡ (hit || eqb x wanted) }
{
    hit || x == wanted
}

// Whether one of the 64 octets from at on is the wanted one: cheaper than its place, and compiled to vectors too.
fn any_in_64(s: &[u8], at: usize, wanted: u8) -> bool
    requires { at + 64 ≤ length s.now }
    ensures { result ≡ has wanted (take 64 (drop at s.now)) }
{
    let mut hit = false;
    for j in 0..64 {
        hit = or_equal(hit, s[at + j], wanted);
    }
    hit
}

// The first place of an octet from from on, or the length: octet by octet.
fn next_octet(s: &[u8], from: usize, wanted: u8) -> usize
    requires { from ≤ length s.now }
    ensures { result ≡ from + before wanted (drop from s.now) }
{
    for i in from..s.len() {
        if s[i] == wanted {
            return i;
        }
    }
    s.len()
}

// Passes over groups of 64 octets without the wanted one: to the first that has it, or to fewer than 64 octets. A `step_by` would not tell
// where it ended.
fn skip_64(s: &[u8], from: usize, wanted: u8) -> usize
    requires { from ≤ length s.now }
    ensures { Skipped wanted s.now from 64 result }
{
    let mut i = from;
    while 64 <= s.len() - i {
        if any_in_64(s, i, wanted) {
            return i;
        }
        i += 64;
    }
    i
}

// The first place of an octet from from on, or the length, where it is not expected near: by groups of 64.
fn find_far(s: &[u8], from: usize, wanted: u8) -> usize
    requires { from ≤ length s.now }
    ensures { result ≡ from + before wanted (drop from s.now) }
{
    let i = skip_64(s, from, wanted);
    if 64 <= s.len() - i {
        return i + before_in_64(s, i, wanted);
    }
    next_octet(s, i, wanted)
}

// The first place of an octet from from on, or the length. Most are near, so the first group is searched for the place at once.
pub fn find_octet(s: &[u8], from: usize, wanted: u8) -> usize
    requires { from ≤ length s.now }
    ensures { result ≡ from + before wanted (drop from s.now) }
{
    if 64 <= s.len() - from {
        let k = before_in_64(s, from, wanted);
        if k < 64 {
            return from + k;
        }
        return find_far(s, from + 64, wanted);
    }
    next_octet(s, from, wanted)
}

// How many of the n octets from at on stand before the first wanted one, n for none. It may look at octets behind the n: one
// search of 64 then does for a short part too.
pub fn before_within(s: &[u8], at: usize, n: usize, wanted: u8) -> usize
    requires { at + n ≤ length s.now }
    ensures { result ≡ before wanted (take n (drop at s.now)) }
{
    let end = at + n;
    if 64 <= s.len() - at {
        let k = before_in_64(s, at, wanted);
        if n <= k {
            return n;
        }
        if k < 64 {
            return k;
        }
        return find_far(&s[..end], at + 64, wanted) - at;
    }
    next_octet(&s[..end], at, wanted) - at
}

// Whether the octet before place j is CR; before the first it is told.
fn cr_at(s: &[u8], cr: bool, j: usize) -> bool
    requires { j ≤ length s.now }
    ensures { result ≡ cr_at cr s.now j }
{
    if j == 0 { cr } else { is_cr(s[j - 1]) }
}

// The place of the octet that ends the line, or the length. From LF to LF: no count, so no `for`.
fn line_end(s: &[u8], cr: bool, quirks: bool) -> usize
    ensures { result ≡ line_end quirks cr s.now }
{
    let mut i = 0;
    while i < s.len() {
        let j = find_octet(s, i, 10);
        if s.len() <= j {
            return j;
        }
        if quirks || cr_at(s, cr, j) {
            return j;
        }
        i = j + 1;
    }
    i
}

// The sixteen octets from at on.
fn sixteen(text: &[u8], at: usize) -> [u8; 16]
    requires { at + 16 ≤ length text.now }
    ensures { result ≡ take 16 (drop at text.now) }
{
    let mut group = [0u8; 16];
    for j in 0..16 {
        group[j] = text[at + j];
    }
    group
}

// Writes sixteen octets at at.
fn put_sixteen(out: &mut [u8], at: usize, group: [u8; 16])
    requires { at + 16 ≤ length out.old }
    ensures { out.new ≡ pasted out.old at group }
{
    for j in 0..16 {
        out[at + j] = group[j];
    }
}

// Copies sixteen octets of a text to the same place of out. They go through an array, which can overlap neither, so this is
// compiled to one load and one store of a vector.
fn copy_sixteen(out: &mut [u8], text: &[u8], at: usize)
    requires { (at + 16 ≤ length text.now) × (length text.now ≤ length out.old) }
    ensures { out.new ≡ pasted out.old at (take 16 (drop at text.now)) }
{
    let group = sixteen(text, at);
    put_sixteen(out, at, group);
}

// Writes a text over the start of out, octet by octet.
fn copy_short(out: &mut [u8], text: &[u8])
    requires { length text.now ≤ length out.old }
    ensures { out.new ≡ pasted out.old 0 text.now }
{
    for i in 0..text.len() {
        out[i] = text[i];
    }
}

// The same for a text of 16 to 64 octets, with no loop: two groups, or four, of which the latter overlap the former.
fn copy_middle(out: &mut [u8], text: &[u8])
    requires { (16 ≤ length text.now) × (length text.now ≤ 64) × (length text.now ≤ length out.old) }
    ensures { out.new ≡ pasted out.old 0 text.now }
{
    let n = text.len();
    copy_sixteen(out, text, 0);
    if n <= 32 {
        copy_sixteen(out, text, n - 16);
        return;
    }
    copy_sixteen(out, text, 16);
    copy_sixteen(out, text, n - 32);
    copy_sixteen(out, text, n - 16);
}

// The same for a text of 16 octets or more; the last group may overlap the one before. A `step_by` would not tell how far the groups reach.
fn copy_long(out: &mut [u8], text: &[u8])
    requires { (16 ≤ length text.now) × (length text.now ≤ length out.old) }
    ensures { out.new ≡ pasted out.old 0 text.now }
{
    let last = text.len() - 16;
    let mut i = 0;
    while i < last {
        copy_sixteen(out, text, i);
        i += 16;
    }
    copy_sixteen(out, text, last);
}

// Writes a text over the start of out.
pub fn copy_in(out: &mut [u8], text: &[u8])
    requires { length text.now ≤ length out.old }
    ensures { out.new ≡ pasted out.old 0 text.now }
{
    let n = text.len();
    if n < 16 {
        copy_short(out, text);
        return;
    }
    if n <= 64 {
        copy_middle(out, text);
        return;
    }
    copy_long(out, text);
}

// Whether c octets without a blank at either end, the octet at c, one space, octets without a blank at either end, CR and LF make
// up the line: few comparisons, for the form that nearly every line has.
#[tactic(auto, unfolding(crate::specs::Line::tight))]
pub fn is_tight(line: &[u8], c: usize) -> bool
    ensures { result ≡ tight c line.now }
{
    let n = line.len();
    c >= 1
        && n >= 5
        && n - 5 >= c
        && line[n - 1] == b'\n'
        && line[n - 2] == b'\r'
        && line[n - 3] > b' '
        && line[c + 1] == b' '
        && line[c + 2] > b' '
        && line[c - 1] > b' '
        && line[0] > b' '
}

// Why taking stopped, with the number of octets taken: a line ended, the piece did, or the limit was met.
#[derive(Clone, Copy)]
pub enum Took {
    Line(usize),
    More(usize),
    Full(usize),
}

// Takes octets of rest into out until a line ends.
fn fill_line(out: &mut [u8], rest: &[u8], before: bool, quirks: bool) -> Took
    ensures { Takes quirks before (length out.old) 0 rest.now out.old out.new result }
{
    let j = line_end(rest, before, quirks);
    let room = out.len();
    if j < rest.len() {
        if j < room {
            let n = j + 1;
            copy_in(out, &rest[..n]);
            return Took::Line(n);
        }
        copy_in(out, &rest[..room]);
        return Took::Full(room);
    }
    let n = rest.len();
    if n <= room {
        copy_in(out, rest);
        return Took::More(n);
    }
    copy_in(out, &rest[..room]);
    Took::Full(room)
}

// Takes octets of the piece into the block until a line ends, the piece does, or the count is the limit.
pub fn take_line(
    piece: &[u8],
    from: usize,
    block: &mut [u8],
    count: usize,
    limit: usize,
    line_start: usize,
    quirks: bool,
) -> Took
    requires { (from ≤ length piece.now) × (count ≤ limit) × (limit ≤ length block.old) }
    ensures { Takes quirks (cr_before block.old line_start count) (limit - count) count (drop from piece.now) block.old block.new result }
{
    let cr = cr_before(block, line_start, count);
    let rest = &piece[from..];
    fill_line(&mut block[count..limit], rest, cr, quirks)
}
