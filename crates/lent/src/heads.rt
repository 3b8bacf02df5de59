// The head's thirteen numbers.
ghost use Rattle.std.specs.Prelude.{◌≡◌, true, length};
ghost use Rattle.maps.specs.Heads.{unmade_head};
ghost use Rattle.lent.specs.Numbers.{flag_of, phase_number, status_kind, status_from, status_to, head_numbers, status_of, phase_of, head_of, sound_status, sound_head};

use maps::{BlockOffset, Head, Phase, Place, StoreOffset};

// How many numbers a head is.
pub const HEAD: usize = 13;

fn is_sound_status(kind: u64, from: u64, to: u64) -> bool
    ensures { result ≡ sound_status kind from to }
{
    if kind == 0 {
        return from == 0 && to == 0;
    }
    if kind <= 2 {
        return from < 4294967296 && to < 4294967296;
    }
    false
}

// Whether numbers are a head's. One test after the other: a chain of `&&` joins them to values that the prover has no name for.
pub fn is_sound(n: &[u64]) -> bool
    ensures { result ≡ sound_head n.now }
{
    if n.len() != HEAD {
        return false;
    }
    if !is_sound_status(n[6], n[7], n[8]) {
        return false;
    }
    if n[9] > 1 {
        return false;
    }
    if n[10] > 1 {
        return false;
    }
    if n[11] > 1 {
        return false;
    }
    n[12] <= 1
}

fn status_of(kind: u64, from: u64, to: u64) -> Option<Place>
    requires { sound_status kind from to ≡ true }
    ensures { result ≡ status_of kind from to }
{
    if kind == 0 {
        return None;
    }
    if kind == 1 {
        return Some(Place::Block(BlockOffset(from as u32), BlockOffset(to as u32)));
    }
    Some(Place::Store(StoreOffset(from as u32), StoreOffset(to as u32)))
}

fn phase_of(n: u64) -> Phase
    ensures { result ≡ phase_of n }
{
    if n == 1 { Phase::Reading } else { Phase::Done }
}

// The head that numbers are.
#[tactic(auto, using(crate::proofs::LentLaws::head_long))]
pub fn head_at(n: &[u64]) -> Head
    requires { sound_head n.now ≡ true }
    ensures { result ≡ head_of n.now }
{
    Head {
        limit: n[0] as usize,
        room: n[1] as usize,
        count: n[2] as usize,
        line: n[3] as usize,
        mark: n[4] as usize,
        fields: n[5] as usize,
        status: status_of(n[6], n[7], n[8]),
        awaits: n[9] == 1,
        quirks: n[10] == 1,
        edited: n[11] == 1,
        phase: phase_of(n[12]),
    }
}

fn kind_of(s: Option<Place>) -> u64
    ensures { result ≡ status_kind s }
{
    match s {
        None => 0,
        Some(Place::Block(_, _)) => 1,
        Some(Place::Store(_, _)) => 2,
    }
}

fn from_of(s: Option<Place>) -> u64
    ensures { result ≡ status_from s }
{
    match s {
        None => 0,
        Some(Place::Block(a, _)) => u64::from(a.0),
        Some(Place::Store(a, _)) => u64::from(a.0),
    }
}

fn to_of(s: Option<Place>) -> u64
    ensures { result ≡ status_to s }
{
    match s {
        None => 0,
        Some(Place::Block(_, e)) => u64::from(e.0),
        Some(Place::Store(_, e)) => u64::from(e.0),
    }
}

fn flag_of(b: bool) -> u64
    ensures { result ≡ flag_of b }
{
    u64::from(b)
}

fn number_of(p: Phase) -> u64
    ensures { result ≡ phase_number p }
{
    match p {
        Phase::Reading => 1,
        Phase::Done => 0,
    }
}

// Puts a head's numbers.
pub fn put_head(n: &mut [u64], h: Head)
    requires { length n.old ≡ 13 }
    ensures { n.new ≡ head_numbers h }
{
    n[0] = h.limit as u64;
    n[1] = h.room as u64;
    n[2] = h.count as u64;
    n[3] = h.line as u64;
    n[4] = h.mark as u64;
    n[5] = h.fields as u64;
    n[6] = kind_of(h.status);
    n[7] = from_of(h.status);
    n[8] = to_of(h.status);
    n[9] = flag_of(h.awaits);
    n[10] = flag_of(h.quirks);
    n[11] = flag_of(h.edited);
    n[12] = number_of(h.phase);
}

// The head of the first map of a caller.
pub fn unmade() -> Head
    ensures { result ≡ unmade_head }
{
    Head {
        limit: 0,
        room: 0,
        count: 0,
        line: 0,
        mark: 0,
        fields: 0,
        status: None,
        awaits: false,
        quirks: false,
        edited: false,
        phase: Phase::Done,
    }
}
