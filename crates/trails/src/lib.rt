// A walker's trail in four lent numbers: its position, what is left of a body, the last header's position, and where it stands.
#![tactic(auto)]

ghost use Rattle.std.specs.Prelude.{◌≡◌, length};
ghost use Rattle.leaves.specs.Refusals.{refusal};
ghost use Rattle.trails.specs.Trail.{staged, low_stage, stage_of, trail_numbers, trail_of, sound_trail};

use leaves::refusals;
use leaves::refusals::Refusal;
use walker::{Stage, Trail};

// How many numbers a trail is.
pub const TRAIL: usize = 4;

// Whether numbers are a trail's.
#[tactic(auto, unfolding(crate::specs::Trail::sound_trail))]
pub fn is_sound(n: &[u64]) -> bool
    ensures { result ≡ sound_trail n.now }
{
    n.len() == TRAIL && n[3] < 21
}

// Not a From, since neither Stage nor u64 is of this crate.
fn stage_number(stage: Stage) -> u64
    ensures { result ≡ staged stage }
{
    match stage {
        Stage::Between => 0,
        Stage::Header => 1,
        Stage::Body => 2,
        Stage::Cr => 3,
        Stage::Lf => 4,
        Stage::LastCr => 5,
        Stage::LastLf => 6,
        Stage::Ended => 7,
        Stage::Stopped(e) => 7 + (refusals::number(e) as u64),
    }
}

fn refusal_of(n: u64) -> Refusal
    ensures { result ≡ refusal n }
{
    match n {
        1 => Refusal::BadRooms,
        2 => Refusal::ShortLoan,
        3 => Refusal::BadMap,
        4 => Refusal::BlockFull,
        5 => Refusal::FieldsFull,
        6 => Refusal::StoreFull,
        7 => Refusal::WrongPhase,
        8 => Refusal::ShortOutput,
        9 => Refusal::BadVersion,
        10 => Refusal::BadLength,
        11 => Refusal::BadTrailer,
        12 => Refusal::CutShort,
        _ => Refusal::TooFar,
    }
}

#[tactic(auto, using(leaves::proofs::ChoiceLaws::choices), unfolding(crate::specs::Trail::low_stage))]
fn low_stage(n: u64) -> Stage
    ensures { result ≡ low_stage n }
{
    match n {
        0 => Stage::Between,
        1 => Stage::Header,
        2 => Stage::Body,
        3 => Stage::Cr,
        4 => Stage::Lf,
        5 => Stage::LastCr,
        6 => Stage::LastLf,
        _ => Stage::Ended,
    }
}

fn stage_of(n: u64) -> Stage
    ensures { result ≡ stage_of n }
{
    if n < 8 {
        low_stage(n)
    } else {
        Stage::Stopped(refusal_of(n - 7))
    }
}

// The trail that numbers are.
pub fn trail_at(n: &[u64]) -> Trail
    requires { length n.now ≡ 4 }
    ensures { result ≡ trail_of n.now }
{
    Trail {
        position: n[0],
        rest: n[1],
        stage: stage_of(n[3]),
        start: n[2],
    }
}

// Puts a trail's numbers.
pub fn put_trail(n: &mut [u64], w: Trail)
    requires { length n.old ≡ 4 }
    ensures { n.new ≡ trail_numbers w }
{
    n[0] = w.position;
    n[1] = w.rest;
    n[2] = w.start;
    n[3] = stage_number(w.stage);
}
