// A walker but for its map: the trail. What a call does on it is the same for a map by value and for one that is lent.
ghost use Rattle.std.specs.Prelude.{◌≡◌, true, ◌+◌, ◌≤◌, min, length, take, drop};
ghost use Rattle.walker.specs.declared.Stage.TheVariants.{Stopped};
ghost use Rattle.walker.specs.Walk.{stands as standing, stops_at, stops_inside, resting, ready_at, allowed as allowedOf, body_walked, common as commonOf, onward as onwardTo, trailer_stage, trailer_ended, trailer_walked, opened_at, header_more, between_walked, header_walked, walked_on, stage_ended};
ghost use Rattle.walker.specs.Trails.{Follows, kept_head, at_stage, way_of, TurningAt, Turning, Turns, checked_rest, headed_walked, Ends};

use crate::{FURTHEST, Headed, Kept, Stage, Step, Trail, Trailed, Turn, Way};
use leaves::refusals::Refusal;
use maps::{Head, Phase};

fn rests(stage: Stage) -> Result<bool, Refusal>
    ensures { result ≡ resting stage }
{
    match stage {
        Stage::Stopped(e) => Err(e),
        Stage::Ended => Ok(false),
        _ => Ok(true),
    }
}

// Whether a map's phase is the one that a stage wants: reading just inside a header.
pub fn ready_at(stage: Stage, phase: Phase) -> bool
    ensures { result ≡ ready_at stage phase }
{
    match stage {
        Stage::Header => maps::is_reading(phase),
        _ => maps::is_done(phase),
    }
}

// What a call keeps of the map's head.
pub fn kept_head(h: Head, kept: Kept) -> Head
    ensures { result ≡ kept_head kept h }
{
    match kept {
        Kept::Same => h,
        Kept::Emptied => reader::empty_head(h.limit, h.room, false, false, Phase::Done),
        Kept::Fresh => reader::empty_head(h.limit, h.room, true, false, Phase::Reading),
    }
}

// A trail at another stage.
fn at_stage(
    t: Trail,
    stage: Stage,
    taken: usize,
    step: Result<Step, Refusal>,
    kept: Kept,
) -> Trailed
    ensures { result ≡ at_stage t stage taken step kept }
{
    Trailed {
        trail: Trail { stage, ..t },
        taken,
        step,
        kept,
    }
}

fn stand(t: Trail, step: Result<Step, Refusal>) -> Trailed
    ensures { Follows t result (λ w. standing w step) }
{
    Trailed {
        trail: t,
        taken: 0,
        step,
        kept: Kept::Same,
    }
}

fn stop(t: Trail, e: Refusal) -> Trailed
    ensures { Follows t result (λ w. stops_at w e) }
{
    at_stage(t, Stage::Stopped(e), 0, Err(e), Kept::Same)
}

fn stop_inside(t: Trail, e: Refusal) -> Trailed
    ensures { Follows t result (λ w. stops_inside w e) }
{
    at_stage(t, Stage::Stopped(e), 0, Err(e), Kept::Emptied)
}

// How many octets of a piece of n may be taken at a position.
fn allowed(position: u64, n: usize) -> usize
    ensures { result ≡ allowedOf position n }
{
    if position < FURTHEST {
        return n.min((FURTHEST - position) as usize);
    }
    0
}

// A body of which octets are left; k octets of the piece may be taken.
fn walk_body(t: Trail, k: usize) -> Trailed
    requires { t.position + k ≤ 18446744073709551615 }
    ensures { Follows t result (λ w. body_walked w k) }
{
    if k == 0 {
        return stop(t, Refusal::TooFar);
    }
    let n = k.min(t.rest as usize);
    Trailed {
        trail: Trail {
            position: t.position + (n as u64),
            rest: t.rest - (n as u64),
            stage: Stage::Body,
            start: t.start,
        },
        taken: n,
        step: Ok(Step::Body),
        kept: Kept::Same,
    }
}

// How many octets two texts have in common from their beginning.
fn common(x: &[u8], y: &[u8]) -> usize
    ensures { result ≡ commonOf x.now y.now }
{
    let n = x.len().min(y.len());
    for i in 0..n {
        if x[i] != y[i] {
            return i;
        }
    }
    n
}

#[tactic(auto, using(leaves::proofs::ChoiceLaws::choices))]
fn trailer_stage(k: usize) -> Stage
    ensures { result ≡ trailer_stage k }
{
    match k {
        0 => Stage::Cr,
        1 => Stage::Lf,
        2 => Stage::LastCr,
        _ => Stage::LastLf,
    }
}

// A trail n octets further on.
fn onward(t: Trail, stage: Stage, n: usize, step: Result<Step, Refusal>) -> Trailed
    requires { t.position + n ≤ 18446744073709551615 }
    ensures { Follows t result (λ w. onwardTo w stage n step) }
{
    Trailed {
        trail: Trail {
            position: t.position + (n as u64),
            stage,
            ..t
        },
        taken: n,
        step,
        kept: Kept::Same,
    }
}

// The same, stopped there.
fn halt(t: Trail, e: Refusal, n: usize) -> Trailed
    requires { t.position + n ≤ 18446744073709551615 }
    ensures { Follows t result (λ w. onwardTo w (Stopped e) n (Err e)) }
{
    onward(t, Stage::Stopped(e), n, Err(e))
}

// The trailer from its octet number past on, of which the piece has the octets same in common, of k that may be taken.
fn end_trailer(t: Trail, past: usize, k: usize, n: usize, same: usize) -> Trailed
    requires { (t.position + k ≤ 18446744073709551615) × (same ≤ k) × (past + same ≤ 4) }
    ensures { Follows t result (λ w. trailer_ended w past k n same) }
{
    if past + same == 4 {
        return onward(t, Stage::Between, same, Ok(Step::More));
    }
    if same < k {
        return halt(t, Refusal::BadTrailer, same);
    }
    if k < n {
        return halt(t, Refusal::TooFar, same);
    }
    onward(t, trailer_stage(past + same), same, Ok(Step::More))
}

// How many octets of the first k of a piece the trailer wants, from its octet number past on.
fn trailer_octets(trailer: &[u8], past: usize, piece: &[u8], k: usize) -> usize
    requires { (past ≤ length trailer.now) × (k ≤ length piece.now) }
    ensures { result ≡ commonOf (drop past trailer.now) (take k piece.now) }
{
    common(&trailer[past..], &piece[0..k])
}

// A trailer of which past octets were taken; k octets of the piece may be taken.
fn walk_trailer(t: Trail, past: usize, k: usize, piece: &[u8]) -> Trailed
    requires { (past ≤ 4) × (k ≡ allowedOf t.position (length piece.now)) }
    ensures { Follows t result (λ w. trailer_walked w past piece.now) }
{
    let same = trailer_octets(b"\r\n\r\n", past, piece, k);
    end_trailer(t, past, k, piece.len(), same)
}

// Which way a walker goes that neither stopped nor ended. A body of which nothing is left is a trailer that begins.
#[tactic(auto, using(leaves::proofs::ChoiceLaws::choices))]
fn way_of(stage: Stage, rest: u64) -> Way
    ensures { result ≡ way_of stage rest }
{
    match stage {
        Stage::Between => Way::Begins,
        Stage::Header => Way::GoesOn,
        Stage::Body if rest == 0 => Way::Trails(0),
        Stage::Cr => Way::Trails(0),
        Stage::Lf => Way::Trails(1),
        Stage::LastCr => Way::Trails(2),
        Stage::LastLf => Way::Trails(3),
        Stage::Body | Stage::Ended | Stage::Stopped(_) => Way::Passes,
    }
}

// Before a header's first octet; k octets of the piece may be taken.
fn begin_header(t: Trail, k: usize) -> Turn
    ensures { TurningAt t k result between_walked }
{
    if k == 0 {
        return Turn::Stays(stop(t, Refusal::TooFar));
    }
    Turn::Reads(Kept::Fresh, t.position, k)
}

// Inside a header.
fn resume_header(t: Trail, k: usize) -> Turn
    ensures { TurningAt t k result header_walked }
{
    if k == 0 {
        return Turn::Stays(stop_inside(t, Refusal::TooFar));
    }
    Turn::Reads(Kept::Same, t.start, k)
}

// A turn after the first checks.
fn turn_on(t: Trail, piece: &[u8]) -> Turn
    requires { resting t.stage ≡ Ok true }
    ensures { Turning t piece.now result (λ w b s. walked_on w b s piece.now) }
{
    if piece.len() == 0 {
        return Turn::Stays(stand(t, Ok(Step::More)));
    }
    let k = allowed(t.position, piece.len());
    match way_of(t.stage, t.rest) {
        Way::Begins => begin_header(t, k),
        Way::GoesOn => resume_header(t, k),
        Way::Passes => Turn::Stays(walk_body(t, k)),
        Way::Trails(past) => Turn::Stays(walk_trailer(t, past, k, piece)),
    }
}

// What a map's first checks say, or 3 for a rest that is too long.
#[tactic(auto, using(crate::proofs::TrailLaws::rest_long, crate::proofs::TrailLaws::rest_fits))]
fn check_rest(rest: u64, c: Result<(), Refusal>) -> Result<(), Refusal>
    ensures { result ≡ checked_rest rest c }
{
    if openings::CAP < rest {
        return Err(Refusal::BadMap);
    }
    c
}

// A turn at a piece; c is what the map's first checks say.
pub fn turn(t: Trail, c: Result<(), Refusal>, piece: &[u8]) -> Turn
    ensures { Turns t c piece.now result }
{
    match rests(t.stage) {
        Err(e) => Turn::Stays(stand(t, Err(e))),
        Ok(false) => Turn::Stays(stand(t, Ok(Step::End))),
        Ok(true) => match check_rest(t.rest, c) {
            Ok(()) => turn_on(t, piece),
            Err(e) => Turn::Stays(stop(t, e)),
        },
    }
}

// A header that goes on, the reader having had k of a piece of n octets.
fn carries_on(t: Trail, taken: usize, k: usize, n: usize) -> Trailed
    ensures { Follows t result (λ w. header_more w.map w.position w.rest w.start taken k n) }
{
    if k < n {
        return at_stage(
            t,
            Stage::Stopped(Refusal::TooFar),
            taken,
            Err(Refusal::TooFar),
            Kept::Emptied,
        );
    }
    at_stage(t, Stage::Header, taken, Ok(Step::More), Kept::Same)
}

// A header that ended.
fn opens(t: Trail, taken: usize, o: Result<(u64, u16), Refusal>) -> Trailed
    ensures { Follows t result (λ w. opened_at w.map w.position w.rest w.start taken o) }
{
    match o {
        Ok((size, kind)) => Trailed {
            trail: Trail {
                position: t.position,
                rest: size,
                stage: Stage::Body,
                start: t.start,
            },
            taken,
            step: Ok(Step::Record(t.start, t.position, size, kind)),
            kept: Kept::Same,
        },
        Err(e) => at_stage(t, Stage::Stopped(e), taken, Err(e), Kept::Same),
    }
}

// What a header came to, the reader having had k of a piece of n octets; the trail stands behind those that were taken.
pub fn behind_header(
    h: Result<Headed, Refusal>,
    t: Trail,
    taken: usize,
    k: usize,
    n: usize,
) -> Trailed
    ensures { Follows t result (λ w. headed_walked h w.map w.position w.rest w.start taken k n) }
{
    match h {
        Ok(Headed::Goes) => carries_on(t, taken, k, n),
        Ok(Headed::Opens(o)) => opens(t, taken, o),
        Ok(Headed::Input) => at_stage(t, Stage::Header, taken, Ok(Step::More), Kept::Same),
        Err(e) => at_stage(t, Stage::Stopped(e), taken, Err(e), Kept::Same),
    }
}

fn end_stage(t: Trail) -> Trailed
    ensures { Follows t result (λ w. stage_ended w.stage w) }
{
    match t.stage {
        Stage::Between => at_stage(t, Stage::Ended, 0, Ok(Step::End), Kept::Same),
        Stage::Header => stop_inside(t, Refusal::CutShort),
        Stage::Body | Stage::Cr | Stage::Lf | Stage::LastCr | Stage::LastLf => {
            stop(t, Refusal::CutShort)
        }
        Stage::Ended => stand(t, Ok(Step::End)),
        Stage::Stopped(e) => stand(t, Err(e)),
    }
}

// The file's end; c is what the map's first checks say.
pub fn end_trail(t: Trail, c: Result<(), Refusal>) -> Trailed
    ensures { Ends t c result }
{
    match rests(t.stage) {
        Err(e) => stand(t, Err(e)),
        Ok(false) => stand(t, Ok(Step::End)),
        Ok(true) => match check_rest(t.rest, c) {
            Ok(()) => end_stage(t),
            Err(e) => stop(t, e),
        },
    }
}
