// The record walker: header, body, trailer, again.
#![tactic(auto)]

pub mod turns;

ghost use Rattle.std.specs.Prelude.{◌≡◌, ◌+◌, ◌≤◌, length};
ghost use Rattle.maps.specs.Good.{checked};
ghost use Rattle.maps.specs.Maps.{Is};
ghost use Rattle.openings.specs.Opening.{opening as openingOf};
ghost use Rattle.walker.specs.Walk.{starting, ready_at, header_read, walking, ending};
ghost use Rattle.walker.specs.Trails.{walker_of, trail_of, kept_map, with_map, Judged, headed_by};

use leaves::refusals::Refusal;
use line_reader::Answer;
use maps::HeaderMap;

// The first position that is too far.
pub const FURTHEST: u64 = 4611686018427387904;

// Where a walker stands: before a header's first octet, inside a header, in a body of which `rest` octets are left, before an octet of the
// trailer, at the end, or stopped by a number.
#[derive(Clone, Copy)]
pub enum Stage {
    Between,
    Header,
    Body,
    Cr,
    Lf,
    LastCr,
    LastLf,
    Ended,
    Stopped(Refusal),
}

// Start is the position of the last header's first octet.
#[derive(Clone, Copy)]
pub struct Walker {
    pub map: HeaderMap,
    pub position: u64,
    pub rest: u64,
    pub stage: Stage,
    pub start: u64,
}

// A record begun tells its start, its body's offset, its length and its type; the octets taken by a call that answers Body are a body part.
#[derive(Clone, Copy)]
pub enum Step {
    More,
    Record(u64, u64, u64, u16),
    Body,
    End,
}

#[derive(Clone, Copy)]
pub struct Walked {
    pub walker: Walker,
    pub taken: usize,
    pub step: Result<Step, Refusal>,
}

// A walker but for its map.
#[derive(Clone, Copy)]
pub struct Trail {
    pub position: u64,
    pub rest: u64,
    pub stage: Stage,
    pub start: u64,
}

// What a call keeps of the map: all, its rooms, or its rooms to read the next header.
#[derive(Clone, Copy)]
pub enum Kept {
    Same,
    Emptied,
    Fresh,
}

// What a call did on the trail.
#[derive(Clone, Copy)]
pub struct Trailed {
    pub trail: Trail,
    pub taken: usize,
    pub step: Result<Step, Refusal>,
    pub kept: Kept,
}

// Which way a walker goes: it begins a header or goes on with one, passes a body, or a trailer of which octets were taken.
#[derive(Clone, Copy)]
pub enum Way {
    Begins,
    GoesOn,
    Passes,
    Trails(usize),
}

// What a call has to do: no more, or to read octets of the piece, so many, of a header that begins at a position.
#[derive(Clone, Copy)]
pub enum Turn {
    Stays(Trailed),
    Reads(Kept, u64, usize),
}

// What the reader's answer came to, with what the map opens behind a blank line.
#[derive(Clone, Copy)]
pub enum Headed {
    Goes,
    Opens(Result<(u64, u16), Refusal>),
    Input,
}

fn trail_of(w: Walker) -> Trail
    ensures { result ≡ trail_of w }
{
    Trail {
        position: w.position,
        rest: w.rest,
        stage: w.stage,
        start: w.start,
    }
}

fn kept_map(m: HeaderMap, kept: Kept) -> HeaderMap
    ensures { result ≡ kept_map kept m }
{
    let h = turns::kept_head(m.head(), kept);
    HeaderMap::under(m.table, h)
}

// What a call gives that was made on the trail: the walker is built here for each of them, since a map that goes through a function is copied there.
fn with_map(m: HeaderMap, r: Trailed) -> Walked
    ensures { result ≡ with_map m r }
{
    let t = r.trail;
    Walked {
        walker: Walker {
            map: kept_map(m, r.kept),
            position: t.position,
            rest: t.rest,
            stage: t.stage,
            start: t.start,
        },
        taken: r.taken,
        step: r.step,
    }
}

// The map's first checks at a stage: 3, 2, 7.
fn check_map(m: HeaderMap, stage: Stage, block: usize, store: usize) -> Result<(), Refusal>
    ensures { result ≡ checked (ready_at stage m.phase) m block store }
{
    let ready = turns::ready_at(stage, m.phase);
    maps::check(m, ready, block, store)
}

// A walker's start over a map that is used again; refused, the map is left as it was.
pub fn start(m: HeaderMap, room: usize, position: u64, block: &[u8], store: &[u8]) -> Walked
    ensures { Is (starting m room position block.now store.now) result block.now store.now }
{
    let made = reader::begin(m, maps::DEFAULT_LIMIT, room, false, false, block, store);
    match made.answer {
        Ok(()) => Walked {
            walker: Walker {
                map: kept_map(made.map, Kept::Emptied),
                position,
                rest: 0,
                stage: Stage::Between,
                start: position,
            },
            taken: 0,
            step: Ok(Step::More),
        },
        Err(e) => Walked {
            walker: Walker {
                map: m,
                position,
                rest: 0,
                stage: Stage::Stopped(e),
                start: position,
            },
            taken: 0,
            step: Err(e),
        },
    }
}

// What an answer comes to. A map that was just fed was judged, and is good.
fn comes_to<'a>(
    answer: Result<Answer, Refusal>,
    m: HeaderMap,
    block: &'a [u8],
    store: &'a [u8],
) -> Result<Headed, Refusal>
    requires { Judged answer m block.now store.now }
    ensures { result ≡ headed_by answer (openingOf m block.now store.now) }
{
    match answer? {
        Answer::More => Ok(Headed::Goes),
        Answer::Blank => Ok(Headed::Opens(openings::open_good(m, block, store))),
        Answer::Input => Ok(Headed::Input),
    }
}

// Reads k octets of a piece into a map, of a header that begins at start.
fn read_header(
    t: Trail,
    m: HeaderMap,
    start: u64,
    k: usize,
    block: &mut [u8],
    store: &mut [u8],
    piece: &[u8],
) -> Walked
    requires { (k ≤ length piece.now) × (t.position + k ≤ 18446744073709551615) }
    ensures { Is (header_read (walker_of m t) m start k block.old store.old piece.now) result block.new store.new }
{
    let fed = reader::feed(m, block, store, &piece[0..k]);
    let taken = fed.taken;
    let h = comes_to(fed.answer, fed.map, block, store);
    let trail = Trail {
        position: t.position + (taken as u64),
        start,
        ..t
    };
    let r = turns::behind_header(h, trail, taken, k, piece.len());
    with_map(fed.map, r)
}

// Walks over a piece of the file.
pub fn walk(w: Walker, block: &mut [u8], store: &mut [u8], piece: &[u8]) -> Walked
    ensures { Is (walking w block.old store.old piece.now) result block.new store.new }
{
    let t = trail_of(w);
    let c = check_map(w.map, t.stage, block.len(), store.len());
    match turns::turn(t, c, piece) {
        Turn::Stays(r) => with_map(w.map, r),
        Turn::Reads(kept, start, k) => {
            let m = kept_map(w.map, kept);
            read_header(t, m, start, k, block, store, piece)
        }
    }
}

// Tells a walker that the file has ended.
pub fn end(w: Walker, block: &[u8], store: &[u8]) -> Walked
    ensures { Is (ending w block.now store.now) result block.now store.now }
{
    let t = trail_of(w);
    let c = check_map(w.map, t.stage, block.len(), store.len());
    with_map(w.map, turns::end_trail(t, c))
}
