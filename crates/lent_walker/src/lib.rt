// The record walker over a map whose table is lent in numbers: it takes the turns of the walker by value, and no call copies the table.
#![tactic(auto)]

ghost use Rattle.std.specs.Prelude.{◌≡◌, ◌+◌, ◌≤◌, length};
ghost use Rattle.maps.specs.Good.{checked, checked_done};
ghost use Rattle.maps.specs.Maps.{Is};
ghost use Rattle.openings.specs.Opening.{opening as openingOf};
ghost use Rattle.openings.specs.Sights.{spotted};
ghost use Rattle.walker.specs.Walk.{ready_at, header_read, walking, ending};
ghost use Rattle.walker.specs.Trails.{Judged, headed_by};
ghost use Rattle.lent.specs.Table.{table_of, map_in};
ghost use Rattle.lent_walker.specs.Lent.{walker_in, walked_in, with_head, Starts};

use leaves::refusals::Refusal;
use lent::tables;
use line_reader::Answer;
use maps::Head;
use openings::{Sight, Sights, Spots};
use walker::{Headed, Kept, Stage, Step, Trail, Trailed, Turn, turns};

// What a call gave over a lent table: the trail and the head it leaves.
#[derive(Clone, Copy)]
pub struct WalkedHead {
    pub trail: Trail,
    pub head: Head,
    pub taken: usize,
    pub step: Result<Step, Refusal>,
}

// A pass over the first n fields of a table.
fn spot(t: &[u32], n: usize, block: &[u8], store: &[u8]) -> Spots
    requires { (n ≤ 256) × (length t.now ≡ 1024) }
    ensures { result ≡ spotted block.now store.now (table_of t.now) n }
{
    let none = Sight { at: 0, times: 0 };
    let mut z = Sights {
        length: none,
        kind: none,
    };
    for i in 0..n {
        let f = tables::field_at(t, i);
        z = openings::note(z, maps::part(block, store, f.key), i);
    }
    Spots {
        lengths: z.length.times,
        length: tables::field_at(t, z.length.at).value,
        kinds: z.kind.times,
        kind: tables::field_at(t, z.kind.at).value,
    }
}

// What a map opens that was judged already.
fn open_good<'a>(
    h: Head,
    t: &[u32],
    block: &'a [u8],
    store: &'a [u8],
) -> Result<(u64, u16), Refusal>
    requires { (length t.now ≡ 1024) × (Ok tt ≡ checked_done (map_in t.now h) block.now store.now) }
    ensures { result ≡ openingOf (map_in t.now h) block.now store.now }
{
    let z = spot(t, h.fields, block, store);
    openings::open_spots(h.status, z, block, store)
}

// What an answer comes to. A map that was just fed was judged, and is good.
fn comes_to<'a>(
    answer: Result<Answer, Refusal>,
    h: Head,
    t: &[u32],
    block: &'a [u8],
    store: &'a [u8],
) -> Result<Headed, Refusal>
    requires { (length t.now ≡ 1024) × Judged answer (map_in t.now h) block.now store.now }
    ensures { result ≡ headed_by answer (openingOf (map_in t.now h) block.now store.now) }
{
    match answer? {
        Answer::More => Ok(Headed::Goes),
        Answer::Blank => Ok(Headed::Opens(open_good(h, t, block, store))),
        Answer::Input => Ok(Headed::Input),
    }
}

fn with_head(h: Head, r: Trailed) -> WalkedHead
    ensures { result ≡ with_head h r }
{
    WalkedHead {
        trail: r.trail,
        head: turns::kept_head(h, r.kept),
        taken: r.taken,
        step: r.step,
    }
}

// The map's first checks at a stage: 3, 2, 7.
fn check_map(h: Head, t: &[u32], stage: Stage, block: usize, store: usize) -> Result<(), Refusal>
    requires { length t.now ≡ 1024 }
    ensures { result ≡ checked (ready_at stage h.phase) (map_in t.now h) block store }
{
    let ready = turns::ready_at(stage, h.phase);
    lent::check(h, t, ready, block, store)
}

// Reads k octets of a piece into a map, of a header that begins at start.
fn read_header(
    trail: Trail,
    h: Head,
    t: &mut [u32],
    start: u64,
    k: usize,
    block: &mut [u8],
    store: &mut [u8],
    piece: &[u8],
) -> WalkedHead
    requires { (length t.old ≡ 1024) × (k ≤ length piece.now) × (trail.position + k ≤ 18446744073709551615) }
    ensures { Is (header_read (walker_in t.old h trail) (map_in t.old h) start k block.old store.old piece.now) (walked_in t.new result) block.new store.new }
{
    let fed = lent_reader::feed(h, t, block, store, &piece[0..k]);
    let taken = fed.taken;
    let came = comes_to(fed.answer, fed.head, t, block, store);
    let onward = Trail {
        position: trail.position + (taken as u64),
        start,
        ..trail
    };
    let r = turns::behind_header(came, onward, taken, k, piece.len());
    with_head(fed.head, r)
}

// A walker's start over any table; refused, the head is left as it was.
pub fn start(h: Head, room: usize, position: u64, block: &[u8], store: &[u8]) -> WalkedHead
    ensures { Starts h room position block.now store.now result }
{
    let made = lent_reader::begin(h, maps::DEFAULT_LIMIT, room, false, false, block, store);
    match made.answer {
        Ok(()) => WalkedHead {
            trail: Trail {
                position,
                rest: 0,
                stage: Stage::Between,
                start: position,
            },
            head: turns::kept_head(made.head, Kept::Emptied),
            taken: 0,
            step: Ok(Step::More),
        },
        Err(e) => WalkedHead {
            trail: Trail {
                position,
                rest: 0,
                stage: Stage::Stopped(e),
                start: position,
            },
            head: h,
            taken: 0,
            step: Err(e),
        },
    }
}

// Walks over a piece of the file.
pub fn walk(
    trail: Trail,
    h: Head,
    t: &mut [u32],
    block: &mut [u8],
    store: &mut [u8],
    piece: &[u8],
) -> WalkedHead
    requires { length t.old ≡ 1024 }
    ensures { Is (walking (walker_in t.old h trail) block.old store.old piece.now) (walked_in t.new result) block.new store.new }
{
    let c = check_map(h, t, trail.stage, block.len(), store.len());
    match turns::turn(trail, c, piece) {
        Turn::Stays(r) => with_head(h, r),
        Turn::Reads(kept, start, k) => {
            let begun = turns::kept_head(h, kept);
            read_header(trail, begun, t, start, k, block, store, piece)
        }
    }
}

// Tells a walker that the file has ended.
pub fn end(trail: Trail, h: Head, t: &[u32], block: &[u8], store: &[u8]) -> WalkedHead
    requires { length t.now ≡ 1024 }
    ensures { Is (ending (walker_in t.now h trail) block.now store.now) (walked_in t.now result) block.now store.now }
{
    let c = check_map(h, t, trail.stage, block.len(), store.len());
    with_head(h, turns::end_trail(trail, c))
}
