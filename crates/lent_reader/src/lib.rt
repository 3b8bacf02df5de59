// The reader over a map whose table is lent in numbers: begin, feed, finish and clear, no call of which copies the table.
#![tactic(auto)]

ghost use Rattle.std.specs.Prelude.{◌≡◌, List, length};
ghost use Rattle.maps.specs.Good.{Ready};
ghost use Rattle.maps.specs.Maps.{Is};
ghost use Rattle.maps.specs.Heads.{under};
ghost use Rattle.maps.specs.declared.Field.{Field};
ghost use Rattle.line_reader.specs.Handling.{Puts, put_in};
ghost use Rattle.reader.specs.Calls.{fed_from, finished_from, feeding, finishing, clearing, beginning};
ghost use Rattle.lent.specs.Table.{table_of, map_in};
ghost use Rattle.lent_reader.specs.Lent.{fed_in, made_in};

use folds::Change;
use leaves::refusals::Refusal;
use lent::tables;
use line_reader::Answer;
use maps::{Field, Head, Phase};

// A reading's answer over a lent table: the head it leaves, how many octets were taken.
#[derive(Clone, Copy)]
pub struct FedHead {
    pub head: Head,
    pub taken: usize,
    pub answer: Result<Answer, Refusal>,
}

// The head of a map that was made or cleared, or left as it was.
#[derive(Clone, Copy)]
pub struct MadeHead {
    pub head: Head,
    pub answer: Result<(), Refusal>,
}

// Puts into the table what a change puts.
fn put_change(t: &mut [u32], change: Result<Change, Refusal>)
    requires { (length t.old ≡ 1024) × Puts change }
    ensures { table_of t.new ≡ put_in (table_of t.old) change }
{
    if let Ok(Change::Put(slot, x, _)) = change {
        tables::put_field(t, slot, x);
    }
}

// Feeds a good map, line by line.
fn feed_lines(h: Head, t: &mut [u32], block: &mut [u8], store: &mut [u8], piece: &[u8]) -> FedHead
    requires { (length t.old ≡ 1024) × Ready (map_in t.old h) block.old store.old }
    ensures { Is (fed_from (map_in t.old h) block.old store.old piece.now) (fed_in t.new result) block.new store.new }
{
    let mut now = h;
    let mut at = 0;
    let mut answer = Ok(Answer::More);
    let mut going = true;
    while going {
        let slot = line_reader::last_of(now.fields);
        let last = tables::field_at(t, slot);
        let handled = line_reader::handle_next(now, last, block, store, piece, at);
        put_change(t, handled.change);
        now = handled.head;
        at = handled.taken;
        answer = handled.answer;
        going = handled.going;
    }
    FedHead {
        head: reader::head_after(answer, now),
        taken: at,
        answer,
    }
}

// Feeds a piece of a block to a map.
pub fn feed(h: Head, t: &mut [u32], block: &mut [u8], store: &mut [u8], piece: &[u8]) -> FedHead
    requires { length t.old ≡ 1024 }
    ensures { Is (feeding (map_in t.old h) block.old store.old piece.now) (fed_in t.new result) block.new store.new }
{
    let ready = maps::is_reading(h.phase);
    match lent::check(h, t, ready, block.len(), store.len()) {
        Ok(()) => feed_lines(h, t, block, store, piece),
        Err(e) => FedHead {
            head: h,
            taken: 0,
            answer: Err(e),
        },
    }
}

// Handles the leftover line of a good map.
fn finish_line(h: Head, t: &mut [u32], block: &[u8], store: &mut [u8]) -> FedHead
    requires { (length t.old ≡ 1024) × Ready (map_in t.old h) block.now store.old }
    ensures { Is (finished_from (map_in t.old h) block.now store.old) (fed_in t.new result) block.now store.new }
{
    let slot = line_reader::last_of(h.fields);
    let last = tables::field_at(t, slot);
    let ended = line_reader::handle_last(h, last, block, store);
    put_change(t, ended.change);
    FedHead {
        head: reader::head_after(ended.answer, ended.head),
        taken: 0,
        answer: ended.answer,
    }
}

// Tells a map that its input has ended.
pub fn finish(h: Head, t: &mut [u32], block: &[u8], store: &mut [u8]) -> FedHead
    requires { length t.old ≡ 1024 }
    ensures { Is (finishing (map_in t.old h) block.now store.old) (fed_in t.new result) block.now store.new }
{
    let ready = maps::is_reading(h.phase);
    match lent::check(h, t, ready, block.len(), store.len()) {
        Ok(()) => finish_line(h, t, block, store),
        Err(e) => FedHead {
            head: h,
            taken: 0,
            answer: Err(e),
        },
    }
}

// Makes an empty map that is Reading, over two loans and any table; refused, the map is left as it was.
pub fn begin(
    h: Head,
    limit: usize,
    room: usize,
    awaits: bool,
    quirks: bool,
    block: &[u8],
    store: &[u8],
) -> MadeHead
    ensures { (T : List Field) → Is (beginning (under T h) limit room awaits quirks block.now store.now) (made_in T result) block.now store.now }
{
    match reader::check_rooms(limit, room, block.len(), store.len()) {
        Ok(()) => MadeHead {
            head: reader::empty_head(limit, room, awaits, quirks, Phase::Reading),
            answer: Ok(()),
        },
        Err(e) => MadeHead {
            head: h,
            answer: Err(e),
        },
    }
}

// An empty map that is Done.
pub fn clear(h: Head, t: &[u32], block: &[u8], store: &[u8]) -> MadeHead
    requires { length t.now ≡ 1024 }
    ensures { Is (clearing (map_in t.now h) block.now store.now) (made_in (table_of t.now) result) block.now store.now }
{
    match lent::check(h, t, true, block.len(), store.len()) {
        Ok(()) => MadeHead {
            head: reader::empty_head(h.limit, h.room, false, false, Phase::Done),
            answer: Ok(()),
        },
        Err(e) => MadeHead {
            head: h,
            answer: Err(e),
        },
    }
}
