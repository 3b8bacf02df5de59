// The reader: begin, feed, finish and clear, over a map and its two loans.
#![tactic(auto)]

ghost use Rattle.std.specs.Prelude.{◌≡◌, length};
ghost use Rattle.maps.specs.Good.{Ready};
ghost use Rattle.maps.specs.Maps.{Is};
ghost use Rattle.maps.specs.Heads.{empty_head};
ghost use Rattle.line_reader.specs.Handling.{Puts, put_in};
ghost use Rattle.reader.specs.Heads.{head_after, head_when};
ghost use Rattle.reader.specs.Calls.{checked_rooms, fed_from, finished_from, feeding, finishing, clearing, beginning};

use folds::Change;
use leaves::refusals::Refusal;
use line_reader::Answer;
use maps::{Field, Head, HeaderMap, Phase};

#[derive(Clone, Copy)]
pub struct Fed {
    pub map: HeaderMap,
    pub taken: usize,
    pub answer: Result<Answer, Refusal>,
}

// A map that was made or cleared, or left as it was.
#[derive(Clone, Copy)]
pub struct Made {
    pub map: HeaderMap,
    pub answer: Result<(), Refusal>,
}

// The head of an empty map.
pub fn empty_head(limit: usize, room: usize, awaits: bool, quirks: bool, phase: Phase) -> Head
    ensures { result ≡ empty_head limit room awaits quirks phase }
{
    Head {
        limit,
        room,
        count: 0,
        line: 0,
        mark: 0,
        fields: 0,
        status: None,
        awaits,
        quirks,
        edited: false,
        phase,
    }
}

// What a reading that stands at a head leaves of it with an answer.
pub fn head_after(answer: Result<Answer, Refusal>, h: Head) -> Head
    ensures { result ≡ head_after answer h }
{
    match answer {
        Ok(Answer::More) => h,
        Ok(Answer::Blank | Answer::Input) => Head {
            awaits: false,
            quirks: false,
            phase: Phase::Done,
            ..h
        },
        Err(_) => empty_head(h.limit, h.room, false, false, Phase::Done),
    }
}

// The new head where the checks are fine, else the old one.
fn head_when(checked: Result<(), Refusal>, new: Head, old: Head) -> Head
    ensures { result ≡ head_when checked new old }
{
    match checked {
        Ok(()) => new,
        Err(_) => old,
    }
}

// Puts into the table what a change puts.
fn put_change(t: &mut [Field], change: Result<Change, Refusal>)
    requires { (length t.old ≡ 256) × Puts change }
    ensures { t.new ≡ put_in t.old change }
{
    if let Ok(Change::Put(slot, x, _)) = change {
        t[slot] = x;
    }
}

// Feeds a good map, line by line. What the answer leaves of the head is told within the loop: behind it, the table would be copied
// once more.
fn feed_lines(m: HeaderMap, block: &mut [u8], store: &mut [u8], piece: &[u8]) -> Fed
    requires { Ready m block.old store.old }
    ensures { Is (fed_from m block.old store.old piece.now) result block.new store.new }
{
    let mut t = m.table;
    let mut h = m.head();
    let mut left = h;
    let mut at = 0;
    let mut answer = Ok(Answer::More);
    let mut going = true;
    while going {
        let slot = line_reader::last_of(h.fields);
        let last = t[slot];
        let handled = line_reader::handle_next(h, last, block, store, piece, at);
        h = handled.head;
        at = handled.taken;
        answer = handled.answer;
        going = handled.going;
        left = head_after(answer, h);
        put_change(&mut t, handled.change);
    }
    Fed {
        map: HeaderMap::under(t, left),
        taken: at,
        answer,
    }
}

// Feeds a piece of a block to a map.
pub fn feed(m: HeaderMap, block: &mut [u8], store: &mut [u8], piece: &[u8]) -> Fed
    ensures { Is (feeding m block.old store.old piece.now) result block.new store.new }
{
    let ready = maps::is_reading(m.phase);
    match maps::check(m, ready, block.len(), store.len()) {
        Ok(()) => feed_lines(m, block, store, piece),
        Err(e) => Fed {
            map: m,
            taken: 0,
            answer: Err(e),
        },
    }
}

// Handles the leftover line of a good map.
fn finish_line(m: HeaderMap, block: &[u8], store: &mut [u8]) -> Fed
    requires { Ready m block.now store.old }
    ensures { Is (finished_from m block.now store.old) result block.now store.new }
{
    let mut t = m.table;
    let h = m.head();
    let slot = line_reader::last_of(h.fields);
    let last = t[slot];
    let ended = line_reader::handle_last(h, last, block, store);
    put_change(&mut t, ended.change);
    let answer = ended.answer;
    let head = head_after(answer, ended.head);
    Fed {
        map: HeaderMap::under(t, head),
        taken: 0,
        answer,
    }
}

// Tells a map that its input has ended.
pub fn finish(m: HeaderMap, block: &[u8], store: &mut [u8]) -> Fed
    ensures { Is (finishing m block.now store.old) result block.now store.new }
{
    let on = maps::is_reading(m.phase);
    match maps::check(m, on, block.len(), store.len()) {
        Ok(()) => finish_line(m, block, store),
        Err(e) => Fed {
            map: m,
            taken: 0,
            answer: Err(e),
        },
    }
}

// An empty map that is Done.
pub fn clear(m: HeaderMap, block: &[u8], store: &[u8]) -> Made
    ensures { Is (clearing m block.now store.now) result block.now store.now }
{
    let answer = maps::check(m, true, block.len(), store.len());
    let old = m.head();
    let cleared = empty_head(m.limit, m.room, false, false, Phase::Done);
    let head = head_when(answer, cleared, old);
    Made {
        map: HeaderMap::under(m.table, head),
        answer,
    }
}

// What begin checks: 1, 2.
#[tactic(auto, unfolding(crate::specs::Calls::checked_rooms))]
pub fn check_rooms(limit: usize, room: usize, block: usize, store: usize) -> Result<(), Refusal>
    ensures { result ≡ checked_rooms limit room block store }
{
    if !maps::good_rooms(limit, room) {
        return Err(Refusal::BadRooms);
    }
    if limit <= block && room <= store {
        Ok(())
    } else {
        Err(Refusal::ShortLoan)
    }
}

// Makes a map that is used again an empty one that is Reading, over two loans; refused, it is left as it was.
pub fn begin(
    m: HeaderMap,
    limit: usize,
    room: usize,
    awaits: bool,
    quirks: bool,
    block: &[u8],
    store: &[u8],
) -> Made
    ensures { Is (beginning m limit room awaits quirks block.now store.now) result block.now store.now }
{
    let answer = check_rooms(limit, room, block.len(), store.len());
    let old = m.head();
    let new = empty_head(limit, room, awaits, quirks, Phase::Reading);
    let head = head_when(answer, new, old);
    Made {
        map: HeaderMap::under(m.table, head),
        answer,
    }
}
