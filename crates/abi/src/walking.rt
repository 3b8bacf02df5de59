// Start, walk and end.
ghost use Rattle.std.specs.Prelude.{◌≡◌, [], ◌∷◌};
ghost use Rattle.abi.specs.Calls.{Goes, record_numbers, walker_gives, walk_gives, end_gives};

use crate::answers;
use leaves::refusals::Refusal;
use lent::heads;
use walker::Step;

// Makes the numbers a walker at a position, whatever they were; refused, they stay.
pub fn bisquecrow_walker(
    trail: &mut [u64],
    head: &mut [u64],
    table: &[u32],
    room: usize,
    position: u64,
    block: &[u8],
    store: &[u8],
) -> u32
    ensures { Goes (walker_gives trail.old head.old table.now room position block.now store.now) result [] trail.new head.new table.now block.now store.now }
{
    if trail.len() == trails::TRAIL {
        if lent::is_long(head, table) {
            let h = heads::unmade();
            let walked = lent_walker::start(h, room, position, block, store);
            match walked.step {
                Ok(_) => {
                    heads::put_head(head, walked.head);
                    trails::put_trail(trail, walked.trail);
                    return answers::DONE;
                }
                Err(e) => return answers::refused(e),
            }
        }
        return answers::DAMAGED;
    }
    answers::DAMAGED
}

fn put_record(step: Result<Step, Refusal>, record: &mut [u64; 4])
    ensures { «record».new ≡ record_numbers step «record».old }
{
    if let Ok(Step::Record(start, offset, length, code)) = step {
        *record = [start, offset, length, u64::from(code)];
    }
}

// Walks over a piece of the file.
pub fn bisquecrow_walk(
    trail: &mut [u64],
    head: &mut [u64],
    table: &mut [u32],
    block: &mut [u8],
    store: &mut [u8],
    piece: &[u8],
    taken: &mut u64,
    record: &mut [u64; 4],
) -> u32
    ensures { Goes (walk_gives trail.old head.old table.old «record».old block.old store.old piece.now) result (taken.new ∷ «record».new) trail.new head.new table.new block.new store.new }
{
    if trails::is_sound(trail) {
        if lent::is_sound(head, table) {
            let w = trails::trail_at(trail);
            let h = heads::head_at(head);
            let walked = lent_walker::walk(w, h, table, block, store, piece);
            heads::put_head(head, walked.head);
            trails::put_trail(trail, walked.trail);
            *taken = walked.taken as u64;
            put_record(walked.step, record);
            return answers::walked(walked.step);
        }
        *taken = 0;
        return answers::DAMAGED;
    }
    *taken = 0;
    answers::DAMAGED
}

// Tells a walker that the file has ended.
pub fn bisquecrow_end(
    trail: &mut [u64],
    head: &mut [u64],
    table: &[u32],
    block: &[u8],
    store: &[u8],
) -> u32
    ensures { Goes (end_gives trail.old head.old table.now block.now store.now) result [] trail.new head.new table.now block.now store.now }
{
    if trails::is_sound(trail) {
        if lent::is_sound(head, table) {
            let w = trails::trail_at(trail);
            let h = heads::head_at(head);
            let walked = lent_walker::end(w, h, table, block, store);
            heads::put_head(head, walked.head);
            trails::put_trail(trail, walked.trail);
            return answers::walked(walked.step);
        }
        return answers::DAMAGED;
    }
    answers::DAMAGED
}
