// Begin, feed, finish and clear.
ghost use Rattle.std.specs.Prelude.{[], ◌∷◌};
ghost use Rattle.abi.specs.Calls.{Gave, begin_gives, feed_gives, finish_gives, clear_gives};

use crate::answers;
use lent::heads;

// Makes the numbers an empty map that is Reading, whatever they were; refused, they stay.
pub fn bisquecrow_begin(
    head: &mut [u64],
    table: &[u32],
    limit: usize,
    room: usize,
    awaits: bool,
    quirks: bool,
    block: &[u8],
    store: &[u8],
) -> u32
    ensures { Gave (begin_gives head.old table.now limit room awaits quirks block.now store.now) result [] head.new table.now block.now store.now }
{
    if lent::is_long(head, table) {
        let h = heads::unmade();
        let made = lent_reader::begin(h, limit, room, awaits, quirks, block, store);
        match made.answer {
            Ok(()) => {
                heads::put_head(head, made.head);
                return answers::DONE;
            }
            Err(e) => return answers::refused(e),
        }
    }
    answers::DAMAGED
}

// Feeds a piece of a block to a map.
pub fn bisquecrow_feed(
    head: &mut [u64],
    table: &mut [u32],
    block: &mut [u8],
    store: &mut [u8],
    piece: &[u8],
    taken: &mut u64,
) -> u32
    ensures { Gave (feed_gives head.old table.old block.old store.old piece.now) result (taken.new ∷ []) head.new table.new block.new store.new }
{
    if lent::is_sound(head, table) {
        let h = heads::head_at(head);
        let fed = lent_reader::feed(h, table, block, store, piece);
        heads::put_head(head, fed.head);
        *taken = fed.taken as u64;
        return answers::read(fed.answer);
    }
    *taken = 0;
    answers::DAMAGED
}

// Tells a map that its input has ended.
pub fn bisquecrow_finish(head: &mut [u64], table: &mut [u32], block: &[u8], store: &mut [u8]) -> u32
    ensures { Gave (finish_gives head.old table.old block.now store.old) result [] head.new table.new block.now store.new }
{
    if lent::is_sound(head, table) {
        let h = heads::head_at(head);
        let fed = lent_reader::finish(h, table, block, store);
        heads::put_head(head, fed.head);
        return answers::read(fed.answer);
    }
    answers::DAMAGED
}

// Makes a map an empty one that is Done.
pub fn bisquecrow_clear(head: &mut [u64], table: &[u32], block: &[u8], store: &[u8]) -> u32
    ensures { Gave (clear_gives head.old table.now block.now store.now) result [] head.new table.now block.now store.now }
{
    if lent::is_sound(head, table) {
        let h = heads::head_at(head);
        let made = lent_reader::clear(h, table, block, store);
        heads::put_head(head, made.head);
        return answers::done(made.answer);
    }
    answers::DAMAGED
}
