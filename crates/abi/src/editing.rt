// Set, append, remove and set status.
ghost use Rattle.std.specs.Prelude.{[]};
ghost use Rattle.abi.specs.Calls.{Gave, set_gives, append_gives, remove_gives, status_gives};

use crate::answers;
use lent::heads;

// The first match gets the new key and value and later ones go, or they are appended.
pub fn bisquecrow_set(
    head: &mut [u64],
    table: &mut [u32],
    block: &[u8],
    store: &mut [u8],
    key: &[u8],
    value: &[u8],
) -> u32
    ensures { Gave (set_gives head.old table.old block.now store.old key.now value.now) result [] head.new table.new block.now store.new }
{
    if lent::is_sound(head, table) {
        let h = heads::head_at(head);
        let edited = lent_edits::set(h, table, block, store, key, value);
        heads::put_head(head, edited.head);
        return answers::done(edited.answer);
    }
    answers::DAMAGED
}

pub fn bisquecrow_append(
    head: &mut [u64],
    table: &mut [u32],
    block: &[u8],
    store: &mut [u8],
    key: &[u8],
    value: &[u8],
) -> u32
    ensures { Gave (append_gives head.old table.old block.now store.old key.now value.now) result [] head.new table.new block.now store.new }
{
    if lent::is_sound(head, table) {
        let h = heads::head_at(head);
        let edited = lent_edits::append(h, table, block, store, key, value);
        heads::put_head(head, edited.head);
        return answers::done(edited.answer);
    }
    answers::DAMAGED
}

// Drops every field of that key.
pub fn bisquecrow_remove<'a>(
    head: &mut [u64],
    table: &mut [u32],
    block: &'a [u8],
    store: &'a [u8],
    key: &[u8],
) -> u32
    ensures { Gave (remove_gives head.old table.old block.now store.now key.now) result [] head.new table.new block.now store.now }
{
    if lent::is_sound(head, table) {
        let h = heads::head_at(head);
        let edited = lent_edits::remove(h, table, block, store, key);
        heads::put_head(head, edited.head);
        return answers::done(edited.answer);
    }
    answers::DAMAGED
}

pub fn bisquecrow_set_status(
    head: &mut [u64],
    table: &[u32],
    block: &[u8],
    store: &mut [u8],
    text: &[u8],
) -> u32
    ensures { Gave (status_gives head.old table.now block.now store.old text.now) result [] head.new table.now block.now store.new }
{
    if lent::is_sound(head, table) {
        let h = heads::head_at(head);
        let edited = lent_edits::set_status(h, table, block, store, text);
        heads::put_head(head, edited.head);
        return answers::done(edited.answer);
    }
    answers::DAMAGED
}
