// Edits of a map whose table is lent in numbers: set, append, remove and set status, none of which copies the table.
#![tactic(auto)]

ghost use Rattle.std.specs.Prelude.{◌≡◌, ◌≤◌, length};
ghost use Rattle.maps.specs.Good.{checked_done};
ghost use Rattle.maps.specs.Maps.{Is};
ghost use Rattle.edits.specs.Edits.{putting, removing, setting, appending, statusing};
ghost use Rattle.lent.specs.Table.{map_in};
ghost use Rattle.lent_edits.specs.Lent.{edited_in, left_head};

use leaves::refusals::Refusal;
use leaves::sanitise;
use maps::Head;

mod tables;

// An edit's answer and the head that it leaves: the head as it was if it is refused.
#[derive(Clone, Copy)]
pub struct EditedHead {
    pub answer: Result<(), Refusal>,
    pub head: Head,
}

fn refused(h: Head, e: Refusal) -> EditedHead
    ensures { result ≡ left_head h e }
{
    EditedHead {
        answer: Err(e),
        head: h,
    }
}

// Drops every field whose key is the sanitised key.
pub fn remove<'a>(
    h: Head,
    t: &mut [u32],
    block: &'a [u8],
    store: &'a [u8],
    key: &[u8],
) -> EditedHead
    requires { length t.old ≡ 1024 }
    ensures { Is (removing (map_in t.old h) block.now store.now key.now) (edited_in t.new result) block.now store.now }
{
    match lent::check_done(h, t, block, store) {
        Ok(()) => {
            let fields = tables::compact(t, 0, h.fields, block, store, key);
            let head = Head {
                fields,
                edited: edits::changed(h.edited, fields, h.fields),
                ..h
            };
            EditedHead {
                answer: Ok(()),
                head,
            }
        }
        Err(e) => refused(h, e),
    }
}

// The new key and value become the field number at, and later fields of that key go.
fn put_at<'a>(
    h: Head,
    t: &mut [u32],
    block: &'a [u8],
    store: &mut [u8],
    at: usize,
    key: &[u8],
    value: &[u8],
) -> EditedHead
    requires { (length t.old ≡ 1024) × (Ok tt ≡ checked_done (map_in t.old h) block.now store.old) × (at ≤ h.fields) }
    ensures { Is (putting (map_in t.old h) block.now store.old at key.now value.now) (edited_in t.new result) block.now store.new }
{
    match edits::plan_put(at, h.mark, h.room, key, value) {
        Ok(field) => {
            let fields = tables::put(t, h.fields, at, field, block, store, key);
            let mark = edits::write_both(store, h.mark, key, value);
            let filled = Head {
                fields,
                mark,
                edited: true,
                ..h
            };
            EditedHead {
                answer: Ok(()),
                head: filled,
            }
        }
        Err(e) => refused(h, e),
    }
}

// The first match gets the new key and value and later ones go, or they are appended.
pub fn set<'a>(
    h: Head,
    t: &mut [u32],
    block: &'a [u8],
    store: &mut [u8],
    key: &[u8],
    value: &[u8],
) -> EditedHead
    requires { length t.old ≡ 1024 }
    ensures { Is (setting (map_in t.old h) block.now store.old key.now value.now) (edited_in t.new result) block.now store.new }
{
    match lent::check_done(h, t, block, store) {
        Ok(()) => {
            let at = tables::first_at(t, h.fields, block, store, key);
            put_at(h, t, block, store, at, key, value)
        }
        Err(e) => refused(h, e),
    }
}

// The new key and value behind the last field.
pub fn append<'a>(
    h: Head,
    t: &mut [u32],
    block: &'a [u8],
    store: &mut [u8],
    key: &[u8],
    value: &[u8],
) -> EditedHead
    requires { length t.old ≡ 1024 }
    ensures { Is (appending (map_in t.old h) block.now store.old key.now value.now) (edited_in t.new result) block.now store.new }
{
    match lent::check_done(h, t, block, store) {
        Ok(()) => put_at(h, t, block, store, h.fields, key, value),
        Err(e) => refused(h, e),
    }
}

// The sanitised text is the status. The table is only looked at, for number 3.
pub fn set_status(h: Head, t: &[u32], block: &[u8], store: &mut [u8], text: &[u8]) -> EditedHead
    requires { length t.now ≡ 1024 }
    ensures { Is (statusing (map_in t.now h) block.now store.old text.now) (edited_in t.now result) block.now store.new }
{
    match lent::check_done(h, t, block, store) {
        Ok(()) => {
            let k = sanitise::sanitised_length(text, true);
            if k > h.room - h.mark {
                return refused(h, Refusal::StoreFull);
            }
            let mark = h.mark + sanitise::sanitise_into(store, h.mark, text, true);
            let with_status = Head {
                status: Some(maps::in_store(h.mark, mark)),
                mark,
                edited: true,
                ..h
            };
            EditedHead {
                answer: Ok(()),
                head: with_status,
            }
        }
        Err(e) => refused(h, e),
    }
}
