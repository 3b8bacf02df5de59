// Write and rebuild.
ghost use Rattle.std.specs.Prelude.{◌≡◌};
ghost use Rattle.abi.specs.Calls.{Puts, count_number, write_puts, rebuild_puts};

use crate::answers;
use lent::heads;

// The block as it was read, or the map rebuilt.
pub fn bisquecrow_write<'a>(
    head: &[u64],
    table: &[u32],
    block: &'a [u8],
    store: &'a [u8],
    out: &mut [u8],
    count: &mut u64,
) -> u32
    ensures { Puts (write_puts head.now table.now count.old block.now store.now out.old) result count.new out.new }
{
    if lent::is_sound(head, table) {
        let h = heads::head_at(head);
        let w = lent_writes::write(h, table, block, store, out);
        if let Ok(n) = w {
            *count = n as u64;
        }
        return answers::done(w);
    }
    answers::DAMAGED
}

// The map rebuilt, whatever it was read from.
pub fn bisquecrow_rebuild<'a>(
    head: &[u64],
    table: &[u32],
    block: &'a [u8],
    store: &'a [u8],
    out: &mut [u8],
    count: &mut u64,
) -> u32
    ensures { Puts (rebuild_puts head.now table.now count.old block.now store.now out.old) result count.new out.new }
{
    if lent::is_sound(head, table) {
        let h = heads::head_at(head);
        let w = lent_writes::rebuild(h, table, block, store, out);
        if let Ok(n) = w {
            *count = n as u64;
        }
        return answers::done(w);
    }
    answers::DAMAGED
}
