// Write and rebuild.
ghost use Rattle.abi.specs.Calls.{Puts, write_puts, rebuild_puts};

// The block as it was read, or the map rebuilt.
#[unsafe(no_mangle)]
pub extern "C" fn bisquecrow_write<'a>(
    head: &[u64],
    table: &[u32],
    block: &'a [u8],
    store: &'a [u8],
    out: &mut [u8],
    count: &mut u64,
) -> u32
    ensures { Puts (write_puts head.now table.now count.old block.now store.now out.old) result count.new out.new }
{
    abi::writing::bisquecrow_write(head, table, block, store, out, count)
}

// The map rebuilt, whatever it was read from.
#[unsafe(no_mangle)]
pub extern "C" fn bisquecrow_rebuild<'a>(
    head: &[u64],
    table: &[u32],
    block: &'a [u8],
    store: &'a [u8],
    out: &mut [u8],
    count: &mut u64,
) -> u32
    ensures { Puts (rebuild_puts head.now table.now count.old block.now store.now out.old) result count.new out.new }
{
    abi::writing::bisquecrow_rebuild(head, table, block, store, out, count)
}
