// Begin, feed, finish and clear.
ghost use Rattle.std.specs.Prelude.{[], ◌∷◌};
ghost use Rattle.abi.specs.Calls.{Gave, begin_gives, feed_gives, finish_gives, clear_gives};

// Makes the numbers an empty map that is Reading, whatever they were; refused, they stay.
#[unsafe(no_mangle)]
pub extern "C" fn bisquecrow_begin(
    head: &mut [u64],
    table: &[u32],
    limit: usize,
    room: usize,
    awaits: bool,
    quirks: bool,
    block: &[u8],
    store: &[u8],
) -> u32
    ensures { Gave (begin_gives head.old table.now limit room awaits quirks block.now store.now) result [] head.new table.now block.now store.now }
{
    abi::reading::bisquecrow_begin(head, table, limit, room, awaits, quirks, block, store)
}

// Feeds a piece of a block to a map.
#[unsafe(no_mangle)]
pub extern "C" fn bisquecrow_feed(
    head: &mut [u64],
    table: &mut [u32],
    block: &mut [u8],
    store: &mut [u8],
    piece: &[u8],
    taken: &mut u64,
) -> u32
    ensures { Gave (feed_gives head.old table.old block.old store.old piece.now) result (taken.new ∷ []) head.new table.new block.new store.new }
{
    abi::reading::bisquecrow_feed(head, table, block, store, piece, taken)
}

// Tells a map that its input has ended.
#[unsafe(no_mangle)]
pub extern "C" fn bisquecrow_finish(
    head: &mut [u64],
    table: &mut [u32],
    block: &[u8],
    store: &mut [u8],
) -> u32
    ensures { Gave (finish_gives head.old table.old block.now store.old) result [] head.new table.new block.now store.new }
{
    abi::reading::bisquecrow_finish(head, table, block, store)
}

// Makes a map an empty one that is Done.
#[unsafe(no_mangle)]
pub extern "C" fn bisquecrow_clear(
    head: &mut [u64],
    table: &[u32],
    block: &[u8],
    store: &[u8],
) -> u32
    ensures { Gave (clear_gives head.old table.now block.now store.now) result [] head.new table.now block.now store.now }
{
    abi::reading::bisquecrow_clear(head, table, block, store)
}
