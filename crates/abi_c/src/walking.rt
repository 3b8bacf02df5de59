// Start, walk and end.
ghost use Rattle.std.specs.Prelude.{[], ◌∷◌};
ghost use Rattle.abi.specs.Calls.{Goes, walker_gives, walk_gives, end_gives};

// Makes the numbers a walker at a position, whatever they were; refused, they stay.
#[unsafe(no_mangle)]
pub extern "C" fn bisquecrow_walker(
    trail: &mut [u64],
    head: &mut [u64],
    table: &[u32],
    room: usize,
    position: u64,
    block: &[u8],
    store: &[u8],
) -> u32
    ensures { Goes (walker_gives trail.old head.old table.now room position block.now store.now) result [] trail.new head.new table.now block.now store.now }
{
    abi::walking::bisquecrow_walker(trail, head, table, room, position, block, store)
}

// Walks over a piece of the file.
#[unsafe(no_mangle)]
pub extern "C" fn bisquecrow_walk(
    trail: &mut [u64],
    head: &mut [u64],
    table: &mut [u32],
    block: &mut [u8],
    store: &mut [u8],
    piece: &[u8],
    taken: &mut u64,
    record: &mut [u64; 4],
) -> u32
    ensures { Goes (walk_gives trail.old head.old table.old «record».old block.old store.old piece.now) result (taken.new ∷ «record».new) trail.new head.new table.new block.new store.new }
{
    abi::walking::bisquecrow_walk(trail, head, table, block, store, piece, taken, record)
}

// Tells a walker that the file has ended.
#[unsafe(no_mangle)]
pub extern "C" fn bisquecrow_end(
    trail: &mut [u64],
    head: &mut [u64],
    table: &[u32],
    block: &[u8],
    store: &[u8],
) -> u32
    ensures { Goes (end_gives trail.old head.old table.now block.now store.now) result [] trail.new head.new table.now block.now store.now }
{
    abi::walking::bisquecrow_end(trail, head, table, block, store)
}
