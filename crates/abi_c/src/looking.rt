// Find, value, key, status and reason; how many fields there are.
ghost use Rattle.abi.specs.Calls.{Tells, fields_tell, Sees, find_sees, Lies, value_lies, key_lies, status_lies, reason_lies};

// How many fields there are: the table's first numbers are then the places of all of them.
#[unsafe(no_mangle)]
pub extern "C" fn bisquecrow_fields(
    head: &[u64],
    table: &[u32],
    block: &[u8],
    store: &[u8],
    count: &mut u64,
) -> u32
    ensures { Tells (fields_tell head.now table.now count.old block.now store.now) result count.new }
{
    abi::looking::bisquecrow_fields(head, table, block, store, count)
}

// The first field from a given number on that has a name: its number, and where its value lies.
#[unsafe(no_mangle)]
pub extern "C" fn bisquecrow_find<'a>(
    head: &[u64],
    table: &[u32],
    block: &'a [u8],
    store: &'a [u8],
    name: &[u8],
    start: usize,
    number: &mut u64,
    from: &mut u64,
    to: &mut u64,
) -> u32
    ensures { Sees (find_sees head.now table.now number.old from.old to.old block.now store.now name.now start) result number.new from.new to.new }
{
    abi::looking::bisquecrow_find(head, table, block, store, name, start, number, from, to)
}

// Where the value of a field lies.
#[unsafe(no_mangle)]
pub extern "C" fn bisquecrow_value(
    head: &[u64],
    table: &[u32],
    block: &[u8],
    store: &[u8],
    number: usize,
    from: &mut u64,
    to: &mut u64,
) -> u32
    ensures { Lies (value_lies head.now table.now from.old to.old block.now store.now number) result from.new to.new }
{
    abi::looking::bisquecrow_value(head, table, block, store, number, from, to)
}

// Where the key of a field lies.
#[unsafe(no_mangle)]
pub extern "C" fn bisquecrow_key(
    head: &[u64],
    table: &[u32],
    block: &[u8],
    store: &[u8],
    number: usize,
    from: &mut u64,
    to: &mut u64,
) -> u32
    ensures { Lies (key_lies head.now table.now from.old to.old block.now store.now number) result from.new to.new }
{
    abi::looking::bisquecrow_key(head, table, block, store, number, from, to)
}

// Where the status lies.
#[unsafe(no_mangle)]
pub extern "C" fn bisquecrow_status(
    head: &[u64],
    table: &[u32],
    block: &[u8],
    store: &[u8],
    from: &mut u64,
    to: &mut u64,
) -> u32
    ensures { Lies (status_lies head.now table.now from.old to.old block.now store.now) result from.new to.new }
{
    abi::looking::bisquecrow_status(head, table, block, store, from, to)
}

// Where the reason lies.
#[unsafe(no_mangle)]
pub extern "C" fn bisquecrow_reason<'a>(
    head: &[u64],
    table: &[u32],
    block: &'a [u8],
    store: &'a [u8],
    from: &mut u64,
    to: &mut u64,
) -> u32
    ensures { Lies (reason_lies head.now table.now from.old to.old block.now store.now) result from.new to.new }
{
    abi::looking::bisquecrow_reason(head, table, block, store, from, to)
}
