// What a map tells, what tests say of maps and of octets, and the resume check.
ghost use Rattle.std.specs.Prelude.{◌≡◌};
ghost use Rattle.abi.specs.Calls.{Tells, code_tells, length_tells, kind_tells, clean_tells, tidy_tells, grammar_tells, equal_tells, resume_tells};

// The status code.
#[unsafe(no_mangle)]
pub extern "C" fn bisquecrow_status_code<'a>(
    head: &[u64],
    table: &[u32],
    block: &'a [u8],
    store: &'a [u8],
    code: &mut u64,
) -> u32
    ensures { Tells (code_tells head.now table.now code.old block.now store.now) result code.new }
{
    abi::telling::bisquecrow_status_code(head, table, block, store, code)
}

// The content length of the first field of that name.
#[unsafe(no_mangle)]
pub extern "C" fn bisquecrow_content_length<'a>(
    head: &[u64],
    table: &[u32],
    block: &'a [u8],
    store: &'a [u8],
    length: &mut u64,
) -> u32
    ensures { Tells (length_tells head.now table.now length.old block.now store.now) result length.new }
{
    abi::telling::bisquecrow_content_length(head, table, block, store, length)
}

// The code of a record's type.
#[unsafe(no_mangle)]
pub extern "C" fn bisquecrow_record_type<'a>(
    head: &[u64],
    table: &[u32],
    block: &'a [u8],
    store: &'a [u8],
    code: &mut u64,
) -> u32
    ensures { Tells (kind_tells head.now table.now code.old block.now store.now) result code.new }
{
    abi::telling::bisquecrow_record_type(head, table, block, store, code)
}

// Whether what a map says is clean.
#[unsafe(no_mangle)]
pub extern "C" fn bisquecrow_clean<'a>(
    head: &[u64],
    table: &[u32],
    block: &'a [u8],
    store: &'a [u8],
) -> u32
    ensures { result ≡ clean_tells head.now table.now block.now store.now }
{
    abi::telling::bisquecrow_clean(head, table, block, store)
}

// Whether a block is tidy for its flags and limit.
#[unsafe(no_mangle)]
pub extern "C" fn bisquecrow_tidy(octets: &[u8], awaits: bool, quirks: bool, limit: usize) -> u32
    ensures { result ≡ tidy_tells octets.now awaits quirks limit }
{
    abi::telling::bisquecrow_tidy(octets, awaits, quirks, limit)
}

// Whether octets are a header by the standard's grammar.
#[unsafe(no_mangle)]
pub extern "C" fn bisquecrow_grammatical(octets: &[u8]) -> u32
    ensures { result ≡ grammar_tells octets.now }
{
    abi::telling::bisquecrow_grammatical(octets)
}

// Whether two maps say the same. The first is checked whole before the second.
#[unsafe(no_mangle)]
pub extern "C" fn bisquecrow_equal<'a>(
    head: &[u64],
    table: &[u32],
    block: &'a [u8],
    store: &'a [u8],
    head2: &[u64],
    table2: &[u32],
    block2: &'a [u8],
    store2: &'a [u8],
) -> u32
    ensures { result ≡ equal_tells head.now table.now block.now store.now head2.now table2.now block2.now store2.now }
{
    abi::telling::bisquecrow_equal(head, table, block, store, head2, table2, block2, store2)
}

// Whether the second message's body may be appended to the first's.
#[unsafe(no_mangle)]
pub extern "C" fn bisquecrow_resume<'a>(
    head: &[u64],
    table: &[u32],
    block: &'a [u8],
    store: &'a [u8],
    head2: &[u64],
    table2: &[u32],
    block2: &'a [u8],
    store2: &'a [u8],
) -> u32
    ensures { result ≡ resume_tells head.now table.now block.now store.now head2.now table2.now block2.now store2.now }
{
    abi::telling::bisquecrow_resume(head, table, block, store, head2, table2, block2, store2)
}
