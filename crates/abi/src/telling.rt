// What a map tells, what tests say of maps and of octets, and the resume check.
ghost use Rattle.std.specs.Prelude.{◌≡◌};
ghost use Rattle.abi.specs.Calls.{Tells, code_number, length_number, kind_number, code_tells, length_tells, kind_tells, clean_tells, tidy_tells, grammar_tells, equal_tells, resume_tells};

use crate::{answers, opening};
use lent::heads;

// The status code.
pub fn bisquecrow_status_code<'a>(
    head: &[u64],
    table: &[u32],
    block: &'a [u8],
    store: &'a [u8],
    code: &mut u64,
) -> u32
    ensures { Tells (code_tells head.now table.now code.old block.now store.now) result code.new }
{
    if lent::is_sound(head, table) {
        let h = heads::head_at(head);
        let c = lent_codes::status_code(h, table, block, store);
        if let Ok(Some(n)) = c {
            *code = u64::from(n);
        }
        return answers::found(c);
    }
    answers::DAMAGED
}

// The content length of the first field of that name.
pub fn bisquecrow_content_length<'a>(
    head: &[u64],
    table: &[u32],
    block: &'a [u8],
    store: &'a [u8],
    length: &mut u64,
) -> u32
    ensures { Tells (length_tells head.now table.now length.old block.now store.now) result length.new }
{
    if lent::is_sound(head, table) {
        let h = heads::head_at(head);
        let l = lent_codes::content_length(h, table, block, store);
        if let Ok(Some(n)) = l {
            *length = n;
        }
        return answers::found(l);
    }
    answers::DAMAGED
}

// The code of a record's type.
pub fn bisquecrow_record_type<'a>(
    head: &[u64],
    table: &[u32],
    block: &'a [u8],
    store: &'a [u8],
    code: &mut u64,
) -> u32
    ensures { Tells (kind_tells head.now table.now code.old block.now store.now) result code.new }
{
    if lent::is_sound(head, table) {
        let h = heads::head_at(head);
        let k = lent_codes::record_type(h, table, block, store);
        if let Ok(n) = k {
            *code = u64::from(n);
        }
        return answers::typed(k);
    }
    answers::DAMAGED
}

// Whether what a map says is clean.
pub fn bisquecrow_clean<'a>(head: &[u64], table: &[u32], block: &'a [u8], store: &'a [u8]) -> u32
    ensures { result ≡ clean_tells head.now table.now block.now store.now }
{
    if lent::is_sound(head, table) {
        let m = lent::live_at(head, table);
        let t = tidy::clean(m, block, store);
        return answers::told(t);
    }
    answers::DAMAGED
}

// Whether a block is tidy for its flags and limit.
pub fn bisquecrow_tidy(octets: &[u8], awaits: bool, quirks: bool, limit: usize) -> u32
    ensures { result ≡ tidy_tells octets.now awaits quirks limit }
{
    let t = tidy::tidy(octets, awaits, quirks, limit);
    answers::told(t)
}

// Whether octets are a header by the standard's grammar.
pub fn bisquecrow_grammatical(octets: &[u8]) -> u32
    ensures { result ≡ grammar_tells octets.now }
{
    if grammar::grammatical(octets) {
        return answers::YES;
    }
    answers::NO
}

// Whether two maps say the same. The first is checked whole before the second.
pub fn bisquecrow_equal<'a>(
    head: &[u64],
    table: &[u32],
    block: &'a [u8],
    store: &'a [u8],
    head2: &[u64],
    table2: &[u32],
    block2: &'a [u8],
    store2: &'a [u8],
) -> u32
    ensures { result ≡ equal_tells head.now table.now block.now store.now head2.now table2.now block2.now store2.now }
{
    match opening::open(head, table, block, store) {
        Ok(()) => {
            if lent::is_sound(head2, table2) {
                let one = lent::live_at(head, table);
                let two = lent::live_at(head2, table2);
                let e = equals::compare(one, block, store, two, block2, store2);
                return answers::told(e);
            }
            answers::DAMAGED
        }
        Err(e) => answers::refused(e),
    }
}

// Whether the second message's body may be appended to the first's.
pub fn bisquecrow_resume<'a>(
    head: &[u64],
    table: &[u32],
    block: &'a [u8],
    store: &'a [u8],
    head2: &[u64],
    table2: &[u32],
    block2: &'a [u8],
    store2: &'a [u8],
) -> u32
    ensures { result ≡ resume_tells head.now table.now block.now store.now head2.now table2.now block2.now store2.now }
{
    match opening::open(head, table, block, store) {
        Ok(()) => {
            if lent::is_sound(head2, table2) {
                let one = lent::live_at(head, table);
                let two = lent::live_at(head2, table2);
                let v = resume::resume(one, block, store, two, block2, store2);
                return answers::judged(v);
            }
            answers::DAMAGED
        }
        Err(e) => answers::refused(e),
    }
}
