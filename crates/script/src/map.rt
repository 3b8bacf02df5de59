// A map in numbers, with the loans that its texts lie in, and the calls over it.
use crate::answers;
use crate::answers::{Reading, Refusal, Taken, Verdict};
use crate::words::Flags;
use std::alloc::{AllocError, Global};

// The octets that loans are lent with.
pub const FRESH: u8 = 0xaa;

// In a table, offsets of the store begin at this number.
pub const STORE: u32 = 1 << 31;

// What a map's texts lie in.
#[derive(Clone, Copy, Debug, PartialEq, Eq)]
pub enum Loan {
    Block,
    Store,
}

impl Loan {
    pub fn lettered(letter: u8) -> Option<Loan> {
        match letter {
            b'b' => Some(Loan::Block),
            b's' => Some(Loan::Store),
            _ => None,
        }
    }
}

#[derive(Drop)]
pub struct Map {
    pub head: [u64; 13],
    pub table: [u32; 1024],
    pub block: Vec<u8>,
    pub store: Vec<u8>,
}

impl Map {
    // An empty map with nothing lent.
    pub fn new(alloc: Global) -> Self {
        Map {
            head: [0; 13],
            table: [0; 1024],
            block: Vec::new(alloc),
            store: Vec::new(alloc),
        }
    }

    // Lends as many octets afresh.
    pub fn lend(&mut self, block: usize, store: usize) -> Result<(), AllocError> {
        let alloc = *self.block.allocator();
        self.block = vec![in alloc; FRESH; block]?;
        self.store = vec![in alloc; FRESH; store]?;
        Ok(())
    }

    // Becomes as another is. What it had room for is used again, so that a map is copied in place.
    pub fn copy(&mut self, other: &Map) -> Result<(), AllocError> {
        self.head = other.head;
        self.table = other.table;
        refill(&mut self.block, &other.block)?;
        refill(&mut self.store, &other.store)
    }

    // The octets of a loan from an offset to before another, as far as there are such.
    pub fn part(&self, loan: Loan, from: u64, to: u64) -> &[u8] {
        let octets = match loan {
            Loan::Block => self.block.as_slice(),
            Loan::Store => self.store.as_slice(),
        };
        let end = octets.len().min(to as usize);
        octets.get(from as usize..end).unwrap_or(&[])
    }

    pub fn begin(&mut self, flags: Flags, limit: usize, room: usize) -> Result<(), Refusal> {
        answers::done(abi::reading::bisquecrow_begin(
            &mut self.head,
            &self.table,
            limit,
            room,
            flags.awaits,
            flags.quirks,
            &self.block,
            &self.store,
        ))
    }

    pub fn clear(&mut self) -> Result<(), Refusal> {
        answers::done(abi::reading::bisquecrow_clear(
            &mut self.head,
            &self.table,
            &self.block,
            &self.store,
        ))
    }

    pub fn feed(&mut self, piece: &[u8]) -> Taken<Reading> {
        let mut taken = 0;
        let answer = abi::reading::bisquecrow_feed(
            &mut self.head,
            &mut self.table,
            &mut self.block,
            &mut self.store,
            piece,
            &mut taken,
        );
        Taken {
            answer: Reading::try_from(answer),
            taken,
        }
    }

    pub fn finish(&mut self) -> Result<Reading, Refusal> {
        Reading::try_from(abi::reading::bisquecrow_finish(
            &mut self.head,
            &mut self.table,
            &self.block,
            &mut self.store,
        ))
    }

    pub fn set(&mut self, key: &[u8], value: &[u8]) -> Result<(), Refusal> {
        answers::done(abi::editing::bisquecrow_set(
            &mut self.head,
            &mut self.table,
            &self.block,
            &mut self.store,
            key,
            value,
        ))
    }

    pub fn append(&mut self, key: &[u8], value: &[u8]) -> Result<(), Refusal> {
        answers::done(abi::editing::bisquecrow_append(
            &mut self.head,
            &mut self.table,
            &self.block,
            &mut self.store,
            key,
            value,
        ))
    }

    pub fn remove(&mut self, key: &[u8]) -> Result<(), Refusal> {
        answers::done(abi::editing::bisquecrow_remove(
            &mut self.head,
            &mut self.table,
            &self.block,
            &self.store,
            key,
        ))
    }

    pub fn set_status(&mut self, text: &[u8]) -> Result<(), Refusal> {
        answers::done(abi::editing::bisquecrow_set_status(
            &mut self.head,
            &self.table,
            &self.block,
            &mut self.store,
            text,
        ))
    }

    // The text that a call finds, which is lent the numbers of where it lies.
    fn found<F: FnOnce(&mut u64, &mut u64) -> u32>(&self, call: F) -> Result<Option<&[u8]>, Refusal>
        requires { F.IsAlwaysCallable call }
    {
        let (mut from, mut to) = (0, 0);
        let loan = answers::found(call(&mut from, &mut to))?;
        Ok(loan.map(|loan| self.part(loan, from, to)))
    }

    pub fn value(&self, i: usize) -> Result<Option<&[u8]>, Refusal> {
        self.found(|from, to| {
            abi::looking::bisquecrow_value(
                &self.head,
                &self.table,
                &self.block,
                &self.store,
                i,
                from,
                to,
            )
        })
    }

    pub fn key(&self, i: usize) -> Result<Option<&[u8]>, Refusal> {
        self.found(|from, to| {
            abi::looking::bisquecrow_key(
                &self.head,
                &self.table,
                &self.block,
                &self.store,
                i,
                from,
                to,
            )
        })
    }

    pub fn status(&self) -> Result<Option<&[u8]>, Refusal> {
        self.found(|from, to| {
            abi::looking::bisquecrow_status(
                &self.head,
                &self.table,
                &self.block,
                &self.store,
                from,
                to,
            )
        })
    }

    pub fn reason(&self) -> Result<Option<&[u8]>, Refusal> {
        self.found(|from, to| {
            abi::looking::bisquecrow_reason(
                &self.head,
                &self.table,
                &self.block,
                &self.store,
                from,
                to,
            )
        })
    }

    // The number of the first field of a name from a field on.
    pub fn find(&self, name: &[u8], start: usize) -> Result<Option<u64>, Refusal> {
        let (mut number, mut from, mut to) = (0, 0, 0);
        let answer = abi::looking::bisquecrow_find(
            &self.head,
            &self.table,
            &self.block,
            &self.store,
            name,
            start,
            &mut number,
            &mut from,
            &mut to,
        );
        Ok(answers::found(answer)?.map(|_| number))
    }

    pub fn status_code(&self) -> Result<Option<u64>, Refusal> {
        let mut code = 0;
        let answer = abi::telling::bisquecrow_status_code(
            &self.head,
            &self.table,
            &self.block,
            &self.store,
            &mut code,
        );
        answers::known(answer, code)
    }

    pub fn record_type(&self) -> Result<Option<u64>, Refusal> {
        let mut code = 0;
        let answer = abi::telling::bisquecrow_record_type(
            &self.head,
            &self.table,
            &self.block,
            &self.store,
            &mut code,
        );
        answers::known(answer, code)
    }

    pub fn is_clean(&self) -> Result<bool, Refusal> {
        answers::truth(abi::telling::bisquecrow_clean(
            &self.head,
            &self.table,
            &self.block,
            &self.store,
        ))
    }

    // Whether the two say the same.
    pub fn equals(&self, other: &Map) -> Result<bool, Refusal> {
        answers::truth(abi::telling::bisquecrow_equal(
            &self.head,
            &self.table,
            &self.block,
            &self.store,
            &other.head,
            &other.table,
            &other.block,
            &other.store,
        ))
    }

    // Whether the other goes on with what this one began.
    pub fn resumes(&self, other: &Map) -> Result<Verdict, Refusal> {
        Verdict::try_from(abi::telling::bisquecrow_resume(
            &self.head,
            &self.table,
            &self.block,
            &self.store,
            &other.head,
            &other.table,
            &other.block,
            &other.store,
        ))
    }

    // Writes the map into an output: how much that is.
    pub fn write(&self, out: &mut [u8]) -> Result<u64, Refusal> {
        let mut count = 0;
        answers::done(abi::writing::bisquecrow_write(
            &self.head,
            &self.table,
            &self.block,
            &self.store,
            out,
            &mut count,
        ))?;
        Ok(count)
    }

    pub fn rebuild(&self, out: &mut [u8]) -> Result<u64, Refusal> {
        let mut count = 0;
        answers::done(abi::writing::bisquecrow_rebuild(
            &self.head,
            &self.table,
            &self.block,
            &self.store,
            out,
            &mut count,
        ))?;
        Ok(count)
    }
}

// Has a loan hold such octets alone.
fn refill(loan: &mut Vec<u8>, octets: &[u8]) -> Result<(), AllocError> {
    loan.clear();
    loan.extend_from_slice(octets)
}
