// A walker over the records of a file, as the calls of `abi` are lent it: in numbers, as C sees them.
use crate::answers::Step;
use crate::headers::{Header, LIMIT};
use leaves::refusals::Refusal;

// The numbers of a walker's trail: where it stands, where the record begins that it is in, and at which stage it is.
const POSITION: usize = 0;

const START: usize = 2;

const STAGE: usize = 3;

// Stages.
const BETWEEN: u64 = 0;

const ENDED: u64 = 7;

// A record whose header was read: where it starts, where its body begins and how long that is, and its type.
#[derive(Clone, Copy)]
pub struct Record {
    pub start: u64,
    pub body: u64,
    pub length: u64,
    pub kind: &'static str,
}

impl From<[u64; 4]> for Record {
    fn from(numbers: [u64; 4]) -> Record {
        let [start, body, length, code] = numbers;
        Record {
            start,
            body,
            length,
            kind: type_name(code),
        }
    }
}

fn type_name(code: u64) -> &'static str {
    match code {
        0 => "-",
        2 => "warcinfo",
        4 => "response",
        8 => "resource",
        16 => "request",
        32 => "metadata",
        64 => "revisit",
        128 => "conversion",
        256 => "continuation",
        _ => "other",
    }
}

#[derive(Drop)]
pub struct Walker {
    trail: [u64; 4],
    record: [u64; 4],
    pub header: Header,
}

impl Walker {
    // A walker that begins at a position.
    pub fn new(position: u64) -> Walker {
        let mut walker = Walker {
            trail: [0; 4],
            record: [0; 4],
            header: Header::new(),
        };
        walker.start(position);
        walker
    }

    fn start(&mut self, position: u64) {
        abi::walking::bisquecrow_walker(
            &mut self.trail,
            &mut self.header.head,
            &self.header.table,
            LIMIT,
            position,
            &self.header.block,
            &self.header.store,
        );
    }

    // Walks on, and answers how many octets were taken.
    pub fn step(&mut self, piece: &[u8]) -> (Result<Step, Refusal>, u64) {
        let mut taken = 0;
        let answer = abi::walking::bisquecrow_walk(
            &mut self.trail,
            &mut self.header.head,
            &mut self.header.table,
            &mut self.header.block,
            &mut self.header.store,
            piece,
            &mut taken,
            &mut self.record,
        );
        (Step::of(answer), taken)
    }

    // Tells the walker of the end: one that has stopped repeats its answer.
    pub fn end(&mut self) -> Result<Step, Refusal> {
        Step::of(abi::walking::bisquecrow_end(
            &mut self.trail,
            &mut self.header.head,
            &self.header.table,
            &self.header.block,
            &self.header.store,
        ))
    }

    // The record whose header was read last.
    pub fn record(&self) -> Record {
        Record::from(self.record)
    }

    pub fn position(&self) -> u64 {
        self.trail[POSITION]
    }

    // The end of the last record that is good.
    pub fn whole(&self) -> u64 {
        if self.trail[STAGE] == ENDED {
            return self.trail[POSITION];
        }
        self.trail[START]
    }

    pub fn is_between_records(&self) -> bool {
        self.trail[STAGE] == BETWEEN
    }
}
