// A walker over the records of a file, in numbers. The header that it reads is a map.
use crate::answers;
use crate::answers::{Refusal, Step, Taken};
use crate::map::Map;

#[derive(Clone, Copy, Debug)]
pub struct Walker {
    pub trail: [u64; 4],
}

impl Walker {
    // One that has ended.
    pub fn new() -> Self {
        Walker {
            trail: [0, 0, 0, 7],
        }
    }

    pub fn start(&mut self, map: &mut Map, room: usize, position: u64) -> Result<(), Refusal> {
        answers::done(abi::walking::bisquecrow_walker(
            &mut self.trail,
            &mut map.head,
            &map.table,
            room,
            position,
            &map.block,
            &map.store,
        ))
    }

    // One call on a piece.
    pub fn walk(&mut self, map: &mut Map, piece: &[u8]) -> Taken<Step> {
        let mut taken = 0;
        let mut record = [0; 4];
        let answer = abi::walking::bisquecrow_walk(
            &mut self.trail,
            &mut map.head,
            &mut map.table,
            &mut map.block,
            &mut map.store,
            piece,
            &mut taken,
            &mut record,
        );
        Taken {
            answer: Step::new(answer, record),
            taken,
        }
    }

    // Says that the file has ended.
    pub fn end(&mut self, map: &mut Map) -> Result<Step, Refusal> {
        let answer = abi::walking::bisquecrow_end(
            &mut self.trail,
            &mut map.head,
            &map.table,
            &map.block,
            &map.store,
        );
        Step::new(answer, [0; 4])
    }
}
