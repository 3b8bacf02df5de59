// Standard input, a line at a time.
use std::io;
use std::io::{BufRead, BufReader, ErrorKind, Read, Stdin};

// The most octets of a line: behind as many with no LF another line begins.
const LONGEST: u64 = 1048576;

// How much is read at once.
const CHUNK: usize = 65536;

#[derive(Drop)]
pub struct Input {
    reader: BufReader<Stdin>,
    line: Vec<u8>,
}

impl Input {
    pub fn new(rt: &HostRuntime) -> io::Result<Self> {
        Ok(Input {
            reader: BufReader::with_capacity(rt.alloc(), CHUNK, rt.stdin())?,
            line: Vec::new(rt.alloc()),
        })
    }

    // Whether all that was read is used up.
    pub fn is_used_up(&self) -> bool {
        self.reader.buffer().is_empty()
    }

    // The next line without its LF; none at the end of the input. What a read fails on is the end, but for a line that there is no memory for.
    pub fn line(&mut self) -> io::Result<Option<&[u8]>> {
        self.line.clear();
        let read = self
            .reader
            .by_ref()
            .take(LONGEST)
            .read_until(b'\n', &mut self.line);
        if let Err(e) = read {
            if e.kind() == ErrorKind::OutOfMemory {
                return Err(e);
            }
        }
        if self.line.is_empty() {
            return Ok(None);
        }
        let line = self.line.as_slice();
        Ok(Some(line.strip_suffix(b"\n").unwrap_or(line)))
    }
}
