// What is printed. What a write fails on is lost, and the program goes on.
use crate::answers::{Refusal, Taken};
use crate::octets::Hex;
use std::fmt::Display;
use std::io;
use std::io::{BufWriter, Stdout, Write};

// How much is written at once.
const CHUNK: usize = 65536;

// Standard output of which nothing is kept that a write failed on: a writer with a buffer would try it again with every word.
#[derive(Drop)]
struct Lossy(Stdout);

impl Write for Lossy {
    fn write(&mut self, octets: &[u8]) -> io::Result<usize> {
        let _ = self.0.write_all(octets);
        Ok(octets.len())
    }

    fn flush(&mut self) -> io::Result<()> {
        let _ = self.0.flush();
        Ok(())
    }
}

#[derive(Drop)]
pub struct Output {
    writer: BufWriter<Lossy>,
}

impl Output {
    pub fn new(rt: &HostRuntime) -> io::Result<Self> {
        Ok(Output {
            writer: BufWriter::with_capacity(rt.alloc(), CHUNK, Lossy(rt.stdout()))?,
        })
    }

    pub fn say<D: Display + Drop>(&mut self, text: D) {
        let _ = self.writer.write_fmt(text);
    }

    pub fn say_result<T: Display + Drop>(&mut self, answer: Result<T, Refusal>) {
        match answer {
            Ok(value) => self.say(value),
            Err(refusal) => self.say(refusal),
        }
    }

    // What was done, by its name.
    pub fn say_done(&mut self, name: &str, done: Result<(), Refusal>) {
        self.say_result(done.map(|()| name))
    }

    pub fn say_truth(&mut self, truth: Result<bool, Refusal>) {
        self.say_result(truth.map(u8::from))
    }

    // What is known, or that it is not.
    pub fn say_known<T: Display + Drop>(&mut self, known: Result<Option<T>, Refusal>) {
        match known {
            Ok(None) => self.say("none"),
            Ok(Some(value)) => self.say(value),
            Err(refusal) => self.say(refusal),
        }
    }

    pub fn say_taken<T: Display + Drop>(&mut self, taken: Taken<T>) {
        self.say_result(taken.answer);
        self.say(format_args!(":{}", taken.taken))
    }

    // How much was written into an output, and all of the output.
    pub fn say_sheet(&mut self, written: Result<u64, Refusal>, sheet: &[u8]) {
        match written {
            Ok(count) => self.say(format_args!("{count}:{}", Hex(sheet))),
            Err(refusal) => self.say(refusal),
        }
    }

    pub fn flush(&mut self) {
        let _ = self.writer.flush();
    }
}
