// Runs cases written one to a line and prints every answer: the words of a line by single spaces, octets in lower-case hex, `-`
// for no octets, numbers in decimal; the answers of a line by single spaces on a line. A line that makes no sense prints its
// answers up to there, `?` and the column, and the next line is read. The words are answered by the calls that other languages link.
#![tactic(auto)]

mod answers;
mod cases;
mod damages;
mod input;
mod map;
mod octets;
mod output;
mod reading;
mod shows;
mod walks;
mod words;

use cases::Case;
use input::Input;
use output::Output;
use std::alloc::{AllocError, Global};
use std::io;
use words::Words;

// Answers the words of a line, up to one that makes no sense.
fn run(alloc: Global, line: &[u8], out: &mut Output) -> Result<(), AllocError> {
    let mut case = Case::new(alloc);
    for (i, word) in Words::new(line).enumerate() {
        if i > 0 {
            out.say(" ");
        }
        match word {
            Ok(word) => case.answer(word, out)?,
            Err(nonsense) => {
                out.say(nonsense);
                break;
            }
        }
    }
    out.say("\n");
    Ok(())
}

fn main(rt: HostRuntime) -> io::Result<()> {
    let mut input = Input::new(&rt)?;
    let mut out = Output::new(&rt)?;
    // No run uses up as many turns: nothing says that an input ends, and a proved loop has to.
    for _ in 0..u64::MAX {
        if input.is_used_up() {
            out.flush();
        }
        let Some(line) = input.line()? else { break };
        run(rt.alloc(), line, &mut out)?;
    }
    Ok(())
}
