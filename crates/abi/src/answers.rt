// What each call answers, as a number: 0 for done, 1 to 13 for the refusals, the others from 64 on.
ghost use Rattle.std.specs.Prelude.{◌≡◌};
ghost use Rattle.leaves.specs.Answers.{done_or, yes_or, found_or};
ghost use Rattle.leaves.specs.Refusals.{number};
ghost use Rattle.reader.specs.Answers.{told as answer_of};
ghost use Rattle.codes.specs.Answers.{kind_answer as kind_of};
ghost use Rattle.walker.specs.Answers.{told as step_of};
ghost use Rattle.resume.specs.Answers.{told as verdictOf};

use leaves::refusals;
use leaves::refusals::Refusal;
use line_reader::Answer;
use resume::Verdict;
use walker::Step;

pub const DONE: u32 = 0;

// Numbers that are no map's or no walker's.
pub const DAMAGED: u32 = 3;

pub const FOUND: u32 = 67;

pub const MISSING: u32 = 68;

pub const YES: u32 = 69;

pub const NO: u32 = 70;

pub const IN_BLOCK: u32 = 71;

pub const IN_STORE: u32 = 72;

pub fn refused(e: Refusal) -> u32
    ensures { result ≡ number e }
{
    u32::from(refusals::number(e))
}

// Done, whatever it comes with.
pub fn done<T: Copy>(r: Result<T, Refusal>) -> u32
    ensures { result ≡ done_or r }
{
    match r {
        Ok(_) => DONE,
        Err(e) => refused(e),
    }
}

// Yes or no.
pub fn told(r: Result<bool, Refusal>) -> u32
    ensures { result ≡ yes_or r }
{
    match r {
        Ok(true) => YES,
        Ok(false) => NO,
        Err(e) => refused(e),
    }
}

// Found or missing.
pub fn found<T: Copy>(r: Result<Option<T>, Refusal>) -> u32
    ensures { result ≡ found_or r }
{
    match r {
        Ok(Some(_)) => FOUND,
        Ok(None) => MISSING,
        Err(e) => refused(e),
    }
}

pub fn read(a: Result<Answer, Refusal>) -> u32
    ensures { result ≡ answer_of a }
{
    match a {
        Ok(Answer::More) => 64,
        Ok(Answer::Blank) => 65,
        Ok(Answer::Input) => 66,
        Err(e) => refused(e),
    }
}

pub fn typed(k: Result<u16, Refusal>) -> u32
    ensures { result ≡ kind_of k }
{
    match k {
        Ok(_) => FOUND,
        Err(x) => refused(x),
    }
}

pub fn walked(s: Result<Step, Refusal>) -> u32
    ensures { result ≡ step_of s }
{
    match s {
        Ok(Step::More) => 64,
        Ok(Step::Record(a, b, c, d)) => 73,
        Ok(Step::Body) => 74,
        Ok(Step::End) => 75,
        Err(e) => refused(e),
    }
}

pub fn judged(v: Result<Verdict, Refusal>) -> u32
    ensures { result ≡ verdictOf v }
{
    match v {
        Ok(Verdict::Append) => 80,
        Ok(Verdict::NoTag) => 81,
        Ok(Verdict::Differ) => 82,
        Ok(Verdict::NotPartial) => 83,
        Err(e) => refused(e),
    }
}
