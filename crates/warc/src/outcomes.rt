// How what was asked for ended.

// Why it did not end well, each worse than the one before: the file or the answer is not good; wrong use, or a file that cannot be read; a write that
// failed, which ends all.
#[derive(Clone, Copy, PartialEq, Eq, PartialOrd, Ord)]
pub enum Failure {
    Bad,
    Unread,
    Unwritten,
}

pub type Outcome = Result<(), Failure>;
