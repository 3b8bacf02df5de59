// The commands, and what is said of the program and of each of them, to who asks for it and to who used it wrongly.

#[derive(Clone, Copy, PartialEq, Eq)]
pub enum Command {
    Walk,
    Check,
    Header,
    Tidy,
    Resume,
    Record,
    Body,
}

impl Command {
    // Whether it takes that many files; a start counts as one.
    pub fn takes(self, files: usize) -> bool {
        match self {
            Command::Walk | Command::Check | Command::Header | Command::Tidy => files > 0,
            Command::Resume | Command::Record | Command::Body => files == 2,
        }
    }
}

// The help of a command, or of the program.
pub fn help(command: Option<Command>) -> &'static str {
    match command {
        Some(Command::Walk) => {
            "warc walk [--json] FILE...

Lists the records of each file: start, body offset, body length, type, date, target URI; - where there is none. Octets outside 33 to 126,
and %, stand as %XX. How the file ends is said on standard error.

  --json    an object for each record, on a line of its own: file, start, body, length, type, date, uri; null where there is none.
            The texts are as they stand in the file: each character of a string is one octet, from U+0000 to U+00FF.
"
        }
        Some(Command::Check) => {
            "warc check FILE...

Says of each file how many records are good and, where it stops: the position, the number, what that means and what was good before it.
"
        }
        Some(Command::Header | Command::Tidy) => {
            "warc header [--status | --fields] [--quirks] FILE...
warc tidy [--status | --fields] [--quirks] FILE...

header shows the header block that each file begins with: its status, its fields, where they lie, from the block's first octet or in the
store where folded values are put together, and whether it is clean (it can be written and read back), tidy (it is as tidy writes it) and
grammatical (a WARC 1.1 header). tidy writes it rebuilt, unless it is not clean. What stands behind the block is not looked at.

  --status  the first line is a status line, as where it begins with HTTP/ or WARC/
  --fields  the first line is a field, as where it begins otherwise
  --quirks  lines may end in LF alone, and a line of blanks ends the block

The words status, fields and quirks do the same: a file of such a name is ./status.
"
        }
        Some(Command::Resume) => {
            "warc resume FIRST SECOND

Says whether the body of the second HTTP answer may be appended to that of the first: both have the same ETag, one each, the second's code
is 206, and each header is closed by its blank line.
"
        }
        Some(Command::Record | Command::Body) => {
            "warc record FILE START
warc body FILE START

record shows the record that starts at octet START of a file, as walk lists them: its numbers, its version line and its fields, and where
those lie, from START. body writes its body, and says on standard error where it is cut off.
"
        }
        None => {
            "warc walk FILE...            lists the records: start, body offset, body length, type, date, target URI
warc check FILE...           says where and why a file stops, and how many records were good
warc record FILE START       shows the record at a start: its numbers and its header
warc body FILE START         writes the body of the record at a start
warc header FILE...          shows a header block: status, fields with their places, clean, tidy, grammatical
warc tidy FILE...            writes the rebuilt header block
warc resume FIRST SECOND     says whether the second HTTP answer's body may be appended to the first's
warc COMMAND --help          says more of a command, and its options
warc --version               says which one this is

FILE is a path, or - for standard input, which is one file; a path that begins with - is written ./-
Exit status: 0 done and good, 1 the file or the answer is not, 2 wrong use or a file that cannot be read.
"
        }
    }
}
