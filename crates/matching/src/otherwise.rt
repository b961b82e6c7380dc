// A line of a journal that tells another answer than its call gives.
use base::{Cause, NoCause};
use journal::{Answered, Entry};
use lines::{Quoted, Shown};
use std::fmt;
use std::fmt::Display;

const ACCEPTED: &str = "accepted";

// What the number means that a line tells.
#[derive(Clone, Copy)]
struct Told(u32);

impl Display for Told {
    fn fmt<W: fmt::Write>(&self, f: &mut fmt::Formatter<W>) -> fmt::Result {
        if self.0 == 0 {
            return f.write_str(ACCEPTED);
        }
        match Cause::try_from(self.0) {
            Ok(cause) => cause.fmt(f),
            Err(NoCause) => f.write_str("no cause that there is"),
        }
    }
}

// The line, and its call with the answer that it gives.
#[derive(Clone, Copy)]
pub struct Otherwise<'a> {
    pub line: Shown<'a>,
    pub entry: Entry,
}

// The line, what it tells, what its call gives, and what that means.
impl Display for Otherwise<'_> {
    fn fmt<W: fmt::Write>(&self, f: &mut fmt::Formatter<W>) -> fmt::Result {
        let line = self.line;
        write!(f, "{line}")?;
        if let Some(number) = journal::number_told(line.line) {
            let told = Quoted(journal::answer_in(line.line));
            let meaning = Told(number);
            write!(f, "  it tells {told}: {meaning}\n")?;
        }
        let answer = self.entry.answer;
        let given = Answered(answer);
        write!(f, "  its call gives {given}: ")?;
        match answer {
            Ok(_) => f.write_str(ACCEPTED)?,
            Err(cause) => cause.fmt(f)?,
        }
        f.write_str(
            "\n  that means: this line or one before it was changed or lost, or the calendar is another one",
        )
    }
}
