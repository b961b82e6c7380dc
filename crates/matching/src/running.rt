// The calls of a journal, run one after the other.
ghost use Rattle.std.specs.Prelude.{◌≡◌, ◌++◌};

use crate::otherwise::Otherwise;
use calls::Call;
use journal::{Entry, Refused};
use lines::{Numbered, Shown};

// The last accepted call, and its line.
#[derive(Clone, Copy)]
pub struct Last<'a> {
    pub call: Call,
    pub line: Shown<'a>,
}

impl Last<'_> {
    // The journal before the line, and from it on.
    pub fn split<'t>(self, text: &'t [u8]) -> (&'t [u8], &'t [u8])
        ensures { result.0.now ++ result.1.now ≡ text.now }
    {
        let before = lines::before(text, self.line.number);
        text.split_at_checked(before.len()).unwrap_or((text, &[]))
    }
}

// What was found in a journal that was run.
#[derive(Clone, Copy)]
pub struct Found<'a> {
    pub first: Option<Call>,
    pub last: Option<Last<'a>>,
    // Whether the register that is looked for was what the calls gave up to some line.
    // Kept: no other field depends on it; of an Option of that line nobody would read the line.
    pub passed: bool,
    // The first line that tells another answer than its call gave.
    pub other: Option<Otherwise<'a>>,
}

impl<'a> Found<'a> {
    // With a call that was answered.
    fn with(self, line: Shown<'a>, entry: Entry) -> Found<'a> {
        let tells = journal::agrees(line.line, entry.answer);
        Found {
            first: self.first.or(Some(entry.call)),
            other: self.other.or((!tells).then_some(Otherwise { line, entry })),
            ..self
        }
    }
}

// Runs the whole lines of a journal on a register, and looks whether it comes by another one. Refused is the first line that is
// none of a journal; nothing behind it is run.
pub fn run<'a>(
    text: &'a [u8],
    calendar: &[u8],
    register: &mut [u8],
    sought: Option<&[u8]>,
) -> Result<Found<'a>, Refused<'a>> {
    let mut found = Found {
        first: None,
        last: None,
        passed: false,
        other: None,
    };
    for (number, line) in Numbered::of(text) {
        let read = journal::call_in(line).map_err(|reason| {
            Refused {
                number,
                line,
                reason,
            }
        })?;
        if let Some(call) = read {
            let line = Shown { number, line };
            let answer = calling::make(calendar, register, call);
            found = found.with(line, Entry { call, answer });
            if answer.is_ok() {
                found.last = Some(Last { call, line });
                found.passed |= sought == Some(&*register);
            }
        }
    }
    Ok(found)
}
