// What the console program shares with the person at it: the arguments and the files that they name, answers and refusals,
// how a command ends.
#![tactic(auto)]

ghost use Rattle.std.specs.Prelude.{◌≡◌, IfOk};
ghost use Rattle.terminal.specs.declared.Status.TheVariants.{Done, Refused};

mod arguments;
mod streams;

pub use arguments::{
    Meaning, file, followed, has_point, number, register_or_none, replace, text, whole,
};
use files::Trouble;
use std::fmt::Display;
pub use streams::hold_streams;
use system::{Stream, System};
use text::Text;

// How a command ends that met no trouble.
// Kept: no type of std says as much: an ExitCode is not compared, and Ok and Err within the Result of a trouble name neither.
#[derive(Clone, Copy, PartialEq, Eq, Debug)]
pub enum Status {
    Done,
    // By a cause.
    Refused,
}

// Room for an answer.
const ROOM: usize = 65536;

// Writes an answer out; a pipe or disk that takes no more is trouble.
// Kept: the status is handed back, here and below, so that a command ends with what it says; behind a () each would add its Ok.
// The room of this and of `tell` is no part of their callers' stacks.
#[inline(never)]
pub fn say(
    system: &System,
    to: Stream,
    what: impl Display + Drop,
    status: Status,
) -> Result<Status, Trouble>
    ensures { IfOk result (λ end. end ≡ status) }
{
    let mut out = Text::<ROOM>::new();
    out.say(what);
    say_bytes(system, to, out.as_bytes(), status)
}

// The same of bytes that may be no text, as a name among the words, or of an answer for which there is no room here.
pub fn say_bytes(
    system: &System,
    to: Stream,
    bytes: &[u8],
    status: Status,
) -> Result<Status, Trouble>
    ensures { IfOk result (λ end. end ≡ status) }
{
    match system.write_to(to, bytes) {
        Ok(()) => Ok(status),
        Err(error) => {
            system.fail(b"the answer could not be written", error);
            Err(Trouble)
        }
    }
}

// Writes the answer of a command that has changed files. Where that fails, the message says which of them did move.
#[inline(never)]
pub fn tell(system: &System, what: impl Display + Drop, moved: &str) -> Result<Status, Trouble>
    ensures { IfOk result (λ end. end ≡ Done) }
{
    let mut out = Text::<ROOM>::new();
    out.say(what);
    tell_bytes(system, out.as_bytes(), moved)
}

// The same of bytes that may be no text, or of an answer whose room is the caller's.
pub fn tell_bytes(system: &System, bytes: &[u8], moved: &str) -> Result<Status, Trouble>
    ensures { IfOk result (λ end. end ≡ Done) }
{
    match system.write_to(Stream::Output, bytes) {
        Ok(()) => Ok(Status::Done),
        Err(error) => {
            system.tell(b"done: ");
            system.tell(moved.as_bytes());
            system.fail(b" did move, but the answer could not be written", error);
            Err(Trouble)
        }
    }
}

// A refusal in words.
pub fn refuse(system: &System, refusal: impl Display + Drop) -> Result<Status, Trouble>
    ensures { IfOk result (λ end. end ≡ Refused) }
{
    say(system, Stream::Error, refusal, Status::Refused)
}
