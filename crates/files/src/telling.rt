// What is told on standard error: a line with the file and what is the matter.
use std::fmt::Display;
use system::{Error, System};
use text::Text;

// Room for the words of a message, with the names of three files in quotes.
const WORDS: usize = 65536;

// The errors that come most.
const LIKELY: [Error; 13] = [
    Error::EPERM,
    Error::ENOENT,
    Error::EIO,
    Error::EACCES,
    Error::ENOTDIR,
    Error::EISDIR,
    Error::EFBIG,
    Error::ENOSPC,
    Error::EROFS,
    Error::ENAMETOOLONG,
    Error::ELOOP,
    Error::EILSEQ,
    Error::EDQUOT,
];

// That a command came into trouble, which is told already.
#[derive(Clone, Copy, Debug)]
pub struct Trouble;

fn note_bytes(system: &System, path: &[u8], what: &[u8]) {
    system.tell(path);
    system.tell(b": ");
    system.tell(what);
    system.tell(b"\n");
}

// For what is no error, or where something was changed. The room of this and of `complain` is no part of their callers' stacks.
#[inline(never)]
pub fn note(system: &System, path: &[u8], what: impl Display + Drop) {
    let mut words = Text::<WORDS>::new();
    words.say(what);
    note_bytes(system, path, words.as_bytes());
}

// An error. A command that changes files ends with it before it has changed one.
// Kept: `usage::wrong_words` is alike, but tells another trouble. A large room is filled where it stands: `Text::of` hands it back by value.
#[cold]
#[inline(never)]
pub fn complain(system: &System, path: &[u8], what: impl Display + Drop) -> Trouble {
    let mut words = Text::<WORDS>::new();
    words.say(what);
    complain_bytes(system, path, words.as_bytes())
}

// The same with bytes that may be no text, as a name or a line of a file that were put among the words.
pub fn complain_bytes(system: &System, path: &[u8], what: &[u8]) -> Trouble {
    system.tell(commands::lead(system).as_bytes());
    note_bytes(system, path, what);
    Trouble
}

// Why a call of the system failed. With an error that seldom comes what the command changes is not told.
pub fn fail(system: &System, path: &[u8], error: Error) -> Trouble {
    if LIKELY.contains(&error) {
        return complain(system, path, error);
    }
    system.fail(path, error);
    Trouble
}

// What is the matter and why, where something was changed: no more than the error is looked at.
pub fn fail_after(system: &System, path: &[u8], what: &str, error: Error) -> Trouble {
    system.tell(path);
    system.tell(b": ");
    system.fail(what.as_bytes(), error);
    Trouble
}
