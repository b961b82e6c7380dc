// Why a call of the system failed.
use crate::System;
use std::fmt::Display;
use std::io::ErrorKind;
use std::{fmt, io, str};
use text::Text;

// The longest text of an error that the library gives.
const TEXT: usize = 512;

// What the library puts between the words and the number.
const BEFORE_NUMBER: &str = " (os error ";

// The system's number of an error.
// Kept: no enum: the system has more errors than it would name, and tells each by its number.
#[derive(Clone, Copy, PartialEq, Eq, Debug)]
pub struct Error(i32);

impl Error {
    pub const EPERM: Error = Error(1);

    pub const ENOENT: Error = Error(2);

    pub const EIO: Error = Error(5);

    pub const ENOMEM: Error = Error(12);

    pub const EACCES: Error = Error(13);

    pub const EEXIST: Error = Error(17);

    pub const ENOTDIR: Error = Error(20);

    pub const EISDIR: Error = Error(21);

    pub const EINVAL: Error = Error(22);

    pub const EFBIG: Error = Error(27);

    pub const ENOSPC: Error = Error(28);

    pub const EROFS: Error = Error(30);

    pub const ENAMETOOLONG: Error = Error(36);

    pub const ELOOP: Error = Error(40);

    pub const EILSEQ: Error = Error(84);

    pub const EDQUOT: Error = Error(122);
}

// Where the library found the error before the system did, it is the one that the system would have given.
impl From<io::Error> for Error {
    fn from(error: io::Error) -> Error {
        if let Some(number) = error.raw_os_error() {
            return Error(number);
        }
        match error.kind() {
            ErrorKind::InvalidInput => Error::EINVAL,
            ErrorKind::InvalidData => Error::EILSEQ,
            ErrorKind::InvalidFilename => Error::EILSEQ,
            ErrorKind::OutOfMemory => Error::ENOMEM,
            _ => Error::EIO,
        }
    }
}

// The system's words.
impl Display for Error {
    fn fmt<W: fmt::Write>(&self, f: &mut fmt::Formatter<W>) -> fmt::Result {
        let text = Text::<TEXT>::of(io::Error::from_raw_os_error(self.0));
        match str::from_utf8(text.as_bytes()) {
            Ok(text) => f.write_str(words(text)),
            Err(_) => Ok(()),
        }
    }
}

impl std::error::Error for Error {}

// The words of an error's text: its number stands behind them.
fn words(text: &str) -> &str {
    match text.split_once(BEFORE_NUMBER) {
        Some((words, _)) => words,
        None => text,
    }
}

impl System {
    // Writes a line to standard error: what failed, a colon and the system's words for the error.
    pub fn fail(&self, what: &[u8], error: Error) {
        self.tell(what);
        self.tell(b": ");
        self.tell(Text::<TEXT>::of(error).as_bytes());
        self.tell(b"\n");
    }
}
