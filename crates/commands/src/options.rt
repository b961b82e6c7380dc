// The options.
use crate::files::{Access, FileKind, FileUse};
use crate::near;
use crate::near::Named;
use std::fmt;
use std::fmt::Display;

#[derive(Clone, Copy, PartialEq, Eq, Debug)]
pub enum Opt {
    Journal,
    File,
    Yes,
    Force,
    Help,
    Version,
}

pub struct Row {
    pub option: Opt,
    name: &'static str,
    // The file that its value names, where it has a value.
    file: Option<FileUse>,
}

impl Named for Row {
    fn name(&self) -> &'static str {
        self.name
    }
}

// The options, and behind them the other names of some.
pub static TABLE: [Row; 7] = [
    Row {
        option: Opt::Journal,
        name: "--journal",
        file: Some(FileUse {
            kind: FileKind::Journal,
            access: Access::Both,
            takes_stream: false,
        }),
    },
    Row {
        option: Opt::File,
        name: "--file",
        file: Some(FileUse {
            kind: FileKind::Series,
            access: Access::Written,
            takes_stream: false,
        }),
    },
    Row {
        option: Opt::Yes,
        name: "--yes",
        file: None,
    },
    Row {
        option: Opt::Force,
        name: "--force",
        file: None,
    },
    Row {
        option: Opt::Help,
        name: "--help",
        file: None,
    },
    Row {
        option: Opt::Version,
        name: "--version",
        file: None,
    },
    Row {
        option: Opt::Help,
        name: "-h",
        file: None,
    },
];

// An option as it was given: its name, and its value where that stands behind an equals sign.
pub fn parts(word: &[u8]) -> (&[u8], Option<&[u8]>) {
    match text::split_once(word, b'=') {
        Some((name, value)) => (name, Some(value)),
        None => (word, None),
    }
}

impl Opt {
    fn row(self) -> &'static Row {
        // Kept: of an enum std makes a number by a cast alone; a From would be a match that tells the table's order again.
        &TABLE[self as usize]
    }

    // The option that a word is. One that has no value is none with a value behind it.
    pub fn named(word: &[u8]) -> Option<Opt> {
        let (name, value) = parts(word);
        let row = TABLE.iter().find(|row| row.name.as_bytes() == name)?;
        if value.is_some() && row.file.is_none() {
            return None;
        }
        Some(row.option)
    }

    // The name of the option that was meant by a word.
    pub fn nearest(word: &[u8]) -> Option<&'static str> {
        let (name, _) = parts(word);
        Some(near::nearest(&TABLE, name)?.name)
    }

    // The file that its value names; an option without a file has no value.
    pub fn file(self) -> Option<FileUse> {
        self.row().file
    }
}

impl Display for Opt {
    // Kept: the same body as that of Command; one impl for both, over a trait of both, is none that Rust's rules allow.
    fn fmt<W: fmt::Write>(&self, f: &mut fmt::Formatter<W>) -> fmt::Result {
        f.write_str(self.row().name)
    }
}
