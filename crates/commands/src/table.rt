// The table of commands: of each its name, the words behind it and the options that it takes.
use crate::files::{Access, FileKind, FileUse};
use crate::near;
use crate::near::Named;
use crate::options::Opt;
use std::fmt;
use std::fmt::Display;

#[derive(Clone, Copy, PartialEq, Eq, Debug)]
pub enum Command {
    Start,
    Session,
    Announce,
    Calendar,
    Check,
    Preview,
    Rows,
    Show,
    Picture,
    Name,
    Why,
    Replay,
    Audit,
    Undo,
    File,
    Series,
}

// A word as the usage line shows it.
#[derive(Clone, Copy)]
pub enum Word {
    // One that names no file, and one that may be left out too.
    Value(&'static str),
    Optional(&'static str),
    // The name of a file.
    File(&'static str, FileUse),
}

impl Word {
    fn file(self) -> Option<FileUse> {
        match self {
            Word::File(_, file) => Some(file),
            _ => None,
        }
    }
}

impl Display for Word {
    fn fmt<W: fmt::Write>(&self, f: &mut fmt::Formatter<W>) -> fmt::Result {
        match self {
            Word::Value(name) | Word::File(name, _) => f.write_str(name),
            Word::Optional(name) => write!(f, "[{name}]"),
        }
    }
}

// The words of a form of a command, in their order.
#[derive(Clone, Copy)]
pub struct Form(&'static [Word]);

impl Form {
    // How many words it has at most and at least, those of program and command among them.
    pub fn most(self) -> usize {
        2 + self.0.len()
    }

    pub fn least(self) -> usize {
        2 + self
            .0
            .iter()
            .filter(|word| !matches!(word, Word::Optional(_)))
            .count()
    }
}

// Each word stands behind a blank.
impl Display for Form {
    fn fmt<W: fmt::Write>(&self, f: &mut fmt::Formatter<W>) -> fmt::Result {
        for word in self.0 {
            write!(f, " {word}")?;
        }
        Ok(())
    }
}

const DAY: Word = Word::Value("DAY");

const CLOSE: Word = Word::Value("CLOSE");

const MONTH: Word = Word::Value("MONTH");

const PRICE: Word = Word::Value("PRICE");

const NAME: Word = Word::Value("NAME");

const CALL_OR_PUT: Word = Word::Value("call|put");

const ONE_MONTH: Word = Word::Optional("MONTH");

const CALENDAR: Word = Word::File(
    "CALENDAR",
    FileUse {
        kind: FileKind::Calendar,
        access: Access::Read,
        takes_stream: false,
    },
);

// A register that is looked at, one that is changed, and one that is made again.
const REGISTER: Word = Word::File(
    "REGISTER",
    FileUse {
        kind: FileKind::Register,
        access: Access::Read,
        takes_stream: false,
    },
);

const CHANGED_REGISTER: Word = Word::File(
    "REGISTER",
    FileUse {
        kind: FileKind::Register,
        access: Access::Both,
        takes_stream: false,
    },
);

const MADE_REGISTER: Word = Word::File(
    "REGISTER",
    FileUse {
        kind: FileKind::Register,
        access: Access::Written,
        takes_stream: false,
    },
);

// A journal that is read, and one that is changed.
const JOURNAL: Word = Word::File(
    "JOURNAL",
    FileUse {
        kind: FileKind::Journal,
        access: Access::Read,
        takes_stream: true,
    },
);

const CHANGED_JOURNAL: Word = Word::File(
    "JOURNAL",
    FileUse {
        kind: FileKind::Journal,
        access: Access::Both,
        takes_stream: false,
    },
);

const LIST: Word = Word::File(
    "LIST",
    FileUse {
        kind: FileKind::List,
        access: Access::Read,
        takes_stream: true,
    },
);

// What is written, and a file of series that is read.
const MADE_CALENDAR: Word = Word::File(
    "FILE",
    FileUse {
        kind: FileKind::Calendar,
        access: Access::Written,
        takes_stream: false,
    },
);

const PICTURE: Word = Word::File(
    "FILE",
    FileUse {
        kind: FileKind::Picture,
        access: Access::Written,
        takes_stream: true,
    },
);

const MADE_SERIES: Word = Word::File(
    "FILE",
    FileUse {
        kind: FileKind::Series,
        access: Access::Written,
        takes_stream: false,
    },
);

const SERIES: Word = Word::File(
    "FILE",
    FileUse {
        kind: FileKind::Series,
        access: Access::Read,
        takes_stream: true,
    },
);

struct Row {
    command: Command,
    name: &'static str,
    form: Form,
    // Another form, with more words.
    longer: Option<Form>,
    options: &'static [Opt],
}

impl Named for Row {
    fn name(&self) -> &'static str {
        self.name
    }
}

// The commands in their order.
static TABLE: [Row; 16] = [
    Row {
        command: Command::Start,
        name: "start",
        form: Form(&[CALENDAR, CHANGED_REGISTER, DAY, CLOSE]),
        longer: None,
        options: &[Opt::Journal, Opt::File, Opt::Yes],
    },
    Row {
        command: Command::Session,
        name: "session",
        form: Form(&[CALENDAR, CHANGED_REGISTER, DAY, CLOSE]),
        longer: None,
        options: &[Opt::Journal, Opt::File, Opt::Yes],
    },
    Row {
        command: Command::Announce,
        name: "announce",
        form: Form(&[CALENDAR, CHANGED_REGISTER, MONTH, PRICE]),
        longer: None,
        options: &[Opt::Journal],
    },
    Row {
        command: Command::Calendar,
        name: "calendar",
        form: Form(&[LIST, MADE_CALENDAR]),
        longer: None,
        options: &[],
    },
    Row {
        command: Command::Check,
        name: "check",
        form: Form(&[CALENDAR]),
        longer: None,
        options: &[],
    },
    Row {
        command: Command::Preview,
        name: "preview",
        form: Form(&[CALENDAR, REGISTER, DAY, CLOSE]),
        longer: None,
        options: &[],
    },
    Row {
        command: Command::Rows,
        name: "rows",
        form: Form(&[CALENDAR, REGISTER, ONE_MONTH]),
        longer: None,
        options: &[],
    },
    Row {
        command: Command::Show,
        name: "show",
        form: Form(&[CALENDAR, REGISTER]),
        longer: None,
        options: &[],
    },
    Row {
        command: Command::Picture,
        name: "picture",
        form: Form(&[CALENDAR, REGISTER, PICTURE]),
        longer: None,
        options: &[],
    },
    Row {
        command: Command::Name,
        name: "name",
        form: Form(&[NAME]),
        longer: Some(Form(&[MONTH, CALL_OR_PUT, PRICE])),
        options: &[],
    },
    Row {
        command: Command::Why,
        name: "why",
        form: Form(&[CALENDAR, REGISTER, NAME]),
        longer: Some(Form(&[CALENDAR, REGISTER, MONTH, PRICE])),
        options: &[],
    },
    Row {
        command: Command::Replay,
        name: "replay",
        form: Form(&[CALENDAR, JOURNAL, MADE_REGISTER]),
        longer: None,
        options: &[Opt::Force],
    },
    Row {
        command: Command::Audit,
        name: "audit",
        form: Form(&[CALENDAR, JOURNAL, REGISTER]),
        longer: None,
        options: &[],
    },
    Row {
        command: Command::Undo,
        name: "undo",
        form: Form(&[CALENDAR, CHANGED_REGISTER, CHANGED_JOURNAL]),
        longer: None,
        options: &[],
    },
    Row {
        command: Command::File,
        name: "file",
        form: Form(&[CALENDAR, REGISTER, MADE_SERIES]),
        longer: None,
        options: &[],
    },
    Row {
        command: Command::Series,
        name: "series",
        form: Form(&[SERIES]),
        longer: None,
        options: &[],
    },
];

impl Command {
    fn row(self) -> &'static Row {
        // Kept: of an enum std makes a number by a cast alone; a From would be a match that tells the table's order again.
        &TABLE[self as usize]
    }

    pub fn named(word: &[u8]) -> Option<Command> {
        let row = TABLE.iter().find(|row| row.name.as_bytes() == word)?;
        Some(row.command)
    }

    // The command that was meant by a word.
    pub fn nearest(word: &[u8]) -> Option<Command> {
        Some(near::nearest(&TABLE, word)?.command)
    }

    // The first form that has room for so many words; the last one where none has.
    // Kept: no Option: check_words tells too many words by the last form, and `get` in `file` gives none anyway.
    pub fn form(self, words: usize) -> Form {
        let row = self.row();
        match row.longer {
            Some(longer) if row.form.most() < words => longer,
            _ => row.form,
        }
    }

    // The file that word i names.
    pub fn file(self, i: usize) -> Option<FileUse> {
        let form = self.form(i.checked_add(1)?);
        form.0.get(i.checked_sub(2)?)?.file()
    }

    pub fn takes(self, option: Opt) -> bool {
        self.row().options.contains(&option)
    }

    // Whether it changes files.
    pub fn changes(self) -> bool {
        let words = self.row().form.0;
        words.iter().any(|word| word.file().is_some_and(|file| file.access != Access::Read))
            || self.takes(Opt::Journal)
    }
}

impl Display for Command {
    // Kept: the same body as that of Opt; one impl for both, over a trait of both, is none that Rust's rules allow.
    fn fmt<W: fmt::Write>(&self, f: &mut fmt::Formatter<W>) -> fmt::Result {
        f.write_str(self.row().name)
    }
}

// The usage lines of a command, one a form, each behind the lead.
#[derive(Clone, Copy)]
pub struct Usage {
    pub command: Command,
    pub lead: &'static str,
}

impl Usage {
    fn put_line<W: fmt::Write>(&self, f: &mut fmt::Formatter<W>, form: Form) -> fmt::Result {
        let lead = self.lead;
        let command = self.command;
        write!(f, "{lead}sindhopul {command}{form}")?;
        for option in command.row().options {
            match option.file() {
                Some(_) => write!(f, " [{option} FILE]")?,
                None => write!(f, " [{option}]")?,
            }
        }
        f.write_str("\n")
    }
}

impl Display for Usage {
    fn fmt<W: fmt::Write>(&self, f: &mut fmt::Formatter<W>) -> fmt::Result {
        let row = self.command.row();
        self.put_line(f, row.form)?;
        match row.longer {
            Some(longer) => self.put_line(f, longer),
            None => Ok(()),
        }
    }
}
