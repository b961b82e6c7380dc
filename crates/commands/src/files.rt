// Files as a command uses them.
use std::fmt;
use std::fmt::Display;

#[derive(Clone, Copy, PartialEq, Eq, Debug)]
pub enum FileKind {
    Calendar,
    Register,
    Journal,
    List,
    Picture,
    Series,
}

// A kind as people say it.
impl Display for FileKind {
    fn fmt<W: fmt::Write>(&self, f: &mut fmt::Formatter<W>) -> fmt::Result {
        f.write_str(match self {
            FileKind::Calendar => "calendar",
            FileKind::Register => "register",
            FileKind::Journal => "journal",
            FileKind::List => "list of days",
            FileKind::Picture => "picture of ours",
            FileKind::Series => "file of series",
        })
    }
}

// What a command does with a file.
#[derive(Clone, Copy, PartialEq, Eq, Debug)]
pub enum Access {
    Read,
    Written,
    // It is read, and then written.
    Both,
}

#[derive(Clone, Copy, PartialEq, Eq, Debug)]
pub struct FileUse {
    pub kind: FileKind,
    pub access: Access,
    // Whether a dash may stand for a standard stream there.
    pub takes_stream: bool,
}
