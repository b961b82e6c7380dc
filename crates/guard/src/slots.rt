// The files of a command: those that its words name, and those that its options name.
use commands::{Command, FileUse, Opt};
use system::{PATH_MAX, System};
use text::Text;

#[derive(Clone, Copy, PartialEq, Eq, Debug)]
pub enum Slot {
    Word(usize),
    Option(Opt),
}

pub const SLOTS: [Slot; 5] = [
    Slot::Word(2),
    Slot::Word(3),
    Slot::Word(4),
    Slot::Option(Opt::Journal),
    Slot::Option(Opt::File),
];

// A file by the name that it was given, and what the command does with it.
#[derive(Drop)]
pub struct Given {
    pub name: Text<PATH_MAX>,
    pub file: FileUse,
}

impl Slot {
    // The file that stands there. A dash is none: it stands for a standard stream, and where none may stand the words were
    // refused.
    pub fn given(self, system: &System, command: Command) -> Option<Given> {
        let (file, name) = match self {
            Slot::Word(i) => (command.file(i)?, commands::word(system, i)),
            Slot::Option(option) => (option.file()?, commands::value(system, option)?),
        };
        if name.as_bytes().is_empty() || commands::is_stream(name.as_bytes()) {
            return None;
        }
        Some(Given { name, file })
    }
}
