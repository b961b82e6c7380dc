// Where a register and its journal have parted: what is the matter and the way on, as text behind the journal's name. The
// files are named as they were given, so that the commands can be run as they stand.
use crate::running::Last;
use calls::Call;
use layout::REGISTER_LENGTH;
use lines::Words;
use reading::{Register, Row};
use std::fmt;
use std::fmt::Display;
use text::{Date, Month, Plural, Text};

// The files that a command shows.
#[derive(Clone, Copy)]
pub struct Names<'a> {
    pub calendar: &'a [u8],
    pub register: &'a [u8],
    pub journal: &'a [u8],
}

#[derive(Clone, Copy)]
pub enum Way<'a> {
    // The journal has one call more than the register, this one.
    Ahead(Last<'a>),
    // No start in the journal was accepted.
    Unstarted,
    // The journal lacks the register's announcements behind those that it had, and nothing else.
    Announcements {
        register: Register<'a>,
        had: u32,
    },
    // It lacks sessions, the first on the day told.
    Sessions {
        ends: u32,
        stands: u32,
        next: Option<u32>,
    },
    // The register is empty.
    Empty {
        ends: u32,
    },
    // The journal's calls gave the register before their end.
    Passed {
        ends: u32,
        stands: u32,
    },
    // Another's register, or one of the two was changed.
    Other,
    // The same where an audit has told what differs: of a register that cannot be used, which alone is offered to be
    // replaced, and of one that can.
    OtherDamaged,
    OtherSound,
}

// Whether the journal lacks announcements and nothing else.
fn lacks_announcements(given: Register<'_>, register: Register<'_>) -> bool {
    let Ok(mut copy) = <[u8; REGISTER_LENGTH]>::try_from(given.bytes) else {
        return false;
    };
    let had = given.waiting();
    // Kept: usize has no From of a u32, and `waiting` is told as the numbers of 32 bits are.
    for waits in register.announcements().skip(had as usize) {
        let call = Call::Announce(waits.month, waits.price);
        let _ = calling::make(given.calendar, &mut copy, call);
    }
    had < register.waiting() && copy.as_slice() == register.bytes
}

// Whether a row of a month that is still live stands in the register: sessions take away no other.
// Kept: no == of two rows: rows_of goes by the order of months, so that a damaged register's rows may be of another month.
fn keeps_row(register: Register<'_>, row: Row) -> bool {
    row.month < register.first_live()
        || register.rows_of(row.month).any(|other| {
            other.price == row.price && other.first == row.first && other.origin == row.origin
        })
}

impl<'a> Way<'a> {
    // What lies between a register and what its journal gives, where the journal's last call does not explain it.
    pub fn between(given: Register<'a>, register: Register<'a>, is_passed: bool) -> Way<'a> {
        let ends = given.day();
        let stands = register.day();
        if given.is_empty() {
            Way::Unstarted
        } else if lacks_announcements(given, register) {
            let had = given.waiting();
            Way::Announcements { register, had }
        } else if ends < stands && given.rows().all(|row| keeps_row(register, row)) {
            let next = given.next_session();
            Way::Sessions { ends, stands, next }
        } else if register.is_empty() {
            Way::Empty { ends }
        } else if is_passed {
            Way::Passed { ends, stands }
        } else {
            Way::Other
        }
    }

    // Puts what is the matter, and the commands that lead on. `file` is the one of --file, if the command has it.
    pub fn put<const N: usize>(self, out: &mut Text<N>, names: Names<'_>, file: Option<&[u8]>) {
        out.say(self);
        let three: &[&[u8]] = &[names.calendar, names.journal, names.register];
        match self {
            Way::Ahead(last) => put_completion(out, last, names, file),
            Way::Announcements { register, had } => {
                // Kept: as in lacks_announcements.
                for waits in register.announcements().skip(had as usize) {
                    let month = Month(waits.month);
                    let price = waits.price;
                    put_line(out, format_args!("announce {month} {price}"), names);
                }
            }
            Way::Sessions { next, .. } => {
                if let Some(next) = next.map(Date) {
                    put_line(out, format_args!("session {next} CLOSE"), names);
                }
            }
            Way::Empty { .. } => put_command(out, b"\n  make it again: sindhopul replay", three),
            Way::Passed { .. } => {
                put_command(
                    out,
                    b"\n  make the register again: sindhopul replay --force",
                    three,
                )
            }
            Way::Other => put_command(out, b"\n  see what differs: sindhopul audit", three),
            Way::OtherDamaged => {
                put_command(
                    out,
                    b"\n  if the register was damaged, make it again: sindhopul replay --force",
                    three,
                )
            }
            Way::Unstarted | Way::OtherSound => {}
        }
    }
}

// What is the matter.
impl Display for Way<'_> {
    fn fmt<W: fmt::Write>(&self, f: &mut fmt::Formatter<W>) -> fmt::Result {
        match *self {
            Way::Ahead(_) => {
                f.write_str("it is ahead of the register: its last call was not carried out")
            }
            Way::Unstarted => {
                f.write_str(
                    "no start in it was accepted, and the register runs: they do not belong together",
                )
            }
            Way::Announcements { register, had } => {
                let n = register.waiting().saturating_sub(had);
                let s = Plural(n);
                write!(
                    f,
                    "it is behind the register by {n} announcement{s}\n  \
                    append what it lacks and run the command again:"
                )
            }
            Way::Sessions { ends, stands, .. } => {
                let ends = Date(ends);
                let stands = Date(stands);
                write!(
                    f,
                    "it is behind the register: it ends at {ends}, the register stands at {stands}\n  \
                    append each session that it lacks, with its close, and run the command again:"
                )
            }
            Way::Empty { ends } => {
                let ends = Date(ends);
                write!(f, "its calls end at {ends}, and the register is empty")
            }
            Way::Passed { ends, stands } => {
                let ends = Date(ends);
                let stands = Date(stands);
                write!(
                    f,
                    "it is ahead of the register: it ends at {ends}, the register stands at {stands}"
                )
            }
            Way::Other | Way::OtherDamaged => {
                f.write_str("it is not this register's journal, or one of the two was changed")
            }
            Way::OtherSound => {
                f.write_str(
                    "it is not this register's journal, or one of the two was changed: \
                    look which belong together",
                )
            }
        }
    }
}

// Words of a command, each behind a blank.
fn put_words<const N: usize>(out: &mut Text<N>, words: &[&[u8]]) {
    for word in words {
        out.put(b" ");
        quoting::put_word(out, word);
    }
}

fn put_command<const N: usize>(out: &mut Text<N>, command: &[u8], files: &[&[u8]]) {
    out.put(command);
    put_words(out, files);
}

// The command that appends a line.
fn put_line<const N: usize>(out: &mut Text<N>, line: impl Display + Drop, names: Names<'_>) {
    out.put(b"\n  echo '");
    out.say(line);
    out.put(b"' >>");
    put_words(out, &[names.journal]);
}

// The command that makes the journal's last call, and the one that takes it back. A file of series may be written with a call
// that lists rows; which one stands in no journal: it is the one that the command names, or the person knows it.
fn put_completion<const N: usize>(
    out: &mut Text<N>,
    last: Last<'_>,
    names: Names<'_>,
    file: Option<&[u8]>,
) {
    let lists_rows = !matches!(last.call, Call::Announce(_, _));
    out.put(b"\n  complete it");
    if lists_rows && file.is_none() {
        out.put(b", with --file if it had one");
    }
    let mut words = Words::of(last.line.line);
    out.put(b": sindhopul ");
    out.put(words.next().unwrap_or(&[]));
    put_words(out, &[names.calendar, names.register]);
    for word in words.take(2) {
        put_words(out, &[word]);
    }
    out.put(b" --journal");
    put_words(out, &[names.journal]);
    if let Some(file) = file.filter(|_| lists_rows) {
        out.put(b" --file");
        put_words(out, &[file]);
    }
    out.put(b"\n  or take it back: sindhopul undo");
    put_words(out, &[names.calendar, names.register, names.journal]);
}
