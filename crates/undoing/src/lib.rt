// undo: the last accepted call taken back. The register is made again of the calls before it, and the journal keeps its line,
// and the calls behind it, as comments.
//
// The register moves first. A run that is cut off then leaves a journal that is ahead of its register, and the same command
// completes the work; the other way round the journal would lack a call that the register has.
#![tactic(auto)]

mod comments;

use calls::Call;
use files::{NewFile, Saved, Target, Trouble};
use keeping::{Journal, Standing};
use layout::REGISTER_LENGTH;
use matching::Last;
use reading::Register;
use std::fmt;
use std::fmt::Display;
use system::System;
use terminal::Status;
use text::{Date, Plural, Text};
use wording::CalendarRefusal;

// How the register stands behind a call that was taken back, and what a file of series that was written with the call is now.
// An announcement has none.
#[derive(Clone, Copy)]
struct TakenBack<'a> {
    call: Call,
    register: Register<'a>,
}

impl Display for TakenBack<'_> {
    fn fmt<W: fmt::Write>(&self, f: &mut fmt::Formatter<W>) -> fmt::Result {
        match self.register.row_count() {
            0 => f.write_str("; the register is empty again")?,
            rows => {
                let day = Date(self.register.day());
                let s = Plural(rows);
                write!(f, "; the register stands at {day} again, {rows} row{s}")?;
            }
        }
        f.write_str("\n  the journal keeps the line, and calls refused behind it, as comments\n")?;
        f.write_str(match self.call {
            Call::Start(_, _) =>
                "  a file of series written for it is no longer right: the next start makes it anew with --file FILE\n",
            Call::Session(_, _) =>
                "  a file of series written for it is no longer right, make it anew: sindhopul file CALENDAR REGISTER FILE\n",
            Call::Announce(_, _) => "",
        })
    }
}

// The words of a line's call, without its answer and the blank before that.
fn call_in(line: &[u8]) -> &[u8] {
    match text::split_once(line, b'=') {
        Some(([call @ .., _], _)) => call,
        Some((call, _)) => call,
        None => line,
    }
}

fn tell(system: &System, last: Last<'_>, register: Register<'_>) -> Result<Status, Trouble> {
    let mut out = Text::<4096>::new();
    out.put(b"taken back: ");
    out.put(call_in(last.line.line));
    out.say(TakenBack {
        call: last.call,
        register,
    });
    terminal::tell_bytes(system, out.as_bytes(), "register and journal")
}

// How many bytes a file has; none where that cannot be known.
fn size_of(system: &System, path: &[u8]) -> Option<usize> {
    let file = attributes::of(system, path).ok()??;
    usize::try_from(file.size).ok()
}

// The journal as it was read: its whole lines, and how many bytes it had.
#[derive(Clone, Copy)]
struct Loaded<'a> {
    target: &'a Target,
    text: &'a [u8],
    size: usize,
}

// Puts the new register and then the new journal in place, which follows the register also where its folder does not come to
// the disk.
fn install(system: &System, register: Saved<'_>, journal: Saved<'_>) -> Result<(), Trouble> {
    match register.put_in_place(system, "") {
        Ok(moved) => {
            let _ = moved.settle(system);
            journal.install(system, "the register did move back; ")
        }
        Err(trouble) => {
            journal.discard(system);
            Err(trouble)
        }
    }
}

// Takes back a call that the register has: it becomes what the calls before give.
fn take_back(
    system: &System,
    opened: NewFile<'_>,
    journal: Loaded<'_>,
    last: Last<'_>,
    calendar: &[u8],
) -> Result<Status, Trouble> {
    let path = journal.target.path();
    let (before, from) = last.split(journal.text);
    let mut register = space::zeros::<REGISTER_LENGTH>();
    if let Err(trouble) = rebuilding::rebuild(system, path, before, calendar, &mut register) {
        opened.release(system);
        return Err(trouble);
    }
    let new_register = opened.save(system, &register)?;
    let new_journal = match comments::make(system, journal.target, before, from) {
        Ok(made) => made,
        Err(trouble) => {
            new_register.discard(system);
            return Err(trouble);
        }
    };
    if let Err(trouble) = files::check_size(system, path, size_of(system, path), journal.size) {
        new_journal.discard(system);
        new_register.discard(system);
        return Err(trouble);
    }
    install(system, new_register, new_journal)?;
    let register = Register {
        calendar,
        bytes: &register,
    };
    tell(system, last, register)
}

// Takes back a call that the register has not, or has no longer: a run was cut off.
fn strike_out(
    system: &System,
    opened: NewFile<'_>,
    journal: Loaded<'_>,
    last: Last<'_>,
    register: Register<'_>,
) -> Result<Status, Trouble> {
    let (before, from) = last.split(journal.text);
    let installed = comments::make(system, journal.target, before, from).and_then(
        |made| made.install(system, ""),
    );
    opened.release(system);
    installed?;
    tell(system, last, register)
}

// The names of the register of word 3 and of the journal of word 4.
#[derive(Drop)]
struct Targets {
    register: Target,
    journal: Target,
}

impl Targets {
    // Where both names are trouble, both are told.
    fn named(system: &System) -> Result<Targets, Trouble> {
        let register = terminal::followed(system, 3);
        let journal = terminal::followed(system, 4);
        let (register, journal) = (register?, journal?);
        let register = Target::new(system, register);
        let journal = Target::new(system, journal);
        let (register, journal) = (register?, journal?);
        Ok(Targets { register, journal })
    }

    // Reads the register, which this run has locked, and the journal, and how the two stand.
    fn read<'a>(
        &'a self,
        system: &System,
        calendar: &[u8],
        register: &mut [u8],
        room: &'a mut [u8],
    ) -> Result<(Loaded<'a>, Standing<'a>), Trouble> {
        // Kept: the length alone goes on: `ended` may put a line feed behind the text, into the room.
        let size = terminal::text(system, 4, room)?.len();
        // a start that was cut off leaves no register
        terminal::register_or_none(system, self.register.path(), register)?;
        let bytes = journal::ended(room, size);
        let named = Journal {
            system,
            path: self.journal.path(),
        };
        let register = Register {
            calendar,
            bytes: register,
        };
        let standing = named.judge(bytes, register, true)?;
        let journal = Loaded {
            target: &self.journal,
            text: journal::whole(bytes),
            size,
        };
        Ok((journal, standing))
    }
}

// `room` is for the journal's text.
pub fn undo(system: &System, calendar: &[u8], room: &mut [u8]) -> Result<Status, Trouble> {
    if let Err(cause) = passing::check(calendar) {
        return terminal::refuse(system, CalendarRefusal { calendar, cause });
    }
    let targets = Targets::named(system)?;
    let opened = targets.register.lock(system, Some(&targets.journal))?;
    let mut bytes = space::zeros::<REGISTER_LENGTH>();
    match targets.read(system, calendar, &mut bytes, room) {
        Ok((journal, Standing::InStep(Some(last)))) => {
            take_back(system, opened, journal, last, calendar)
        }
        Ok((journal, Standing::InStep(None))) => {
            opened.release(system);
            Err(files::complain(
                system,
                journal.target.path(),
                "none of its calls is accepted: there is nothing to take back",
            ))
        }
        Ok((journal, Standing::Ahead(last))) => {
            let register = Register {
                calendar,
                bytes: &bytes,
            };
            strike_out(system, opened, journal, last, register)
        }
        Err(trouble) => {
            opened.release(system);
            Err(trouble)
        }
    }
}
