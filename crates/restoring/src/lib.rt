// A journal of calls: the register made of it again, and the audit of a register against it.
#![tactic(auto)]

mod auditing;
mod replacing;

use files::Trouble;
use keeping::Journal;
use layout::REGISTER_LENGTH;
use matching::Last;
use reading::Register;
use system::System;
use terminal::Status;
use wording::CalendarRefusal;

// What a journal gives: its whole lines, the last accepted call of them, and the register.
#[derive(Clone, Copy)]
struct Restored<'a> {
    journal: Journal<'a>,
    text: &'a [u8],
    last: Option<Last<'a>>,
    register: Register<'a>,
}

// Makes the register of the journal's lines, if these are a journal and each tells what its call gives, and uses it.
fn restore_from<F: FnOnce(Restored<'_>) -> Result<Status, Trouble>>(
    journal: Journal<'_>,
    text: &[u8],
    calendar: &[u8],
    used: F,
) -> Result<Status, Trouble>
    requires { F.IsAlwaysCallable used }
{
    let mut register = space::zeros::<REGISTER_LENGTH>();
    let found = matching::run(text, calendar, &mut register, None).map_err(
        |refused| journal.complain_line(refused),
    )?;
    if found.first.is_none() {
        return Err(journal.complain("it has no call: it is no journal"));
    }
    if let Some(other) = found.other {
        journal.complain_answer(other);
        return Ok(Status::Refused);
    }
    let mut register = space::zeros::<REGISTER_LENGTH>();
    rebuilding::rebuild(journal.system, journal.path, text, calendar, &mut register)?;
    used(Restored {
        journal,
        text,
        last: found.last,
        register: Register {
            calendar,
            bytes: &register,
        },
    })
}

// The same of the journal of word 3, for whose text there is room.
fn restore<F: FnOnce(Restored<'_>) -> Result<Status, Trouble>>(
    system: &System,
    calendar: &[u8],
    room: &mut [u8],
    used: F,
) -> Result<Status, Trouble>
    requires { F.IsAlwaysCallable used }
{
    // a calendar that is refused would refuse every call
    if let Err(cause) = passing::check(calendar) {
        return terminal::refuse(system, CalendarRefusal { calendar, cause });
    }
    // Kept: the length alone goes on: `ended` may put a line feed behind the text, into the room.
    let size = terminal::text(system, 3, room)?.len();
    let name = commands::word(system, 3);
    let journal = Journal {
        system,
        path: name.as_bytes(),
    };
    let bytes = journal::ended(room, size);
    let text = journal.whole_lines(bytes)?;
    if text.len() < bytes.len() {
        files::note(
            system,
            journal.path,
            "its last line was cut off; it is left out",
        );
    }
    restore_from(journal, text, calendar, used)
}

// replay: the register that the journal gives, put in place.
pub fn replay(system: &System, calendar: &[u8], room: &mut [u8]) -> Result<Status, Trouble> {
    restore(
        system,
        calendar,
        room,
        |restored| replacing::replace(restored.journal, restored.register),
    )
}

// audit: a register held against the one that the journal gives.
pub fn audit(system: &System, calendar: &[u8], room: &mut [u8]) -> Result<Status, Trouble> {
    restore(system, calendar, room, auditing::audit)
}
