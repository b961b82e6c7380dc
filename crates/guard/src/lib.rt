// Looked at before a command is carried out, by the table of commands: each file that is there is of the kind that is wanted,
// and none that is written is also another one of the command's files. So no slip costs a file.
#![tactic(auto)]

mod kinds;
mod slots;

use commands::{Access, Command, FileUse};
use files::Trouble;
use kinds::Found;
use slots::{Given, SLOTS, Slot};
use system::System;

// That a file, if it is there, is of the kind that is wanted. One that is read may be of no kind that is known: whoever reads it
// tells what is the matter. A journal may be an empty one: a start that was cut off leaves it.
fn check_kind(system: &System, name: &[u8], file: FileUse) -> Result<(), Trouble> {
    let wanted = file.kind;
    match kinds::find(system, name)? {
        Found::Kind(kind) if kind != wanted => Err(files::complain(
            system,
            name,
            format_args!("that is a {kind}, and a {wanted} is wanted: were two names exchanged?"),
        )),
        Found::Unknown if file.access == Access::Written => Err(files::complain(
            system,
            name,
            format_args!(
                "is there and is no {wanted}: it is not replaced; if it may go, move it away"
            ),
        )),
        _ => Ok(()),
    }
}

// Whether a file that is written, or the new file beside it, is another one.
fn meets(system: &System, name: &[u8], other: &[u8]) -> Result<bool, Trouble> {
    let real = files::follow(system, name)?;
    let new = files::beside(system, real.as_bytes())?;
    Ok(files::is_same(system, name, other) || files::is_same(system, new.as_bytes(), other))
}

// That a file that is written is apart from another file of the command.
fn check_apart(system: &System, name: &[u8], other: &[u8]) -> Result<(), Trouble> {
    files::known(system, other)?;
    if meets(system, name, other)? {
        return Err(files::complain(
            system,
            name,
            "is also another file of this command, which would be overwritten: name another one",
        ));
    }
    Ok(())
}

// The same from all others.
fn check_apart_from_all(
    system: &System,
    command: Command,
    slot: Slot,
    name: &[u8],
) -> Result<(), Trouble> {
    for other in SLOTS {
        if other != slot
            && let Some(other) = other.given(system, command)
        {
            check_apart(system, name, other.name.as_bytes())?;
        }
    }
    Ok(())
}

// That the file of a slot may be used as the command wants to.
fn check_file(system: &System, command: Command, slot: Slot, given: Given) -> Result<(), Trouble> {
    let name = given.name.as_bytes();
    if given.file.access != Access::Read {
        files::destination(system, name)?;
        check_apart_from_all(system, command, slot, name)?;
    }
    check_kind(system, name, given.file)
}

// That all files of the command may be used as it wants to.
#[inline(never)]
pub fn check(system: &System, command: Command) -> Result<(), Trouble> {
    for slot in SLOTS {
        if let Some(given) = slot.given(system, command) {
            check_file(system, command, slot, given)?;
        }
    }
    Ok(())
}
