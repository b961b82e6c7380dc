// The console program as a library: `run` does what the program's arguments ask.
#![tactic(auto)]

use calendar::CALENDAR_LENGTH;
use commands::Command;
use files::Trouble;
use layout::REGISTER_LENGTH;
use reading::Register;
use system::System;
use terminal::Status;

// The bytes of the file that word i names.
fn load<const N: usize>(system: &System, i: usize) -> Result<[u8; N], Trouble> {
    let mut bytes = space::zeros::<N>();
    terminal::file(system, i, &mut bytes)?;
    Ok(bytes)
}

fn calendar(system: &System) -> Result<[u8; CALENDAR_LENGTH], Trouble> {
    load(system, 2)
}

fn register(system: &System) -> Result<[u8; REGISTER_LENGTH], Trouble> {
    load(system, 3)
}

// The files of this, of `ask` and of `with_journal` are no part of the stack of the other commands.
#[inline(never)]
fn preview(system: &System) -> Result<Status, Trouble> {
    let calendar = calendar(system)?;
    let bytes = register(system)?;
    booking::preview(
        system,
        Register {
            calendar: &calendar,
            bytes: &bytes,
        },
    )
}

#[inline(never)]
fn ask<F: FnOnce(&System, Register<'_>) -> Result<Status, Trouble>>(
    system: &System,
    answer: F,
) -> Result<Status, Trouble>
    requires { F.IsAlwaysCallable answer }
{
    let calendar = calendar(system)?;
    let bytes = register(system)?;
    answers::ask(
        system,
        Register {
            calendar: &calendar,
            bytes: &bytes,
        },
        answer,
    )
}

// A command on a calendar, with room for the text of a journal.
#[inline(never)]
fn with_journal<F: FnOnce(&System, &[u8], &mut [u8]) -> Result<Status, Trouble>>(
    system: &System,
    room: &mut [u8],
    command: F,
) -> Result<Status, Trouble>
    requires { F.IsAlwaysCallable command }
{
    let calendar = calendar(system)?;
    command(system, &calendar, room)
}

// What commands read and write is no part of the stack of help and bad use.
#[inline(never)]
fn act(system: &System, command: Command, room: &mut [u8]) -> Result<Status, Trouble> {
    guard::check(system, command)?;
    // Kept: the one match over the commands, each with what it reads; a table of functions would want one signature for all.
    match command {
        Command::Calendar => answers::make_calendar(system),
        Command::Check => answers::check(system),
        Command::Name => answers::name(system),
        Command::Series => filing::read(system, room),
        Command::Start => with_journal(system, room, booking::start),
        Command::Session => with_journal(system, room, booking::session),
        Command::Announce => with_journal(system, room, booking::announce),
        Command::Replay => with_journal(system, room, restoring::replay),
        Command::Audit => with_journal(system, room, restoring::audit),
        Command::Undo => with_journal(system, room, undoing::undo),
        Command::File => filing::write(system, &calendar(system)?),
        Command::Preview => preview(system),
        Command::Rows => ask(system, answers::rows),
        Command::Show => ask(system, answers::show),
        Command::Picture => ask(system, answers::picture),
        Command::Why => ask(system, answers::why),
    }
}

// `room` is for the text of a journal, or for a file of series.
pub fn run(system: &System, room: &mut [u8]) -> Result<Status, Trouble> {
    terminal::hold_streams(system);
    match usage::first_words(system)? {
        Some(command) => act(system, command, room),
        None => Ok(Status::Done),
    }
}
