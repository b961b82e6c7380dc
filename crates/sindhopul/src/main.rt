// The console program: what its arguments ask. Its exit status is what `console::run` answers.
#![tactic(auto)]

use commands::{Command, Opt};
use fields::{DAY_FIELD, SERIES_FIELD};
use files::Trouble;
use space::JOURNAL_LENGTH;
use std::alloc::Global;
use std::process::ExitCode;
use system::System;
use terminal::Status;

// Room for the file of series that names them all, of 1,200 months, two types and 507 prices: more than a stack has.
const SERIES_LENGTH: usize = DAY_FIELD + SERIES_FIELD * 1200 * 2 * 507;

// How much room the command takes. Room costs time, so one that reads neither a journal nor a file of series gets none.
fn room_length(system: &System) -> usize {
    match commands::command(system) {
        Some(Command::Series) => SERIES_LENGTH,
        Some(Command::Replay | Command::Audit | Command::Undo) => JOURNAL_LENGTH,
        _ if commands::has(system, Opt::Journal) => JOURNAL_LENGTH,
        _ => 0,
    }
}

fn run(system: &System, alloc: Global) -> Result<Status, Trouble> {
    let Ok(mut room) = vec![in alloc; 0u8; room_length(system)] else {
        return Err(files::complain(
            system,
            b"sindhopul",
            "there is no memory for the file that it is to read",
        ));
    };
    console::run(system, &mut room)
}

fn main(rt: HostRuntime) -> ExitCode {
    match run(&System::new(rt), rt.alloc()) {
        Ok(Status::Done) => ExitCode::SUCCESS,
        Ok(Status::Refused) => ExitCode::from(1),
        Err(Trouble) => ExitCode::from(2),
    }
}
