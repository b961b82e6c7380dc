// The file of a register's new series, for the loader: written by itself, or together with the call that lists them, and read.
#![tactic(auto)]

mod making;
mod together;

use fields::Filed;
use files::{NewFile, Target, Trouble};
use layout::REGISTER_LENGTH;
use loader::MOST_LENGTH;
use making::series_of;
use reading::Register;
use report::{SeriesHeading, SeriesLine, Written};
use system::{Stream, System};
use terminal::Status;
use text::Text;
pub use together::{NewFiles, SavedFiles, Targets};
use wording::{FileRefusal, OpeningRefusal};

// Room for some lines; so full a one is written out: a line more may not fit.
const ROOM: usize = 4096;

const FULL: usize = 4000;

fn tell_written(system: &System, day: u32, length: usize) -> Result<Status, Trouble> {
    let mut out = Text::<4300>::new();
    out.put(commands::word(system, 4).as_bytes());
    out.say(Written { day, length });
    terminal::tell_bytes(system, out.as_bytes(), "the file of series")
}

// With the new file that this run has made.
fn write_new(system: &System, new: NewFile<'_>, calendar: &[u8]) -> Result<Status, Trouble> {
    let mut bytes = space::zeros::<REGISTER_LENGTH>();
    if let Err(trouble) = terminal::file(system, 3, &mut bytes) {
        new.release(system);
        return Err(trouble);
    }
    let register = Register {
        calendar,
        bytes: &bytes,
    };
    let mut room = space::zeros::<MOST_LENGTH>();
    match series_of(register, &mut room) {
        Ok(series) => {
            new.save(system, series)?.install(system, "")?;
            tell_written(system, register.day(), series.len())
        }
        Err(cause) => {
            new.release(system);
            terminal::refuse(system, OpeningRefusal { register, cause })
        }
    }
}

// file: the register's new series, written to the file of word 4. The new file is made before the register is read, so that a
// session which writes the same file is not overtaken by an older one.
#[inline(never)]
pub fn write(system: &System, calendar: &[u8]) -> Result<Status, Trouble> {
    let target = Target::new(system, terminal::followed(system, 4)?)?;
    let new = target.lock(system, None)?;
    write_new(system, new, calendar)
}

// The day and the series of a file, one a line; as much of it at a time as there is room for.
fn tell_series(system: &System, file: &[u8], filed: Filed) -> Result<Status, Trouble> {
    let Filed { day, series } = filed;
    let mut out = Text::<ROOM>::new();
    out.say(SeriesHeading { day, series });
    for &field in report::series_fields(file) {
        out.say(SeriesLine(field));
        if FULL <= out.as_bytes().len() {
            terminal::say_bytes(system, Stream::Output, out.as_bytes(), Status::Done)?;
            out.clear();
        }
    }
    terminal::say_bytes(system, Stream::Output, out.as_bytes(), Status::Done)
}

// series: what the file of word 2 says. `room` is for its bytes.
#[inline(never)]
pub fn read(system: &System, room: &mut [u8]) -> Result<Status, Trouble> {
    let file = terminal::text(system, 2, room)?;
    match parsing::check(file) {
        Ok(filed) => tell_series(system, file, filed),
        Err(cause) => {
            // Kept: a match on FileForm alone would want an answer for the causes that parsing never gives.
            let place = cause.beside();
            terminal::refuse(system, FileRefusal { file, place })
        }
    }
}
