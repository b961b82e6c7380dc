// Commands that ask a register, a calendar or a name and answer: check, rows, show, picture, name, why; and the calendar made
// from its list.
#![tactic(auto)]

ghost use Rattle.std.specs.Prelude.{◌≡◌, IfOk};
ghost use Rattle.terminal.specs.declared.Status.TheVariants.{Done};

use calendar::CALENDAR_LENGTH;
use dates::DAYS;
use files::Trouble;
use holidays::Fault;
use inquiry::Why;
use names::{Kind, Named};
use phrases::KindName;
use picture::Picture;
use reading::Register;
use report::{Glance, MonthRows};
use space::{LIST_LENGTH, OUTPUT_LENGTH};
use std::fmt;
use std::fmt::Display;
use system::{Stream, System};
use terminal::{Meaning, Status};
use text::{Month, Text};
use wording::{CalendarRefusal, NameRefusal, OpeningRefusal, RowsRefusal};

// Room for a calendar that is looked at: one that is too long is refused as such. What has a room, here and below, is
// not inlined, so that the room is on no other command's stack.
const ROOM: usize = 65536;

// Room for a line. That of terminal::tell would stand on top of the list's and the calendar's.
const LINE: usize = 128;

// That a calendar is accepted, and how many sessions it has.
#[derive(Clone, Copy)]
struct Accepted<'a>(&'a [u8]);

impl Display for Accepted<'_> {
    fn fmt<W: fmt::Write>(&self, f: &mut fmt::Formatter<W>) -> fmt::Result {
        let sessions = (0..DAYS)
            .filter(|&day| calendar::has_session(self.0, day))
            .count();
        writeln!(
            f,
            "the calendar is accepted: {sessions} sessions from 2000-01-01 to 2099-12-31"
        )
    }
}

fn answer(system: &System, what: impl Display + Drop) -> Result<Status, Trouble>
    ensures { IfOk result (λ end. end ≡ Done) }
{
    terminal::say(system, Stream::Output, what, Status::Done)
}

#[inline(never)]
pub fn check(system: &System) -> Result<Status, Trouble> {
    let mut room = space::zeros::<ROOM>();
    let calendar = terminal::text(system, 2, &mut room)?;
    match passing::check(calendar) {
        Ok(_) => answer(system, Accepted(calendar)),
        Err(cause) => terminal::refuse(system, CalendarRefusal { calendar, cause }),
    }
}

fn complain_list(system: &System, what: impl Display + Drop) -> Trouble {
    files::complain(system, commands::word(system, 2).as_bytes(), what)
}

// Whether a calendar is that of an empty list, as of one that was lost on its way.
fn lists_nothing(calendar: &[u8]) -> bool {
    let mut plain = space::zeros::<CALENDAR_LENGTH>();
    let _ = holidays::make(b"", &mut plain);
    calendar == plain.as_slice()
}

// Makes the calendar of a list and, where it passes its check, writes it.
fn make_of(system: &System, list: &[u8]) -> Result<Status, Trouble> {
    let mut calendar = space::zeros::<CALENDAR_LENGTH>();
    if let Err(Fault::Line(refused)) = holidays::make(list, &mut calendar) {
        return Err(complain_list(system, refused));
    }
    let calendar = calendar.as_slice();
    if lists_nothing(calendar) {
        return Err(complain_list(system, "it lists no day: it is no list of days"));
    }
    if let Err(cause) = passing::check(calendar) {
        return terminal::refuse(system, CalendarRefusal { calendar, cause });
    }
    terminal::replace(system, 3, calendar)?;
    let mut out = Text::<LINE>::new();
    out.say(Accepted(calendar));
    terminal::tell_bytes(system, out.as_bytes(), "the calendar")
}

#[inline(never)]
pub fn make_calendar(system: &System) -> Result<Status, Trouble> {
    let mut room = space::zeros::<LIST_LENGTH>();
    let list = terminal::text(system, 2, &mut room)?;
    make_of(system, list)
}

// The rows of the six live months, in their order.
#[inline(never)]
fn all_rows(system: &System, register: Register<'_>) -> Result<Status, Trouble> {
    let mut out = Text::<OUTPUT_LENGTH>::new();
    for month in register.live_months() {
        if let Some(rows) = MonthRows::of(register, month) {
            out.say(rows);
        }
    }
    terminal::say_bytes(system, Stream::Output, out.as_bytes(), Status::Done)
}

// Its rows, of one month or of all.
pub fn rows(system: &System, register: Register<'_>) -> Result<Status, Trouble> {
    if commands::count(system) == 4 {
        return all_rows(system, register);
    }
    let month = terminal::number(system, 4, Meaning::Month)?;
    match MonthRows::of(register, month) {
        Some(rows) => answer(system, rows),
        None => terminal::refuse(system, RowsRefusal { register, month }),
    }
}

// The six ladders.
pub fn show(system: &System, register: Register<'_>) -> Result<Status, Trouble>
    ensures { IfOk result (λ end. end ≡ Done) }
{
    answer(system, Glance(register))
}

// The six ladders drawn.
#[inline(never)]
pub fn picture(system: &System, register: Register<'_>) -> Result<Status, Trouble>
    ensures { IfOk result (λ end. end ≡ Done) }
{
    let mut out = Text::<OUTPUT_LENGTH>::new();
    out.say(Picture(register));
    if commands::is_stream(commands::word(system, 4).as_bytes()) {
        return terminal::say_bytes(system, Stream::Output, out.as_bytes(), Status::Done);
    }
    terminal::replace(system, 4, out.as_bytes())?;
    Ok(Status::Done)
}

// Why a series is listed, or why it is not.
pub fn why(system: &System, register: Register<'_>) -> Result<Status, Trouble> {
    let (month, price) = if commands::count(system) == 5 {
        match names::read(commands::word(system, 4).as_bytes()) {
            Ok(series) => (u32::from(series.month), u32::from(series.price)),
            Err(cause) => return terminal::refuse(system, NameRefusal(cause)),
        }
    } else {
        let month = terminal::number(system, 4, Meaning::Month)?;
        (month, terminal::number(system, 5, Meaning::Price)?)
    };
    answer(
        system,
        Why {
            register,
            month,
            price,
        },
    )
}

// Answers a question about a register by one of the four functions above; a register that cannot be used is refused.
pub fn ask<F: FnOnce(&System, Register<'_>) -> Result<Status, Trouble>>(
    system: &System,
    register: Register<'_>,
    answer: F,
) -> Result<Status, Trouble>
    requires { F.IsAlwaysCallable answer }
{
    if let Err(cause) = register.refusal() {
        return terminal::refuse(system, OpeningRefusal { register, cause });
    }
    answer(system, register)
}

fn read_name(system: &System) -> Result<Status, Trouble> {
    match names::read(commands::word(system, 2).as_bytes()) {
        Ok(Named { month, kind, price }) => {
            let month = Month(u32::from(month));
            let kind = KindName(kind);
            answer(system, format_args!("{month} {kind} {price}\n"))
        }
        Err(cause) => terminal::refuse(system, NameRefusal(cause)),
    }
}

fn kind_of(system: &System, i: usize) -> Result<Kind, Trouble> {
    let word = commands::word(system, i);
    match word.as_bytes() {
        b"call" => Ok(Kind::Call),
        b"put" => Ok(Kind::Put),
        other => Err(files::complain(system, other, "is neither call nor put")),
    }
}

fn write_name(system: &System) -> Result<Status, Trouble> {
    let month = terminal::number(system, 2, Meaning::Month)?;
    let kind = kind_of(system, 3)?;
    let price = terminal::number(system, 4, Meaning::Price)?;
    let mut name = [0; names::LENGTH];
    // Kept: names::write is a call of C too, which gives the kind as a number; it alone refuses a month or a price.
    match names::write(&mut name, month, u32::from(kind.number()), price) {
        Ok(()) => {
            let mut line = Text::<16>::new();
            line.put(&name);
            line.put(b"\n");
            terminal::say_bytes(system, Stream::Output, line.as_bytes(), Status::Done)
        }
        Err(cause) => terminal::refuse(system, NameRefusal(cause)),
    }
}

#[inline(never)]
pub fn name(system: &System) -> Result<Status, Trouble> {
    if commands::count(system) == 3 {
        read_name(system)
    } else {
        write_name(system)
    }
}
