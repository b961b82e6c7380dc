// The causes of refusals, each with what is told beside it. Made from causes.txt by causes.py.
ghost use Rattle.std.specs.Prelude.{◌≡◌};
ghost use Rattle.base.specs.Numbers.{number_of, month_of, beside_of, NamesCause};

use std::fmt;
use std::fmt::Display;

#[derive(Clone, Copy, PartialEq, Eq, Debug)]
pub enum Cause {
    // The calendar is not 4566 bytes long.
    CalendarLength,
    // The calendar has a session after day 36524.
    CalendarTail,
    // A month has no session from its first day to its third Friday.
    CalendarMonth(u16),
    // The register is not 11264 bytes long.
    RegisterLength,
    // The register is neither empty nor well formed.
    RegisterForm,
    // The register to start is running.
    Running,
    // The register is empty.
    Empty,
    // There is no session on the day of the start.
    StartDay,
    // The day is not the first session day after the register's.
    SessionDay,
    // The first live month would be after March 2099.
    TooLate,
    // The close is below 9000 or above 954999.
    Close,
    // The month to announce is not live, or expires on the register's day.
    AnnounceMonth,
    // The price to announce is not on the grid that its month has on the next session day.
    AnnouncePrice,
    // The price to announce lies within its month's ladder, or waits already.
    AnnounceKnown,
    // 32 announcements wait.
    AnnounceFull,
    // The month whose rows are wanted is not live.
    RowsMonth,
    // The name is not 11 bytes long.
    NameLength,
    // There is no series of this month and price.
    NameSeries,
    // A byte of the name cannot stand at its place.
    NameByte(u16),
    // The output buffer is too short.
    OutputLength,
    // The bytes are no file of series.
    FileForm(u32),
}

// A number that no cause has.
#[derive(Clone, Copy, PartialEq, Eq, Debug)]
pub struct NoCause;

impl Cause {
    pub fn number(self) -> u16
        ensures { result ≡ number_of self }
    {
        match self {
            Cause::CalendarLength => 11,
            Cause::CalendarTail => 12,
            Cause::CalendarMonth(_) => 13,
            Cause::RegisterLength => 14,
            Cause::RegisterForm => 15,
            Cause::Running => 16,
            Cause::Empty => 17,
            Cause::StartDay => 18,
            Cause::SessionDay => 19,
            Cause::TooLate => 20,
            Cause::Close => 21,
            Cause::AnnounceMonth => 22,
            Cause::AnnouncePrice => 23,
            Cause::AnnounceKnown => 24,
            Cause::AnnounceFull => 25,
            Cause::RowsMonth => 26,
            Cause::NameLength => 27,
            Cause::NameSeries => 28,
            Cause::NameByte(_) => 29,
            Cause::OutputLength => 30,
            Cause::FileForm(_) => 31,
        }
    }

    // The month that is told beside the number; 0 where none is.
    // Kept: no Option, since what C gets has 0 where none is told: each of its conversions would add `unwrap_or(0)`.
    pub fn month(self) -> u16
        ensures { result ≡ month_of self }
    {
        match self {
            Cause::CalendarMonth(month) => month,
            _ => 0,
        }
    }

    // The month or the place that is told beside the number; 0 where none is.
    // Kept: no Option, since `Contents` has 0 where none is told, and its conversion would add `unwrap_or(0)`.
    pub fn beside(self) -> u32
        ensures { result ≡ beside_of self }
    {
        match self {
            Cause::CalendarMonth(month) => u32::from(month),
            Cause::NameByte(place) => u32::from(place),
            Cause::FileForm(place) => place,
            _ => 0,
        }
    }
}

impl TryFrom<u32> for Cause {
    type Error = NoCause;

    ghost try_from_gives = { NamesCause };

    // What is told beside a cause, no number tells.
    // Kept: a number is matched, since here it becomes a cause.
    fn try_from(number: u32) -> Result<Cause, NoCause> {
        match number {
            11 => Ok(Cause::CalendarLength),
            12 => Ok(Cause::CalendarTail),
            13 => Ok(Cause::CalendarMonth(0)),
            14 => Ok(Cause::RegisterLength),
            15 => Ok(Cause::RegisterForm),
            16 => Ok(Cause::Running),
            17 => Ok(Cause::Empty),
            18 => Ok(Cause::StartDay),
            19 => Ok(Cause::SessionDay),
            20 => Ok(Cause::TooLate),
            21 => Ok(Cause::Close),
            22 => Ok(Cause::AnnounceMonth),
            23 => Ok(Cause::AnnouncePrice),
            24 => Ok(Cause::AnnounceKnown),
            25 => Ok(Cause::AnnounceFull),
            26 => Ok(Cause::RowsMonth),
            27 => Ok(Cause::NameLength),
            28 => Ok(Cause::NameSeries),
            29 => Ok(Cause::NameByte(0)),
            30 => Ok(Cause::OutputLength),
            31 => Ok(Cause::FileForm(0)),
            _ => Err(NoCause),
        }
    }
}

impl Display for Cause {
    fn fmt<W: fmt::Write>(&self, f: &mut fmt::Formatter<W>) -> fmt::Result {
        f.write_str(match self {
            Cause::CalendarLength => "the calendar is not 4566 bytes long",
            Cause::CalendarTail => "the calendar has a session after day 36524",
            Cause::CalendarMonth(_) =>
                "a month has no session from its first day to its third Friday",
            Cause::RegisterLength => "the register is not 11264 bytes long",
            Cause::RegisterForm => "the register is neither empty nor well formed",
            Cause::Running => "the register to start is running",
            Cause::Empty => "the register is empty",
            Cause::StartDay => "there is no session on the day of the start",
            Cause::SessionDay => "the day is not the first session day after the register's",
            Cause::TooLate => "the first live month would be after March 2099",
            Cause::Close => "the close is below 9000 or above 954999",
            Cause::AnnounceMonth =>
                "the month to announce is not live, or expires on the register's day",
            Cause::AnnouncePrice =>
                "the price to announce is not on the grid that its month has on the next session day",
            Cause::AnnounceKnown =>
                "the price to announce lies within its month's ladder, or waits already",
            Cause::AnnounceFull => "32 announcements wait",
            Cause::RowsMonth => "the month whose rows are wanted is not live",
            Cause::NameLength => "the name is not 11 bytes long",
            Cause::NameSeries => "there is no series of this month and price",
            Cause::NameByte(_) => "a byte of the name cannot stand at its place",
            Cause::OutputLength => "the output buffer is too short",
            Cause::FileForm(_) => "the bytes are no file of series",
        })
    }
}
