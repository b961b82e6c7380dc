// A calendar's bytes from a list of weekdays without session and of extra sessions, as the exchange publishes them.
#![tactic(auto)]

ghost use Rattle.std.specs.Prelude.{◌≡◌, ◌&&◌, ℕ, ◌%◌, ◌^◌, cond, ltb, length};
ghost use Rattle.dates.specs.Months.{day_count};
ghost use Rattle.calendar.specs.Calendar.{calendar_length, session};
ghost use Rattle.holidays.specs.Sessions.{weekday, with_session, without_session};

use calendar::CALENDAR_LENGTH;
use dates::DAYS;
use lines::Words;
use std::fmt;
use std::fmt::Display;
use text::END_YEAR;

// Why a line is refused.
#[derive(Clone, Copy, PartialEq, Eq, Debug)]
pub enum Reason {
    NotDate,
    Late,
    // A Saturday or Sunday that is not marked as an extra session.
    Weekend,
    // A weekday that is marked as an extra session.
    Weekday,
}

impl Display for Reason {
    fn fmt<W: fmt::Write>(&self, f: &mut fmt::Formatter<W>) -> fmt::Result {
        f.write_str(match self {
            Reason::NotDate =>
                "not a date from 2000-01-01 on: write 2026-12-25, or +2026-01-10 for an extra session",
            Reason::Late => "past 2099-12-31, the calendar's last day",
            Reason::Weekend =>
                "a Saturday or Sunday has no session anyway; write + before an extra session",
            Reason::Weekday => "a weekday has a session anyway; + is for a Saturday or Sunday",
        })
    }
}

pub type Refused<'a> = lines::Refused<'a, Reason>;

// Why no calendar is made. It is of no use then.
// Kept: the public `make` takes any slice, where an array would ask more of callers; an Option of the line would not name the length.
#[derive(Clone, Copy, Debug)]
pub enum Fault<'a> {
    // The calendar has not 4,566 bytes.
    WrongLength,
    // The first line that cannot be taken.
    Line(Refused<'a>),
}

// Day 0 is a Saturday.
fn is_weekday(day: u32) -> bool
    ensures { result ≡ weekday day }
{
    2 <= day % 7
}

// The weight of a day's bit in its byte.
fn weight(day: u32) -> u8
    ensures { result ≡ 2 ^ (day % 8) }
{
    1u8 << (day % 8)
}

// Gives a day a session, or takes it away.
#[tactic(auto, unfolding(crate::specs::Sessions::with_session, crate::specs::Sessions::without_session))]
fn set_session(calendar: &mut [u8], day: u32, has: bool)
    ensures { calendar.new ≡ cond has (with_session calendar.old day) (without_session calendar.old day) }
{
    // Kept: the cast, since `try_from` would need an answer for a byte's place that no usize holds.
    let at = (day / 8) as usize;
    if at < calendar.len() {
        let weight = weight(day);
        calendar[at] = if has {
            calendar[at] | weight
        } else {
            calendar[at] & !weight
        };
    }
}

// Gives every weekday a session, and no other day.
fn set_weekdays(calendar: &mut [u8])
    requires { length calendar.old ≡ calendar_length }
    ensures { (n : ℕ) → session calendar.new n ≡ (ltb n day_count && weekday n) }
{
    calendar.fill(0);
    for day in 0..u32::from(DAYS) {
        if is_weekday(day) {
            set_session(calendar, day, true);
        }
    }
}

// Whether a word that is not taken as a date has a year past the calendar.
fn is_late(word: &[u8]) -> bool {
    word.len() == 10 && text::read_number(&word[..4]).is_some_and(|year| END_YEAR <= year)
}

// The day of a date, if the calendar has it.
fn day_of(date: &[u8]) -> Result<u32, Reason> {
    match text::read_day(date) {
        Some(day) if day < u32::from(DAYS) => Ok(day),
        None if !is_late(date) => Err(Reason::NotDate),
        _ => Err(Reason::Late),
    }
}

// Takes a weekday without session, or behind a + an extra session.
fn take_word(word: &[u8], calendar: &mut [u8]) -> Result<(), Reason> {
    let (date, is_extra) = match word.strip_prefix(b"+") {
        Some(date) => (date, true),
        None => (word, false),
    };
    let day = day_of(date)?;
    match (is_weekday(day), is_extra) {
        (false, false) => return Err(Reason::Weekend),
        (true, true) => return Err(Reason::Weekday),
        _ => set_session(calendar, day, is_extra),
    }
    Ok(())
}

// Takes a line: a date, or nothing, and perhaps a comment.
fn take(line: &[u8], calendar: &mut [u8]) -> Result<(), Reason> {
    let mut words = Words::of(lines::content(line));
    match (words.next(), words.next()) {
        (None, _) => Ok(()),
        (Some(word), None) => take_word(word, calendar),
        (Some(_), Some(_)) => Err(Reason::NotDate),
    }
}

// Fills a calendar from a list, the last line of which may have no line feed. An entry point: it takes any bytes.
pub fn make<'a>(list: &'a [u8], calendar: &mut [u8]) -> Result<(), Fault<'a>> {
    if calendar.len() != CALENDAR_LENGTH {
        return Err(Fault::WrongLength);
    }
    set_weekdays(calendar);
    for (number, line) in (1u32..).zip(list.split(|&byte| byte == b'\n')) {
        take(line, calendar).map_err(|reason| Fault::Line(Refused {
            number,
            line,
            reason,
        }))?;
    }
    Ok(())
}
