// Causes 18 to 21: the day and the close of a start or a session. 20 is also an announcement's.
use crate::parts::{LAST_DAY, NextSession};
use calls::Call;
use dates::MONTHS;
use grid::{HIGHEST_CLOSE, LOWEST_CLOSE};
use reading::Register;
use rules::LAST_FIRST_MONTH;
use std::cmp::Ordering;
use std::fmt;
use std::fmt::Display;
use text::{Date, Month, Points};

// The days of a week from day 0 on.
const WEEKDAYS: [&str; 7] = [
    "Saturday",
    "Sunday",
    "Monday",
    "Tuesday",
    "Wednesday",
    "Thursday",
    "Friday",
];

// A day without session, by its weekday.
#[derive(Clone, Copy)]
struct QuietDay(u32);

fn quiet(calendar: &[u8], day: u32) -> Option<QuietDay> {
    (day <= LAST_DAY && !lookup::has_session(calendar, day)).then_some(QuietDay(day))
}

impl Display for QuietDay {
    fn fmt<W: fmt::Write>(&self, f: &mut fmt::Formatter<W>) -> fmt::Result {
        // Kept: the cast, since `try_from` would need an answer for a place that no usize holds.
        let place = self.0 % 7;
        write!(f, "a {}, without session", WEEKDAYS[place as usize])
    }
}

// 18.
pub fn no_session<W: fmt::Write>(
    f: &mut fmt::Formatter<W>,
    calendar: &[u8],
    day: u32,
) -> fmt::Result {
    write!(f, "{}", Date(day))?;
    if let Some(quiet) = quiet(calendar, day) {
        write!(f, " is {quiet}")?;
    }
    if LAST_DAY < day {
        return write!(
            f,
            " is past {}, the last day\n  start on a session day up to then\n",
            Date(LAST_DAY),
        );
    }
    match lookup::next_session(calendar, day) {
        Some(after) if after <= LAST_DAY => write!(
            f,
            "\n  start on a session day; the next after it is {}\n",
            Date(after),
        ),
        _ => f.write_str(", nor has any day after it one\n  start on an earlier day\n"),
    }
}

// 19.
pub fn out_of_order<W: fmt::Write>(
    f: &mut fmt::Formatter<W>,
    register: Register<'_>,
    day: u32,
) -> fmt::Result {
    let stands = register.day();
    let next = NextSession(register);
    write!(f, "{} is not the next session day", Date(day))?;
    if let Some(quiet) = quiet(register.calendar, day) {
        write!(f, ": it is {quiet}")?;
    }
    write!(
        f,
        "\n  the register stands at {}; the next session is {next}\n",
        Date(stands),
    )?;
    let is_late = register.next_session().is_some_and(|next| next < day);
    match day.cmp(&stands) {
        Ordering::Less => f.write_str(
            "  the day asked for lies before that: already done, or before the start; look at the journal\n",
        ),
        Ordering::Equal => f.write_str(
            "  that session is already done; sindhopul show CALENDAR REGISTER tells what it left\n  \
            sindhopul file CALENDAR REGISTER FILE writes the file of its new series\n",
        ),
        Ordering::Greater if is_late => write!(
            f,
            "  left out: the session of {next} at least\n  \
            run the sessions in order, or look at the journal for one that was left out\n",
        ),
        Ordering::Greater => writeln!(f, "  the day asked for has no session; give {next}"),
    }
}

// 20. A start is asked about its own day, any other call about the next session.
pub fn too_late<W: fmt::Write>(
    f: &mut fmt::Formatter<W>,
    register: Register<'_>,
    call: Call,
) -> fmt::Result {
    writeln!(
        f,
        "the last month that may be the first live one is March 2099, month {LAST_FIRST_MONTH}",
    )?;
    let day = match call {
        Call::Start(day, _) => Some(day),
        _ => register.next_session(),
    };
    if let Some(day) = day
        && let Some(first) = lookup::first_live(register.calendar, day)
        && first < u32::from(MONTHS)
    {
        let first = Month(first);
        writeln!(f, "  on {} the first live one is {first}", Date(day))?;
    }
    f.write_str("  the six live months would run past 2099; nothing more can be listed\n")
}

// 21. A close that would be taken in points was given without the point.
pub fn close_outside<W: fmt::Write>(f: &mut fmt::Formatter<W>, close: u32) -> fmt::Result {
    write!(
        f,
        "the close {} is outside the range\n  closes go from {} to {}\n",
        Points(close),
        Points(LOWEST_CLOSE),
        Points(HIGHEST_CLOSE),
    )?;
    if close <= HIGHEST_CLOSE / 100 && LOWEST_CLOSE <= 100 * close {
        writeln!(
            f,
            "  a number without a point is in hundredths: write {close}.00"
        )
    } else {
        f.write_str("  look the close up again\n")
    }
}
