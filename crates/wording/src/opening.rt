// Causes 11 to 17: the calendar, the register, and whether it runs.
use crate::parts::{LAST_DAY, NextSession, Refused};
use base::Cause;
use calendar::CALENDAR_LENGTH;
use layout::REGISTER_LENGTH;
use reading::Register;
use std::fmt;
use std::fmt::Display;
use text::{Date, Month};

// A calendar's refusal, 11 to 13.
#[derive(Clone, Copy)]
pub struct CalendarRefusal<'a> {
    pub calendar: &'a [u8],
    pub cause: Cause,
}

// Kept: as that of an opening's refusal, below.
impl Display for CalendarRefusal<'_> {
    fn fmt<W: fmt::Write>(&self, f: &mut fmt::Formatter<W>) -> fmt::Result {
        write!(f, "{}", Refused(self.cause))?;
        calendar_refused(f, self.calendar, self.cause)
    }
}

fn calendar_refused<W: fmt::Write>(
    f: &mut fmt::Formatter<W>,
    calendar: &[u8],
    cause: Cause,
) -> fmt::Result {
    match cause {
        Cause::CalendarLength => write!(
            f,
            "the calendar has {} bytes, not {CALENDAR_LENGTH}\n  \
            look whether that file is the calendar\n  \
            sindhopul calendar LIST FILE makes one from a list of days\n",
            calendar.len(),
        ),
        Cause::CalendarTail => write!(
            f,
            "the calendar has a session after its last day, {}\n  \
            the three highest bits of its last byte have to be zero\n  \
            make it anew: sindhopul calendar LIST FILE\n",
            Date(LAST_DAY),
        ),
        Cause::CalendarMonth(month) => no_early_session(f, u32::from(month)),
        _ => f.write_str("\n"),
    }
}

// 13.
fn no_early_session<W: fmt::Write>(f: &mut fmt::Formatter<W>, month: u32) -> fmt::Result {
    writeln!(f, "{} has no session up to its third Friday", Month(month))?;
    if let (Some(first), Some(friday)) = (lookup::first_day(month), lookup::third_friday(month)) {
        writeln!(
            f,
            "  the calendar needs one from {} to {}",
            Date(first),
            Date(friday)
        )?;
    }
    f.write_str(
        "  mend the list of days and make the calendar anew: sindhopul calendar LIST FILE\n",
    )
}

// The refusal of what is asked of any register, 11 to 17.
#[derive(Clone, Copy)]
pub struct OpeningRefusal<'a> {
    pub register: Register<'a>,
    pub cause: Cause,
}

// Kept: that of a calendar is alike, but one type for both is longer than their two lines.
impl Display for OpeningRefusal<'_> {
    fn fmt<W: fmt::Write>(&self, f: &mut fmt::Formatter<W>) -> fmt::Result {
        write!(f, "{}", Refused(self.cause))?;
        opening_refused(f, self.register, self.cause)
    }
}

pub fn opening_refused<W: fmt::Write>(
    f: &mut fmt::Formatter<W>,
    register: Register<'_>,
    cause: Cause,
) -> fmt::Result {
    match cause {
        Cause::RegisterLength => write!(
            f,
            "the register has {} bytes, not {REGISTER_LENGTH}\n  \
            look whether that file is the register\n  \
            the journal makes it anew: sindhopul replay CALENDAR JOURNAL REGISTER\n",
            register.bytes.len(),
        ),
        Cause::RegisterForm => f.write_str(
            "this is no register of this calendar, or it was damaged\n  \
            look whether the two files belong together\n  \
            the journal makes it anew: sindhopul replay --force CALENDAR JOURNAL REGISTER\n",
        ),
        Cause::Running => write!(
            f,
            "the register runs already, it stands at {}\n  \
            start is for an empty register; go on with session:\n  \
            sindhopul session CALENDAR REGISTER {} CLOSE\n",
            Date(register.day()),
            NextSession(register),
        ),
        Cause::Empty => f.write_str(
            "the register is empty\n  \
            start it: sindhopul start CALENDAR REGISTER DAY CLOSE\n  \
            or, if it ran before:\n  \
            the journal makes it anew: sindhopul replay CALENDAR JOURNAL REGISTER\n",
        ),
        _ => calendar_refused(f, register.calendar, cause),
    }
}
