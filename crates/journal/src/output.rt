// Writing a line of the journal. Every call whose numbers have at most nine digits reads back.
use base::Cause;
use calls::{Answer, Call};
use dates::{DAYS, MONTHS};
use std::fmt;
use std::fmt::Display;
use text::{Date, Month, Points};

// A day or a month; as its number from the end of the calendar on.
#[derive(Drop)]
struct OrNumber<T> {
    number: u32,
    end: u16,
    shown: T,
}

fn day_or_number(day: u32) -> OrNumber<Date> {
    OrNumber {
        number: day,
        end: DAYS,
        shown: Date(day),
    }
}

fn month_or_number(month: u32) -> OrNumber<Month> {
    OrNumber {
        number: month,
        end: MONTHS,
        shown: Month(month),
    }
}

impl<T: Display> Display for OrNumber<T> {
    fn fmt<W: fmt::Write>(&self, f: &mut fmt::Formatter<W>) -> fmt::Result {
        let number = self.number;
        if number < u32::from(self.end) {
            self.shown.fmt(f)
        } else {
            write!(f, "{number}")
        }
    }
}

// A call by its name, and its arguments.
#[derive(Drop)]
struct Named(Call);

impl Display for Named {
    fn fmt<W: fmt::Write>(&self, f: &mut fmt::Formatter<W>) -> fmt::Result {
        match self.0 {
            Call::Start(day, close) => write!(f, "start {} {}", day_or_number(day), Points(close)),
            Call::Session(day, close) => write!(
                f,
                "session {} {}",
                day_or_number(day),
                Points(close)
            ),
            Call::Announce(month, price) => {
                write!(f, "announce {} {price}", month_or_number(month))
            }
        }
    }
}

// The number that a call gave and the values beside it: those of an accepted call, and beside 13 the month.
#[derive(Clone, Copy, PartialEq, Eq, Debug)]
pub struct Answered(pub Result<Answer, Cause>);

impl Display for Answered {
    fn fmt<W: fmt::Write>(&self, f: &mut fmt::Formatter<W>) -> fmt::Result {
        match self.0 {
            Ok(Answer::Listed(totals)) => {
                let added = totals.added;
                let removed = totals.removed;
                let rows = totals.rows;
                write!(f, "0 added {added} removed {removed} rows {rows}")
            }
            Ok(Answer::Announced(waiting)) => write!(f, "0 waiting {waiting}"),
            Err(Cause::CalendarMonth(month)) => {
                let number = Cause::CalendarMonth(month).number();
                let month = month_or_number(u32::from(month));
                write!(f, "{number} {month}")
            }
            Err(cause) => write!(f, "{}", cause.number()),
        }
    }
}

// A whole line: a call with what it gave, and the line feed.
#[derive(Clone, Copy, PartialEq, Eq, Debug)]
pub struct Entry {
    pub call: Call,
    pub answer: Result<Answer, Cause>,
}

impl Display for Entry {
    fn fmt<W: fmt::Write>(&self, f: &mut fmt::Formatter<W>) -> fmt::Result {
        let call = Named(self.call);
        let answer = Answered(self.answer);
        writeln!(f, "{call} = {answer}")
    }
}
