// Days, months, closes and counted things, as they are told.
use crate::read::FIRST_YEAR;
use dates::MONTHS;
use std::fmt;
use std::fmt::Display;

// A length or a place as it is told: the greatest number that is written where it is greater.
pub fn narrowed(n: usize) -> u32 {
    u32::try_from(n).unwrap_or(u32::MAX)
}

// A day as 2026-11-16.
#[derive(Clone, Copy, PartialEq, Eq, Debug)]
pub struct Date(pub u32);

impl Display for Date {
    fn fmt<W: fmt::Write>(&self, f: &mut fmt::Formatter<W>) -> fmt::Result {
        let day = self.0;
        match lookup::date_of(day) {
            Some(lookup::Date { year, month, day }) => write!(f, "{year}-{month:02}-{day:02}"),
            None => write!(f, "day {day}"),
        }
    }
}

// A month as 2026-12.
#[derive(Clone, Copy, PartialEq, Eq, Debug)]
pub struct Month(pub u32);

impl Display for Month {
    fn fmt<W: fmt::Write>(&self, f: &mut fmt::Formatter<W>) -> fmt::Result {
        let month = self.0;
        if u32::from(MONTHS) <= month {
            return write!(f, "month {month}");
        }
        let year = FIRST_YEAR + month / 12;
        let place = month % 12 + 1;
        write!(f, "{year}-{place:02}")
    }
}

// A close in points, as 2413.37.
#[derive(Clone, Copy, PartialEq, Eq, Debug)]
pub struct Points(pub u32);

impl Display for Points {
    fn fmt<W: fmt::Write>(&self, f: &mut fmt::Formatter<W>) -> fmt::Result {
        let whole = self.0 / 100;
        let hundredths = self.0 % 100;
        write!(f, "{whole}.{hundredths:02}")
    }
}

// The s behind a counted thing, of which there is not one.
#[derive(Clone, Copy, PartialEq, Eq, Debug)]
pub struct Plural(pub u32);

impl Display for Plural {
    fn fmt<W: fmt::Write>(&self, f: &mut fmt::Formatter<W>) -> fmt::Result {
        f.write_str(if self.0 == 1 { "" } else { "s" })
    }
}
