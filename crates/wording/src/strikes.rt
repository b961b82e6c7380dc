// Causes 22 to 26: the month and the price of an announcement, and the month of the rows call.
use crate::parts::{Bands, LiveMonths, Months, Neighbours, NextSession, Refused};
use base::Cause;
use layout::MOST_WAITING;
use reading::Register;
use std::fmt;
use std::fmt::Display;
use text::{Date, Month};

// 22. Of the live months only the first can expire on the register's day.
pub fn month_closed<W: fmt::Write>(
    f: &mut fmt::Formatter<W>,
    register: Register<'_>,
    month: u32,
) -> fmt::Result {
    let stands = register.day();
    let months = register.live_months();
    let expiry = lookup::expiry(register.calendar, months[0]);
    write!(
        f,
        "{} takes no announcement on {}\n  ",
        Month(month),
        Date(stands)
    )?;
    match expiry {
        Some(expiry) if month == months[0] => write!(
            f,
            "it is live but expires on {}, so no later session can list it",
            Date(expiry),
        )?,
        _ => f.write_str("it is not a live month")?,
    }
    let open = match expiry {
        Some(expiry) if expiry <= stands => Months(&months[1..]),
        _ => Months(&months),
    };
    write!(
        f,
        "{}\n  open for announcements:{open}\n  announce for one of these\n",
        LiveMonths(register),
    )
}

// 23.
pub fn off_grid<W: fmt::Write>(
    f: &mut fmt::Formatter<W>,
    register: Register<'_>,
    month: u32,
    price: u32,
) -> fmt::Result {
    write!(
        f,
        "{price} is not on the grid that {} has on {}\n",
        Month(month),
        NextSession(register),
    )?;
    if let Some(tier) = register.next_tier(month) {
        let neighbours = Neighbours { tier, price };
        write!(f, "  tier {tier}: {}{neighbours}\n", Bands(tier))?;
    }
    f.write_str("  look the price up again in the exchange's announcement\n")
}

// 24. What waits lies outside the span.
pub fn needless<W: fmt::Write>(
    f: &mut fmt::Formatter<W>,
    register: Register<'_>,
    month: u32,
    price: u32,
) -> fmt::Result {
    match register.rows_of(month).span() {
        Some(span) if span.contains(price) => write!(
            f,
            "{} at {price} lies in the present span, {span}\n  \
            a session lists every grid price of the span by itself; nothing is to be announced\n",
            Month(month),
        ),
        _ => write!(
            f,
            "{} at {price} waits already\n  \
            the session of {} introduces it; nothing is left to do\n",
            Month(month),
            NextSession(register),
        ),
    }
}

// 25.
pub fn full<W: fmt::Write>(f: &mut fmt::Formatter<W>, register: Register<'_>) -> fmt::Result {
    write!(
        f,
        "{MOST_WAITING} announcements wait already, no more fit\n  \
        the next session, {}, takes them in and clears them; announce this one after it\n",
        NextSession(register),
    )
}

// The refusal of a month's rows, 26.
#[derive(Clone, Copy)]
pub struct RowsRefusal<'a> {
    pub register: Register<'a>,
    pub month: u32,
}

impl Display for RowsRefusal<'_> {
    fn fmt<W: fmt::Write>(&self, f: &mut fmt::Formatter<W>) -> fmt::Result {
        write!(
            f,
            "{}{} is not live on {}{}\n  ask for one of these\n",
            Refused(Cause::RowsMonth),
            Month(self.month),
            Date(self.register.day()),
            LiveMonths(self.register),
        )
    }
}
