// What several of the tables share.
use base::Tier;
use reading::{Register, Span};
use std::fmt;
use std::fmt::Display;
use text::{Date, Month};

// Kept: tier, expiry and span are a call each, as in `picture` and `inquiry`; a type of the three would be taken apart in each again.
// How a month stands in a register, with how many of its rows are new on the register's day.
#[derive(Clone, Copy)]
pub struct Ladder {
    pub month: u32,
    pub tier: Tier,
    pub expiry: u32,
    pub span: Span,
    pub rows: u32,
    pub new: u32,
}

impl Ladder {
    // None where the month has no rows.
    pub fn of(register: Register<'_>, month: u32) -> Option<Ladder> {
        let rows = register.rows_of(month);
        Some(Ladder {
            month,
            tier: register.tier(month),
            expiry: lookup::expiry(register.calendar, month)?,
            span: rows.span()?,
            rows: rows.number(),
            new: rows.listed_on(register.day()),
        })
    }
}

// The columns that each table of the six ladders begins with, in a line behind another one.
impl Display for Ladder {
    fn fmt<W: fmt::Write>(&self, f: &mut fmt::Formatter<W>) -> fmt::Result {
        write!(
            f,
            "\n{}  {}     {}  {:4} to {:4}  {:4}",
            Month(self.month),
            self.tier,
            Date(self.expiry),
            self.span.low,
            self.span.high,
            self.rows,
        )
    }
}

// The announcements that wait, each in a line behind another one.
#[derive(Clone, Copy)]
pub struct Waiting<'a>(pub Register<'a>);

impl Display for Waiting<'_> {
    fn fmt<W: fmt::Write>(&self, f: &mut fmt::Formatter<W>) -> fmt::Result {
        for waits in self.0.announcements() {
            write!(f, "\n  {}  {:4}", Month(waits.month), waits.price)?;
        }
        Ok(())
    }
}
