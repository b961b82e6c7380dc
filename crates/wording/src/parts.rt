// What several answers tell: how a refusal begins, the live months, a tier's grid, and the grid prices around one that is not
// on it.
use base::{Cause, Tier};
use dates::{DAYS, MONTHS};
use reading::{PAST_PRICES, Register};
use std::fmt;
use std::fmt::Display;
use text::{Date, Month};

// The last day and the last month of a calendar.
// Kept: the casts of this file, since a constant cannot call `from`.
pub const LAST_DAY: u32 = DAYS as u32 - 1;

pub const LAST_MONTH: u32 = MONTHS as u32 - 1;

// How each refusal begins.
#[derive(Clone, Copy)]
pub struct Refused(pub Cause);

impl Display for Refused {
    fn fmt<W: fmt::Write>(&self, f: &mut fmt::Formatter<W>) -> fmt::Result {
        write!(f, "refused, cause {}: ", self.0.number())
    }
}

// The next session after a register's day. A register that stands has one.
#[derive(Clone, Copy)]
pub struct NextSession<'a>(pub Register<'a>);

impl Display for NextSession<'_> {
    fn fmt<W: fmt::Write>(&self, f: &mut fmt::Formatter<W>) -> fmt::Result {
        match self.0.next_session() {
            Some(day) => Date(day).fmt(f),
            None => Ok(()),
        }
    }
}

// Months, each behind a blank.
#[derive(Clone, Copy)]
pub struct Months<'a>(pub &'a [u32]);

impl Display for Months<'_> {
    fn fmt<W: fmt::Write>(&self, f: &mut fmt::Formatter<W>) -> fmt::Result {
        for &month in self.0 {
            write!(f, " {}", Month(month))?;
        }
        Ok(())
    }
}

// The six live months, in a line behind another one.
#[derive(Clone, Copy)]
pub struct LiveMonths<'a>(pub Register<'a>);

impl Display for LiveMonths<'_> {
    fn fmt<W: fmt::Write>(&self, f: &mut fmt::Formatter<W>) -> fmt::Result {
        write!(f, "\n  live months:{}", Months(&self.0.live_months()))
    }
}

// The bands of a tier's grid.
#[derive(Clone, Copy)]
pub struct Bands(pub Tier);

impl Display for Bands {
    fn fmt<W: fmt::Write>(&self, f: &mut fmt::Formatter<W>) -> fmt::Result {
        f.write_str(match self.0 {
            Tier::N => "5 to 475 by 5, 480 to 990 by 10, 1000 to 9975 by 25",
            Tier::M => "10 to 470 by 10, 480 to 980 by 20, 1000 to 9950 by 50",
            Tier::F => "20 to 460 by 20, 480 to 960 by 40, 1000 to 9900 by 100",
        })
    }
}

// The grid prices around the asked one, in a line behind another one.
#[derive(Clone, Copy)]
pub struct Neighbours {
    pub tier: Tier,
    pub price: u32,
}

impl Neighbours {
    // The highest price of the grid that is not above the asked one.
    fn below(self) -> Option<u32> {
        let end = self.price.min(PAST_PRICES);
        (1..=end)
            .rev()
            .find(|&price| grid::on_grid(self.tier, price))
    }

    // The lowest price of the grid that is not below the asked one.
    fn above(self) -> Option<u32> {
        (self.price..PAST_PRICES).find(|&price| grid::on_grid(self.tier, price))
    }
}

impl Display for Neighbours {
    fn fmt<W: fmt::Write>(&self, f: &mut fmt::Formatter<W>) -> fmt::Result {
        match (self.below(), self.above()) {
            (None, None) => Ok(()),
            (None, Some(above)) => write!(f, "\n  the nearest: {above} (above)"),
            (Some(below), None) => write!(f, "\n  the nearest: {below} (below)"),
            (Some(below), Some(above)) => {
                write!(f, "\n  the nearest: {below} (below) {above} (above)")
            }
        }
    }
}
