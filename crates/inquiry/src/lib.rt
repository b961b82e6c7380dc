// Why a series is listed, or is not, and what would bring it in: answered from a calendar and a register that was accepted.
#![tactic(auto)]

mod case;
mod months;
mod next;

use base::Tier;
use case::Case;
use dates::MONTHS;
use months::NotLive;
use next::Prospects;
use phrases::{OriginByte, SeriesName};
use reading::{Register, Row};
use std::fmt;
use std::fmt::Display;
use text::{Date, Month};
use wording::{Bands, Neighbours};

// The answer for a month and a price: one line, and under it indented ones that tell more.
#[derive(Clone, Copy)]
pub struct Why<'a> {
    pub register: Register<'a>,
    pub month: u32,
    pub price: u32,
}

impl Display for Why<'_> {
    fn fmt<W: fmt::Write>(&self, f: &mut fmt::Formatter<W>) -> fmt::Result {
        let Why {
            register,
            month,
            price,
        } = *self;
        series(f, month, price)?;
        match Case::of(register, month, price) {
            None => write!(f, "{}", NotLive { register, month })?,
            Some(case) => verdict(f, case)?,
        }
        f.write_str("\n")
    }
}

// The names of call and put, or month and price where these have no name.
fn series<W: fmt::Write>(f: &mut fmt::Formatter<W>, month: u32, price: u32) -> fmt::Result {
    if month < u32::from(MONTHS) && grid::on_grid(Tier::N, price) {
        let call = SeriesName::call(month, price);
        let put = SeriesName::put(month, price);
        write!(f, "{call} and {put}: ")
    } else {
        write!(f, "{} at {price}: ", Month(month))
    }
}

// Whether a price of a live month is listed, and what follows.
fn verdict<W: fmt::Write>(f: &mut fmt::Formatter<W>, case: Case<'_>) -> fmt::Result {
    let mut rows = case.register.rows_of(case.month);
    match rows.find(|row| row.price == case.price) {
        Some(row) => listed(f, case, row),
        None => {
            not_listed(f, case)?;
            write!(f, "{}", Prospects(case))
        }
    }
}

fn listed<W: fmt::Write>(f: &mut fmt::Formatter<W>, case: Case<'_>, row: Row) -> fmt::Result {
    write!(
        f,
        "listed since {}: {}\n  {}, span {}",
        Date(row.first),
        OriginByte(row.origin),
        Live(case),
        case.span,
    )
}

// A price on the month's grid is outside its span, any other not on that grid.
fn not_listed<W: fmt::Write>(f: &mut fmt::Formatter<W>, case: Case<'_>) -> fmt::Result {
    let Case {
        price,
        tier,
        span,
        ..
    } = case;
    if grid::on_grid(tier, price) {
        write!(f, "not listed: outside the span {span}\n  {}", Live(case))
    } else {
        write!(
            f,
            "not listed: not on the grid of tier {tier}\n  {}, span {span}\n  its grid: {}{}",
            Live(case),
            Bands(tier),
            Neighbours { tier, price },
        )
    }
}

// How the month stands.
#[derive(Clone, Copy)]
struct Live<'a>(Case<'a>);

impl Display for Live<'_> {
    fn fmt<W: fmt::Write>(&self, f: &mut fmt::Formatter<W>) -> fmt::Result {
        let Case {
            month,
            tier,
            expiry,
            ..
        } = self.0;
        write!(f, "{}: tier {tier}, expires {}", Month(month), Date(expiry))
    }
}
