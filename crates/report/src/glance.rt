// The register at a glance: its day, what waits, and the six ladders.
use crate::parts::{Ladder, Waiting};
use reading::Register;
use std::fmt;
use std::fmt::Display;
use text::{Date, Plural};

// The whole register, or how to start it where it is empty.
#[derive(Clone, Copy)]
pub struct Glance<'a>(pub Register<'a>);

impl Display for Glance<'_> {
    fn fmt<W: fmt::Write>(&self, f: &mut fmt::Formatter<W>) -> fmt::Result {
        if self.0.row_count() == 0 {
            f.write_str(
                "the register is empty: start it\n  sindhopul start CALENDAR REGISTER DAY CLOSE\n",
            )
        } else {
            running(f, self.0)
        }
    }
}

fn running<W: fmt::Write>(f: &mut fmt::Formatter<W>, register: Register<'_>) -> fmt::Result {
    let day = register.day();
    let rows = register.row_count();
    write!(f, "{}: {rows} row{}, ", Date(day), Plural(rows))?;
    match (register.waiting(), register.next_session()) {
        (0, _) | (_, None) => f.write_str("no announcement waits")?,
        (n, Some(next)) => {
            write!(
                f,
                "{n} announcement{} for the session of {}",
                Plural(n),
                Date(next)
            )?
        }
    }
    write!(
        f,
        "{}\n\nmonth    tier  expires     span          rows  new today",
        Waiting(register),
    )?;
    for month in register.live_months() {
        if let Some(ladder) = Ladder::of(register, month) {
            write!(f, "{ladder}       {:4}", ladder.new)?;
        }
    }
    let new = register.rows().listed_on(day);
    write!(
        f,
        "\nin all                                   {rows:4}       {new:4}\n"
    )
}
