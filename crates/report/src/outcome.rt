// What an accepted call did to the register.
use crate::close::Distance;
use crate::parts::{Ladder, Waiting};
use calls::Totals;
use layout::MOST_WAITING;
use phrases::SeriesName;
use reading::{Register, Span};
use std::fmt;
use std::fmt::Display;
use text::{Date, Month, Plural};

// What a start or a session did: the totals, its close, the month that was dropped, what was taken in, then the live months.
#[derive(Clone, Copy)]
pub struct Changes<'a> {
    pub before: Register<'a>,
    pub after: Register<'a>,
    pub totals: Totals,
    pub close: u32,
}

impl Display for Changes<'_> {
    fn fmt<W: fmt::Write>(&self, f: &mut fmt::Formatter<W>) -> fmt::Result {
        let Changes {
            before,
            after,
            totals,
            close,
        } = *self;
        let Totals {
            added,
            removed,
            rows,
        } = totals;
        let was = before.row_count();
        write!(
            f,
            "{}: {added} row{} added, {removed} removed, {rows} listed, {was} before{}",
            Date(after.day()),
            Plural(u32::from(added)),
            Distance {
                before,
                after,
                close
            },
        )?;
        if 0 < removed {
            expired(f, before, removed)?;
        }
        let n = before.waiting();
        if 0 < n {
            write!(
                f,
                "\n  {n} announcement{} taken in:{}",
                Plural(n),
                Waiting(before)
            )?;
        }
        ladders(f, before, after)?;
        f.write_str("\n")
    }
}

// The rows that went are those of the month that was the first live one.
fn expired<W: fmt::Write>(
    f: &mut fmt::Formatter<W>,
    before: Register<'_>,
    removed: u16,
) -> fmt::Result {
    let month = before.first_live();
    let Some(expiry) = lookup::expiry(before.calendar, month) else {
        return Ok(());
    };
    write!(
        f,
        "\n  {} expired on {}: {removed} row{} removed",
        Month(month),
        Date(expiry),
        Plural(u32::from(removed)),
    )
}

fn ladders<W: fmt::Write>(
    f: &mut fmt::Formatter<W>,
    before: Register<'_>,
    after: Register<'_>,
) -> fmt::Result {
    f.write_str("\n\nmonth    tier  expires     span          rows  added")?;
    for month in after.live_months() {
        if let Some(ladder) = Ladder::of(after, month) {
            write!(f, "{ladder}   {:4}", ladder.new)?;
            if 0 < before.row_count() {
                compared(f, Ladder::of(before, month), ladder)?;
            }
        }
    }
    Ok(())
}

// How a month's ladder stood before.
fn compared<W: fmt::Write>(
    f: &mut fmt::Formatter<W>,
    was: Option<Ladder>,
    is: Ladder,
) -> fmt::Result {
    let Some(was) = was else {
        return f.write_str("  newly live");
    };
    if was.tier == is.tier && was.span == is.span {
        return f.write_str("  as before");
    }
    if was.tier != is.tier {
        write!(f, "  tier was {}", was.tier)?;
    }
    if was.span != is.span {
        let Span { low, high } = was.span;
        write!(f, "  span was {low:4} to {high:4}")?;
    }
    Ok(())
}

// What an announcement did, when what waits is introduced and how many rows it brings beyond those that stood before, and
// how much waits of what may.
#[derive(Clone, Copy)]
pub struct Announced<'a> {
    pub before: Register<'a>,
    pub month: u32,
    pub price: u32,
    pub waiting: u16,
}

impl Announced<'_> {
    // How many rows the next session lists for the announcement alone, beyond the ladder and what waits for it.
    fn brought(self) -> Option<u32> {
        let Announced {
            before,
            month,
            price,
            ..
        } = self;
        let tier = before.next_tier(month)?;
        let ladder = before.rows_of(month).span()?;
        let reach = before
            .announcements()
            .filter(|waits| waits.month == month)
            .fold(ladder, |span, waits| span.joined(at(waits.price)));
        let whole = reach.joined(at(price));
        let brought = (whole.low..=whole.high)
            .filter(|&price| !reach.contains(price) && grid::on_grid(tier, price))
            .count();
        Some(text::narrowed(brought))
    }
}

// The span of one price.
fn at(price: u32) -> Span {
    Span {
        low: price,
        high: price,
    }
}

impl Display for Announced<'_> {
    fn fmt<W: fmt::Write>(&self, f: &mut fmt::Formatter<W>) -> fmt::Result {
        let Announced {
            before,
            month,
            price,
            waiting,
        } = *self;
        writeln!(
            f,
            "announced: {} at {price}, call {}, put {}",
            Month(month),
            SeriesName::call(month, price),
            SeriesName::put(month, price),
        )?;
        if let (Some(next), Some(rows)) = (before.next_session(), self.brought()) {
            write!(
                f,
                "  the session of {} introduces it, {rows} row{}; ",
                Date(next),
                Plural(rows),
            )?;
        }
        writeln!(f, "{waiting} of {MOST_WAITING} places taken until then")
    }
}
