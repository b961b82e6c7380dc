// What the next session, or a later one, would have to bring for a price of a live month to be listed.
use crate::case::Case;
use crate::months;
use base::Tier;
use grid::{HIGHEST_CLOSE, LOWEST_CLOSE};
use layout::MOST_WAITING;
use rules::LAST_FIRST_MONTH;
use std::fmt;
use std::fmt::Display;
use std::ops::RangeInclusive;
use text::{Date, Month, Points};

// What comes after the register's day, each line behind another one.
#[derive(Clone, Copy)]
pub struct Prospects<'a>(pub Case<'a>);

impl Display for Prospects<'_> {
    fn fmt<W: fmt::Write>(&self, f: &mut fmt::Formatter<W>) -> fmt::Result {
        let case = self.0;
        if case.expiry <= case.register.day() {
            return f.write_str(
                "\n  it expires on the register's day: no later session can list it",
            );
        }
        let Some(next) = next_session(case) else {
            return f.write_str("\n  the register takes no further session (cause 20)");
        };
        if !grid::on_grid(next.tier, case.price) {
            return later(f, case);
        }
        if next.tier != case.tier {
            next_tier(f, case, next)?;
        }
        if case.is_within() {
            Ok(())
        } else {
            reached(f, case, next)
        }
    }
}

// A session day, and the tier that the month has from it on.
#[derive(Clone, Copy)]
struct Session {
    day: u32,
    tier: Tier,
}

impl Display for Session {
    fn fmt<W: fmt::Write>(&self, f: &mut fmt::Formatter<W>) -> fmt::Result {
        write!(f, "\n  from {} in tier {}", Date(self.day), self.tier)
    }
}

// The session after the register's day, where the register takes one.
fn next_session(case: Case<'_>) -> Option<Session> {
    let day = case.register.next_session()?;
    let first = lookup::first_live(case.register.calendar, day)?;
    if u32::from(LAST_FIRST_MONTH) < first {
        return None;
    }
    let tier = lookup::tier_of(first, case.month)?;
    Some(Session { day, tier })
}

// The next session brings another tier.
fn next_tier<W: fmt::Write>(
    f: &mut fmt::Formatter<W>,
    case: Case<'_>,
    next: Session,
) -> fmt::Result {
    if grid::on_grid(case.tier, case.price) {
        write!(f, "{next}")
    } else {
        finer(f, case, next)
    }
}

// What a finer tier that has the price on its grid does for it, from a day on.
fn finer<W: fmt::Write>(
    f: &mut fmt::Formatter<W>,
    case: Case<'_>,
    session: Session,
) -> fmt::Result {
    let follows = if case.is_within() {
        ": listed then"
    } else {
        "; outside the span so far"
    };
    write!(f, "{session}, on whose grid it is{follows}")
}

// A price that is not on the month's grid of the next session: the coarsest tier that has it comes first. The month is
// in tier N when it is the first live one, and in tier M from two months before on.
fn later<W: fmt::Write>(f: &mut fmt::Formatter<W>, case: Case<'_>) -> fmt::Result {
    let Some(coarsest) = case.coarsest() else {
        return f.write_str("\n  no tier has it on its grid: it is never listed");
    };
    let (first, tier) = match (coarsest, case.month.checked_sub(2)) {
        (Tier::M, Some(first)) => (first, Tier::M),
        _ => (case.month, Tier::N),
    };
    match months::first_session(case.register.calendar, first) {
        None => f.write_str(
            "\n  no finer tier is reached: a register ends with March 2099 (cause 20)",
        ),
        Some(day) => finer(f, case, Session { day, tier }),
    }
}

// On which side of the span a price lies.
#[derive(Clone, Copy)]
enum Side {
    Above,
    Below,
}

// A price of the case's month among some that waits as an announcement.
fn waiting_within(case: Case<'_>, prices: RangeInclusive<u32>) -> Option<u32> {
    let mut waiting = case
        .register
        .announcements()
        .filter(|waits| waits.month == case.month);
    let found = waiting.find(|waits| prices.contains(&waits.price))?;
    Some(found.price)
}

// A price outside the span on the month's grid of the next session, where the month has that tier. Of what may refuse
// an announcement only the lack of room is left.
fn reached<W: fmt::Write>(f: &mut fmt::Formatter<W>, case: Case<'_>, next: Session) -> fmt::Result {
    let price = case.price;
    let day = Date(next.day);
    if waiting_within(case, price..=price).is_some() {
        return write!(
            f,
            "\n  {price} waits as an announcement: the session of {day} lists it",
        );
    }
    let (side, beyond) = if case.span.high < price {
        (Side::Above, price..=u32::MAX)
    } else {
        (Side::Below, 0..=price)
    };
    if let Some(waiting) = waiting_within(case, beyond) {
        return write!(
            f,
            "\n  {waiting} waits as an announcement: the session of {day} lists all prices up to there",
        );
    }
    let tier = next.tier;
    match (Sought { tier, price, side }).close_to_bring() {
        None => f.write_str("\n  no close brings it in")?,
        Some(close) => {
            let reach = match side {
                Side::Above => "more",
                Side::Below => "less",
            };
            write!(
                f,
                "\n  a close of {} or {reach} before {day} brings it in",
                Points(close)
            )?
        }
    }
    announcement(f, case)
}

// A price outside the span, for which a close is sought.
#[derive(Clone, Copy)]
struct Sought {
    tier: Tier,
    price: u32,
    side: Side,
}

impl Sought {
    // Whether a close requires prices up to this one, or only prices above it.
    fn is_reached(self, close: u32) -> bool {
        lookup::required(self.tier, close).is_some_and(|required| match self.side {
            Side::Above => self.price <= u32::from(required.high),
            Side::Below => self.price < u32::from(required.low),
        })
    }

    // Where the closes part: those below it do not reach so far, those from it on do.
    // Kept: std searches by halves in slices alone, and there are 946,000 closes.
    fn reaching_close(self) -> u32 {
        let mut low = LOWEST_CLOSE;
        let mut high = HIGHEST_CLOSE + 1;
        while low < high {
            let close = low + (high - low) / 2;
            if self.is_reached(close) {
                high = close;
            } else {
                low = close + 1;
            }
        }
        low
    }

    // The close nearest to the others that brings the price in, above the span the lowest, below it the highest.
    fn close_to_bring(self) -> Option<u32> {
        let close = self.reaching_close();
        let close = match self.side {
            Side::Above => close,
            Side::Below => close.checked_sub(1)?,
        };
        (LOWEST_CLOSE..=HIGHEST_CLOSE)
            .contains(&close)
            .then_some(close)
    }
}

fn announcement<W: fmt::Write>(f: &mut fmt::Formatter<W>, case: Case<'_>) -> fmt::Result {
    let Case {
        register,
        month,
        price,
        ..
    } = case;
    if MOST_WAITING <= register.announcements().count() {
        write!(
            f,
            "\n  an announcement is refused by cause 25: {MOST_WAITING} wait already"
        )
    } else {
        write!(
            f,
            "\n  an announcement brings it in: sindhopul announce CALENDAR REGISTER {} {price}",
            Month(month),
        )
    }
}
