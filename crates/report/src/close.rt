// How a close lies to what the ladders stand around.
use base::Tier;
use reading::{Register, Span};
use std::fmt;
use std::fmt::Display;
use text::{Month, Plural, Points};

// The ladder of the nearest month as it stood before the call.
#[derive(Clone, Copy)]
struct Nearest {
    month: u32,
    span: Span,
}

// A start has none before it.
fn nearest_of(before: Register<'_>, after: Register<'_>) -> Option<Nearest> {
    let month = after.first_live();
    let span = before.rows_of(month).span()?;
    Some(Nearest { month, span })
}

impl Nearest {
    // The ends of its span as closes would have them, in hundredths.
    fn ends(self) -> (u32, u32) {
        (in_hundredths(self.span.low), in_hundredths(self.span.high))
    }
}

impl Display for Nearest {
    fn fmt<W: fmt::Write>(&self, f: &mut fmt::Formatter<W>) -> fmt::Result {
        write!(f, "the {} ladder, {}", Month(self.month), self.span)
    }
}

// A price as a close would have it, in hundredths.
fn in_hundredths(price: u32) -> u32 {
    price.saturating_mul(100)
}

// How far a close lies from a level, above or below it.
#[derive(Clone, Copy)]
struct Apart {
    close: u32,
    level: u32,
}

impl Display for Apart {
    fn fmt<W: fmt::Write>(&self, f: &mut fmt::Formatter<W>) -> fmt::Result {
        let apart = Points(self.close.abs_diff(self.level));
        let side = if self.close < self.level {
            "below"
        } else {
            "above"
        };
        write!(f, "{apart} {side} {}", Points(self.level))
    }
}

// A close, and how far it lies from the middle of the nearest month's ladder; that of a start from the strike that it lists
// the ladders around.
#[derive(Clone, Copy)]
pub struct Distance<'a> {
    pub before: Register<'a>,
    pub after: Register<'a>,
    pub close: u32,
}

impl Display for Distance<'_> {
    fn fmt<W: fmt::Write>(&self, f: &mut fmt::Formatter<W>) -> fmt::Result {
        let close = self.close;
        write!(f, "\n  close {}, ", Points(close))?;
        if let Some(nearest) = nearest_of(self.before, self.after) {
            let (low, high) = nearest.ends();
            let level = low.midpoint(high);
            return write!(f, "{}, the middle of {nearest}", Apart { close, level });
        }
        let Some(strike) = lookup::nearest(Tier::N, close) else {
            return Ok(());
        };
        let level = in_hundredths(strike);
        write!(
            f,
            "{}, the strike that the ladders stand around",
            Apart { close, level }
        )
    }
}

// A close outside the ladder of the nearest month as it stood before the call. It is asked about: why, and how to say yes to it.
#[derive(Clone, Copy)]
pub struct FarClose {
    close: u32,
    nearest: Nearest,
    added: u16,
}

impl FarClose {
    // None where the close lies within the ladder, or there was none.
    pub fn found(
        before: Register<'_>,
        after: Register<'_>,
        close: u32,
        added: u16,
    ) -> Option<FarClose> {
        let nearest = nearest_of(before, after)?;
        let (low, high) = nearest.ends();
        if (low..=high).contains(&close) {
            return None;
        }
        Some(FarClose {
            close,
            nearest,
            added,
        })
    }
}

impl Display for FarClose {
    fn fmt<W: fmt::Write>(&self, f: &mut fmt::Formatter<W>) -> fmt::Result {
        let added = self.added;
        write!(
            f,
            "{} lies outside {}, and would add {added} row{}\n  \
            if it is right, add --yes; preview shows each row",
            Points(self.close),
            self.nearest,
            Plural(u32::from(added)),
        )
    }
}
