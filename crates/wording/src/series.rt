// Causes 27 to 29: names of series.
use crate::parts::{Bands, LAST_MONTH, Refused};
use base::{Cause, Tier};
use names::LENGTH;
use std::fmt;
use std::fmt::Display;
use text::Month;

// How a name is made, and one for an example.
const FORM: &str =
    "OW20, a letter, two digits of the year, four of the price: OW20L262400 is the call of 2026-12 at 2400";

// What may stand at a place of a name, counted from 0.
// Kept: the match over places; an enum of what stands there would be made by it, and matched again for the four texts.
fn due_at(place: u16) -> &'static str {
    match place {
        0..=3 => "the first four are OW20, in capitals",
        4 => "there a letter stands: A to L for calls of January to December, M to X for puts",
        5..=6 => "there a digit of the year stands",
        _ => "there a digit of the price stands",
    }
}

// A name's refusal.
#[derive(Clone, Copy)]
pub struct NameRefusal(pub Cause);

impl Display for NameRefusal {
    fn fmt<W: fmt::Write>(&self, f: &mut fmt::Formatter<W>) -> fmt::Result {
        write!(f, "{}", Refused(self.0))?;
        match self.0 {
            Cause::NameLength => write!(f, "a name has {LENGTH} characters\n  {FORM}\n"),
            Cause::NameSeries => write!(
                f,
                "there is no such series\n  \
                its price must be on the grid of tier N: {}\n  \
                its month must be one up to {}, its type call or put\n",
                Bands(Tier::N),
                Month(LAST_MONTH),
            ),
            Cause::NameByte(place) => write!(
                f,
                "character {} of the name cannot stand there\n  {}\n  {FORM}\n",
                u32::from(place) + 1,
                due_at(place),
            ),
            _ => f.write_str("\n"),
        }
    }
}
