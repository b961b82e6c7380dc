// When a month becomes the first live one, and what is told of a month that is not live.
use reading::Register;
use rules::LAST_FIRST_MONTH;
use std::fmt;
use std::fmt::Display;
use text::{Date, Month};
use wording::LiveMonths;

// The first session on which a month is the first live one: the next after the expiry date of the month before. There
// is none behind the last month that may be the first live one.
pub fn first_session(calendar: &[u8], first: u32) -> Option<u32> {
    if u32::from(LAST_FIRST_MONTH) < first {
        return None;
    }
    let expiry = lookup::expiry(calendar, first.checked_sub(1)?)?;
    lookup::next_session(calendar, expiry)
}

// What is told of a month that is not live.
#[derive(Clone, Copy)]
pub struct NotLive<'a> {
    pub register: Register<'a>,
    pub month: u32,
}

impl Display for NotLive<'_> {
    fn fmt<W: fmt::Write>(&self, f: &mut fmt::Formatter<W>) -> fmt::Result {
        let NotLive { register, month } = *self;
        let calendar = register.calendar;
        write!(f, "not listed: {} is not live\n  ", Month(month))?;
        match lookup::expiry(calendar, month) {
            None => f.write_str("the last month is 2099-12")?,
            Some(_) if register.first_live() < month => ahead(f, calendar, month)?,
            Some(expiry) => write!(f, "it expired on {}", Date(expiry))?,
        }
        write!(f, "{}", LiveMonths(register))
    }
}

// A month ahead that is not live yet: a quarter's last month becomes live at the sixth place, eleven months before it is
// the first, any other at the third place.
fn ahead<W: fmt::Write>(f: &mut fmt::Formatter<W>, calendar: &[u8], month: u32) -> fmt::Result {
    let before = if month % 3 == 2 { 11 } else { 2 };
    match first_session(calendar, month.saturating_sub(before)) {
        None => f.write_str("it never becomes live: a register ends with March 2099 (cause 20)"),
        Some(day) => write!(
            f,
            "it becomes live on {}; the close before that session sets its first span",
            Date(day),
        ),
    }
}
