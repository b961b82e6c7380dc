// The session calendar: its sessions, expiry dates, and the live months.
#![tactic(auto)]

ghost use Rattle.std.specs.Prelude.{◌≡◌, ◌<◌, ◌≤◌};
ghost use Rattle.dates.specs.Months.{month_count, day_count};
ghost use Rattle.calendar.specs.Calendar.{session, Passes, checked_of, expiry_of, next_session};
ghost use Rattle.calendar.specs.Live.{first_live, live_months, tier_of};

use base::{Cause, Tier};
use dates::{DAYS, MONTHS};

// A calendar's length in bytes.
pub const CALENDAR_LENGTH: usize = 4566;

// A calendar that passed its check.
#[derive(Clone, Copy)]
pub struct Calendar<'a> {
    pub bytes: &'a [u8],
    ghost passes: { Passes bytes.now },
}

// The answer of the calendar's check as C gets it: the cause's number, or 0, and the month that cause 13 names.
// Kept: C has no Result, so a number says whether there is a month beside it.
#[repr(C)]
#[derive(Drop)]
pub struct Checked {
    pub number: u16,
    pub month: u16,
}

impl From<Result<Calendar<'_>, Cause>> for Checked {
    ghost from_gives = { λ checked answer. answer ≡ checked_of checked };

    fn from(checked: Result<Calendar<'_>, Cause>) -> Checked {
        match checked {
            Ok(_) => Checked {
                number: 0,
                month: 0,
            },
            Err(cause) => Checked {
                number: cause.number(),
                month: cause.month(),
            },
        }
    }
}

// Whether a day has a session; past the calendar's end there is none.
pub fn has_session(calendar: &[u8], day: u16) -> bool
    ensures { result ≡ session calendar.now day }
{
    match calendar.get(usize::from(day / 8)) {
        Some(byte) => (byte >> (day % 8)) % 2 == 1,
        None => false,
    }
}

// A month's expiry date: the last session up to its third Friday; 0 where there is none.
// Kept: no Option, since the rules have 0 there (`expiry_of`).
pub fn expiry(calendar: &[u8], month: u16) -> u16
    requires { month < month_count }
    ensures { result ≡ expiry_of calendar.now month }
{
    for day in (1..=dates::third_friday(month)).rev() {
        if has_session(calendar, day) {
            return day;
        }
    }
    0
}

// The first session after a day; 36,525 where there is none.
// Kept: no Option, since the rules take that number for a day, the one after the calendar: a session on it is told that it is too late.
pub fn next_session(calendar: &[u8], day: u16) -> u16
    requires { day < day_count }
    ensures { result ≡ next_session calendar.now day }
{
    (day + 1..DAYS)
        .find(|&next| has_session(calendar, next))
        .unwrap_or(DAYS)
}

// The first live month of a day: the day's own month until it has expired, then the next.
// Kept: that the day is one of the calendar: see `dates::DAYS`.
pub fn first_live(calendar: Calendar<'_>, day: u16) -> u16
    requires { day < day_count }
    ensures { result ≡ first_live (expiry_of calendar.entry.bytes.now) day }
{
    let month = dates::month_of(day);
    if day <= expiry(calendar.bytes, month) {
        month
    } else {
        month + 1
    }
}

// The six live months, from the first.
pub fn live_months(first: u16) -> [u16; 6]
    requires { first ≤ month_count }
    ensures { result ≡ live_months first }
{
    let quarter = (first + 3) / 3 * 3 + 2;
    [
        first,
        first + 1,
        first + 2,
        quarter,
        quarter + 3,
        quarter + 6,
    ]
}

// The tier of a month, from the first live month.
pub fn tier_of(first: u16, month: u16) -> Tier
    requires { first ≤ month_count }
    ensures { result ≡ tier_of first month }
{
    if month <= first {
        Tier::N
    } else if month <= first + 2 {
        Tier::M
    } else {
        Tier::F
    }
}
