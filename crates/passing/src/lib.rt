// Whether a calendar passes: its check, causes 11 to 13.
#![tactic(auto)]

ghost use Rattle.std.specs.Prelude.{◌≡◌, ◌+◌, ◌-◌, ◌*◌, ◌/◌, ◌<◌, ◌≤◌, length, IfOk, MatchOption};
ghost use Rattle.base.specs.Search.{first_in, found_in, some_in};
ghost use Rattle.base.specs.Lists.{least_of};
ghost use Rattle.dates.specs.Months.{month_count, ThirdFridays};
ghost use Rattle.calendar.specs.Calendar.{session, lacks, first_lacking, checked_of, check_of};

use base::Cause;
use calendar::{CALENDAR_LENGTH, Calendar};
use dates::MONTHS;

// A calendar's last byte, of whose bits three lie after the last day.
const LAST_BYTE: usize = 4565;

// The least byte, from 255 on, which no byte is above. A fold does not leave early, so the compiler vectorises it.
fn least_byte(bytes: &[u8]) -> u8
    ensures { result ≡ least_of 255 bytes.now }
{
    bytes.iter().fold(255, |least: u8, byte| least.min(*byte))
}

// Whether one of the 15 days that end with `last` has a session: their bits, in four bytes taken as one number. The four
// end with the 16 days that `last` lies in: so each bit but two may count, and the compiler loads all of them at once.
fn recent_session(calendar: &[u8], last: u16) -> bool
    requires { (16 ≤ last) × (last / 16 * 2 + 1 < length calendar.now) }
    ensures { result ≡ some_in (session calendar.now) (last - 14) (last + 1) }
{
    let at = usize::from(last / 16 * 2) - 2;
    let days = u32::from_le_bytes([
        calendar[at],
        calendar[at + 1],
        calendar[at + 2],
        calendar[at + 3],
    ]);
    0 < (days >> (last % 16)) / 4 % 32768
}

// The first month that has no session in the 15 days up to its third Friday, if there is one.
// No month before it lacks its session. The compiler takes two months a turn, since no scan of days stands in this loop.
fn first_quiet(calendar: &[u8; CALENDAR_LENGTH], fridays: &[u16; 1200]) -> Option<u16>
    requires { ThirdFridays fridays.now }
    ensures { MatchOption result (month_count ≤ first_lacking calendar.now)
        (λ month. (month < month_count) × (first_lacking calendar.now ≡ first_in (lacks calendar.now) month month_count)) }
{
    for month in 0..MONTHS {
        if !recent_session(calendar, fridays[usize::from(month)]) {
            return Some(month);
        }
    }
    None
}

// The first month that has no session from its first day to its third Friday, if there is one.
// The last 15 of a month's days are looked at together, the days before them one by one.
fn scan_months(calendar: &[u8; CALENDAR_LENGTH], fridays: &[u16; 1200]) -> Option<u16>
    requires { ThirdFridays fridays.now }
    ensures { result ≡ found_in (lacks calendar.now) 0 month_count }
{
    let from = first_quiet(calendar, fridays)?;
    for month in from..MONTHS {
        let last = fridays[usize::from(month)];
        if recent_session(calendar, last) {
            continue;
        }
        let mut before = dates::first_day(month)..last - 14;
        if !before.any(|day| calendar::has_session(calendar, day)) {
            return Some(month);
        }
    }
    None
}

// The first month that has no session from its first day to its third Friday, if there is one.
// Each of these stretches holds a whole byte of the calendar: where no byte is zero, no month lacks its session.
fn first_lacking(calendar: &[u8; CALENDAR_LENGTH]) -> Option<u16>
    ensures { result ≡ found_in (lacks calendar.now) 0 month_count }
{
    if 0 < least_byte(calendar) {
        return None;
    }
    let fridays = dates::third_fridays();
    scan_months(calendar, &fridays)
}

// The calendar's check. An entry point: it takes any bytes.
pub fn check(calendar: &[u8]) -> Result<Calendar<'_>, Cause>
    ensures answer { checked_of result ≡ check_of calendar.now }
    ensures bytes { IfOk result (λ passed. passed.bytes.now ≡ calendar.now) }
{
    let Ok(bytes) = <&[u8; CALENDAR_LENGTH]>::try_from(calendar) else {
        return Err(Cause::CalendarLength);
    };
    if 32 <= bytes[LAST_BYTE] {
        return Err(Cause::CalendarTail);
    }
    match first_lacking(bytes) {
        Some(month) => Err(Cause::CalendarMonth(month)),
        None => Ok(Calendar { bytes: calendar }),
    }
}
