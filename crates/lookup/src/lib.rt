// Single questions about days, months, a calendar and the grids: total functions over any bytes and any 32-bit numbers.
// The console asks them; `lookup_c` hands them to C.
// Kept: the questions are alike, one line each. A helper over what they call would need closures for a calendar's, and be no shorter.
#![tactic(auto)]

ghost use Rattle.std.specs.Prelude.{◌≡◌, ◌&&◌, eqb, leb, ltb, get_or};
ghost use Rattle.dates.specs.Months.{month_count, day_count, first_day, third_friday, month_of};
ghost use Rattle.calendar.specs.Calendar.{session, calendar_cause, expiry_of, next_session};
ghost use Rattle.calendar.specs.Live.{first_live, live_months, tier_of};
ghost use Rattle.grid.specs.Grid.{grid_of, nearest, close_taken};
ghost use Rattle.lookup.specs.Lookup.{some_if, required_of, date_of};

use base::Tier;
use dates::{DAYS, MONTHS};
pub use grid::on_grid;
use grid::{Close, Strikes};

// A day as people write it.
#[repr(C)]
#[derive(Clone, Copy)]
pub struct Date {
    pub year: u16,
    pub month: u16,
    pub day: u16,
}

// A number below an end, in the type that the questions about days and months take.
fn below(number: u32, end: u16) -> Option<u16>
    ensures { result ≡ some_if (ltb number end) number }
{
    // The comparison that decides comes first: behind it the compiler sees that the number fits.
    if number < u32::from(end) {
        u16::try_from(number).ok()
    } else {
        None
    }
}

// The first day of a month, and of month 1,200, where the last ends.
pub fn first_day(month: u32) -> Option<u32>
    ensures { result ≡ some_if (leb month month_count) (first_day month) }
{
    Some(u32::from(dates::first_day(below(month, MONTHS + 1)?)))
}

pub fn third_friday(month: u32) -> Option<u32>
    ensures { result ≡ some_if (ltb month month_count) (third_friday month) }
{
    Some(u32::from(dates::third_friday(below(month, MONTHS)?)))
}

// The same from the constant table.
pub fn third_friday_table(month: u32) -> Option<u32>
    ensures { result ≡ some_if (ltb month month_count) (third_friday month) }
{
    let fridays = dates::third_fridays();
    let month = below(month, MONTHS)?;
    Some(u32::from(fridays[usize::from(month)]))
}

pub fn month_of(day: u32) -> Option<u32>
    ensures { result ≡ some_if (ltb day day_count) (month_of day) }
{
    Some(u32::from(dates::month_of(below(day, DAYS)?)))
}

#[tactic(auto, unfolding(crate::specs::Lookup::date_of))]
pub fn date_of(day: u32) -> Option<Date>
    ensures { result ≡ some_if (ltb day day_count) (date_of day) }
{
    let day = below(day, DAYS)?;
    let month = dates::month_of(day);
    Some(Date {
        year: 2000 + month / 12,
        month: month % 12 + 1,
        day: day - dates::first_day(month) + 1,
    })
}

pub fn has_session(calendar: &[u8], day: u32) -> bool
    ensures { result ≡ (leb day 65535 && session calendar.now day) }
{
    u16::try_from(day).is_ok_and(|day| calendar::has_session(calendar, day))
}

pub fn expiry(calendar: &[u8], month: u32) -> Option<u32>
    ensures { result ≡ some_if (ltb month month_count) (expiry_of calendar.now month) }
{
    Some(u32::from(calendar::expiry(calendar, below(month, MONTHS)?)))
}

pub fn next_session(calendar: &[u8], day: u32) -> Option<u32>
    ensures { result ≡ some_if (ltb day day_count) (next_session calendar.now day) }
{
    Some(u32::from(calendar::next_session(calendar, below(day, DAYS)?)))
}

// The first live month is asked of a calendar that passes its check.
pub fn first_live(calendar: &[u8], day: u32) -> Option<u32>
    ensures { result ≡ some_if (eqb (calendar_cause calendar.now) 0 && ltb day day_count) (first_live (expiry_of calendar.now) day) }
{
    let calendar = passing::check(calendar).ok()?;
    Some(u32::from(calendar::first_live(calendar, below(day, DAYS)?)))
}

// A place from 0 to 5 of the six live months.
pub fn live_month(first: u32, place: u32) -> Option<u32>
    ensures { result ≡ some_if (leb first month_count && ltb place 6) (get_or (live_months first) place 0) }
{
    let months = calendar::live_months(below(first, MONTHS + 1)?);
    let place = below(place, 6)?;
    Some(u32::from(months[usize::from(place)]))
}

pub fn tier_of(first: u32, month: u32) -> Option<Tier>
    ensures { result ≡ some_if (leb first month_count && leb month 65535) (tier_of first month) }
{
    let first = below(first, MONTHS + 1)?;
    let month = u16::try_from(month).ok()?;
    Some(calendar::tier_of(first, month))
}

pub fn nearest(tier: Tier, close: u32) -> Option<u32>
    ensures { result ≡ some_if (close_taken close) (nearest close (grid_of tier)) }
{
    let close = Close::try_from(close).ok()?;
    let number = grid::nearest_number(tier, close);
    Some(u32::from(grid::price_at(number)))
}

// The lowest and the highest price that a close requires.
pub fn required(tier: Tier, close: u32) -> Option<Strikes>
    ensures { result ≡ required_of tier close }
{
    let close = Close::try_from(close).ok()?;
    Some(grid::required_strikes(tier, close))
}
