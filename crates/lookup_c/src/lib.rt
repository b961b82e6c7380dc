// The questions of `lookup` for C: the archive with which the host tests compare every answer.
// Kept: the exports are alike by nature. C links each by its name, and where a question has no answer, C gets 65,535 or zeros.
#![tactic(auto)]

ghost use Rattle.std.specs.Prelude.{◌≡◌, ◌&&◌, eqb, leb, ltb, get_or};
ghost use Rattle.base.specs.Lists.{elem};
ghost use Rattle.dates.specs.Months.{month_count, day_count, first_day, third_friday, month_of};
ghost use Rattle.calendar.specs.Calendar.{session, calendar_cause, expiry_of, next_session};
ghost use Rattle.calendar.specs.Live.{first_live, live_months, tier_of};
ghost use Rattle.grid.specs.Grid.{grid_of, nearest, close_taken};
ghost use Rattle.lookup.specs.Lookup.{or_outside, some_if, yes, tier_number, tier_numbered, required_at, date_of};

use base::Tier;
use grid::Strikes;
use lookup::Date;

// The answer to a question outside its range: no day, month, tier or price has this number.
// Kept: C has no Option.
const OUTSIDE: u32 = 65535;

// The tiers N, M and F are numbered 0, 1 and 2.
// Kept: `From<Tier>` of `u32` and `TryFrom<u32>` of `Tier` may stand in `base` alone, where no tier has a number.
#[tactic(auto, unfolding(lookup::specs::Lookup::tier_number))]
fn tier_number(tier: Tier) -> u32
    ensures { result ≡ tier_number tier }
{
    match tier {
        Tier::N => 0,
        Tier::M => 1,
        Tier::F => 2,
    }
}

#[tactic(auto, unfolding(lookup::specs::Lookup::tier_numbered))]
fn tier_numbered(number: u32) -> Option<Tier>
    ensures { result ≡ some_if (leb number 2) (tier_numbered number) }
{
    match number {
        0 => Some(Tier::N),
        1 => Some(Tier::M),
        2 => Some(Tier::F),
        _ => None,
    }
}

#[unsafe(no_mangle)]
pub extern "C" fn lookup_first_day(month: u32) -> u32
    ensures { result ≡ or_outside (leb month month_count) (first_day month) }
{
    lookup::first_day(month).unwrap_or(OUTSIDE)
}

#[unsafe(no_mangle)]
pub extern "C" fn lookup_third_friday(month: u32) -> u32
    ensures { result ≡ or_outside (ltb month month_count) (third_friday month) }
{
    lookup::third_friday(month).unwrap_or(OUTSIDE)
}

// The same from the constant table.
#[unsafe(no_mangle)]
pub extern "C" fn lookup_third_friday_table(month: u32) -> u32
    ensures { result ≡ or_outside (ltb month month_count) (third_friday month) }
{
    lookup::third_friday_table(month).unwrap_or(OUTSIDE)
}

#[unsafe(no_mangle)]
pub extern "C" fn lookup_month_of(day: u32) -> u32
    ensures { result ≡ or_outside (ltb day day_count) (month_of day) }
{
    lookup::month_of(day).unwrap_or(OUTSIDE)
}

#[tactic(auto, unfolding(lookup::specs::Lookup::date_of))]
#[unsafe(no_mangle)]
pub extern "C" fn lookup_date(day: u32) -> Date
    ensures { result ≡ date_of day }
{
    lookup::date_of(day).unwrap_or(Date {
        year: 0,
        month: 0,
        day: 0,
    })
}

#[unsafe(no_mangle)]
pub extern "C" fn lookup_has_session(calendar: &[u8], day: u32) -> u32
    ensures { result ≡ yes (leb day 65535 && session calendar.now day) }
{
    u32::from(lookup::has_session(calendar, day))
}

#[unsafe(no_mangle)]
pub extern "C" fn lookup_expiry(calendar: &[u8], month: u32) -> u32
    ensures { result ≡ or_outside (ltb month month_count) (expiry_of calendar.now month) }
{
    lookup::expiry(calendar, month).unwrap_or(OUTSIDE)
}

#[unsafe(no_mangle)]
pub extern "C" fn lookup_next_session(calendar: &[u8], day: u32) -> u32
    ensures { result ≡ or_outside (ltb day day_count) (next_session calendar.now day) }
{
    lookup::next_session(calendar, day).unwrap_or(OUTSIDE)
}

// The first live month is asked of a calendar that passes its check.
#[unsafe(no_mangle)]
pub extern "C" fn lookup_first_live(calendar: &[u8], day: u32) -> u32
    ensures { result ≡ or_outside (eqb (calendar_cause calendar.now) 0 && ltb day day_count) (first_live (expiry_of calendar.now) day) }
{
    lookup::first_live(calendar, day).unwrap_or(OUTSIDE)
}

// A place from 0 to 5 of the six live months.
#[unsafe(no_mangle)]
pub extern "C" fn lookup_live_month(first: u32, place: u32) -> u32
    ensures { result ≡ or_outside (leb first month_count && ltb place 6) (get_or (live_months first) place 0) }
{
    lookup::live_month(first, place).unwrap_or(OUTSIDE)
}

#[unsafe(no_mangle)]
pub extern "C" fn lookup_tier_of(first: u32, month: u32) -> u32
    ensures { result ≡ or_outside (leb first month_count && leb month 65535) (tier_number (tier_of first month)) }
{
    lookup::tier_of(first, month).map_or(OUTSIDE, tier_number)
}

#[unsafe(no_mangle)]
pub extern "C" fn lookup_on_grid(tier: u32, price: u32) -> u32
    ensures { result ≡ yes (leb tier 2 && elem price (grid_of (tier_numbered tier))) }
{
    u32::from(tier_numbered(tier).is_some_and(|tier| lookup::on_grid(tier, price)))
}

#[unsafe(no_mangle)]
pub extern "C" fn lookup_nearest(tier: u32, close: u32) -> u32
    ensures { result ≡ or_outside (leb tier 2 && close_taken close) (nearest close (grid_of (tier_numbered tier))) }
{
    tier_numbered(tier)
        .and_then(|tier| lookup::nearest(tier, close))
        .unwrap_or(OUTSIDE)
}

// The lowest and the highest price that a close requires.
#[tactic(auto, unfolding(lookup::specs::Lookup::required_at))]
#[unsafe(no_mangle)]
pub extern "C" fn lookup_required(tier: u32, close: u32) -> Strikes
    ensures { result ≡ required_at tier close }
{
    tier_numbered(tier)
        .and_then(|tier| lookup::required(tier, close))
        .unwrap_or(Strikes { low: 0, high: 0 })
}
