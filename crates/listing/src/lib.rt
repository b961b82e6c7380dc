// Start and session on the register's bytes.
#![tactic(auto)]

ghost use Rattle.std.specs.Prelude.{◌≡◌, ◌<◌, IfOk};
ghost use Rattle.base.specs.Numbers.{number_in};
ghost use Rattle.dates.specs.Months.{day_count};
ghost use Rattle.calendar.specs.Calendar.{expiry_of};
ghost use Rattle.calendar.specs.Live.{first_live};
ghost use Rattle.rules.specs.Rulebook.{rules};
ghost use Rattle.calls.specs.declared.Call.TheVariants.{Start, Session};
ghost use Rattle.layout.specs.Register.{empty, running};
ghost use Rattle.layout.specs.Bytes.{moment_of, body_of};
ghost use Rattle.calls.specs.Listing.{number};
ghost use Rattle.calls.specs.Answers.{after_at, listed_at};
ghost use Rattle.calls.specs.Results.{listed_of};
ghost use Rattle.listing.specs.Refusals.{listing_cause, Lists};

use base::Cause;
use calendar::Calendar;
use calls::Totals;
use dates::DAYS;
use grid::Close;
use layout::{DAY, REGISTER_LENGTH};
use register::{Opened, Running};
use relisting::Listing;
use rules::LiveMonths;

// What is listed on a day; causes 20 and 21.
// Kept: the facts of this file on a day: see `dates::DAYS`, and on a register's day `register::next_first`.
fn listing_on<'a>(calendar: Calendar<'a>, day: u16, close: u32) -> Result<Listing<'a>, Cause>
    requires { day < day_count }
    ensures cause { number_in result ≡ listing_cause (first_live (expiry_of calendar.entry.bytes.now) day) close }
    ensures listing { IfOk result (Lists calendar.entry.bytes.now day close) }
{
    let live = LiveMonths::try_from(calendar::first_live(calendar, day))?;
    let close = Close::try_from(close)?;
    Ok(Listing {
        calendar,
        day,
        live,
        close,
    })
}

// What a start lists, where the register is empty; the start's own causes.
fn start_listing<'a>(calendar: Calendar<'a>, day: u32, close: u32) -> Result<Listing<'a>, Cause>
    ensures cause { number_in result ≡ number (rules calendar.entry.bytes.now) (Start day close) empty }
    ensures listing { IfOk result (Lists calendar.entry.bytes.now day close) }
{
    let Ok(day) = u16::try_from(day) else {
        return Err(Cause::StartDay);
    };
    if DAYS <= day {
        return Err(Cause::StartDay);
    }
    if !calendar::has_session(calendar.bytes, day) {
        return Err(Cause::StartDay);
    }
    listing_on(calendar, day, close)
}

// What a session lists, where the register runs; the session's own causes. After the calendar's last day no month is live.
fn session_listing<'a>(
    before: Running<'a>,
    register: &[u8; REGISTER_LENGTH],
    day: u32,
    close: u32,
) -> Result<Listing<'a>, Cause>
    requires { (moment_of register.now).day < day_count }
    ensures cause { number_in result ≡ number (rules before.entry.calendar.bytes.now) (Session day close) (running (body_of register.now)) }
    ensures listing { IfOk result (Lists before.entry.calendar.bytes.now day close) }
{
    let calendar = before.calendar;
    let last = base::word(register, DAY);
    let next = calendar::next_session(calendar.bytes, last);
    if day != u32::from(next) {
        return Err(Cause::SessionDay);
    }
    if DAYS <= next {
        return Err(Cause::TooLate);
    }
    listing_on(calendar, next, close)
}

// A start. An entry point: it takes any bytes and any numbers.
pub fn start(calendar: &[u8], register: &mut [u8], day: u32, close: u32) -> Result<Totals, Cause>
    ensures value { listed_of result ≡ listed_at calendar.now (Start day close) register.old }
    ensures register_after { register.new ≡ after_at (rules calendar.now) (Start day close) register.old }
{
    match register::open(calendar, register)? {
        Opened::Empty(passed) => {
            let listing = start_listing(passed, day, close)?;
            let register = register.as_mut_array().unwrap();
            Ok(relisting::list_start(register, listing))
        }
        Opened::Running(_) => Err(Cause::Running),
    }
}

// A session. An entry point: it takes any bytes and any numbers.
pub fn session(calendar: &[u8], register: &mut [u8], day: u32, close: u32) -> Result<Totals, Cause>
    ensures value { listed_of result ≡ listed_at calendar.now (Session day close) register.old }
    ensures register_after { register.new ≡ after_at (rules calendar.now) (Session day close) register.old }
{
    let Opened::Running(before) = register::open(calendar, register)? else {
        return Err(Cause::Empty);
    };
    let register = register.as_mut_array().unwrap();
    let listing = session_listing(before, register, day, close)?;
    Ok(relisting::list_session(register, before, listing))
}
