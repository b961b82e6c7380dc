// The check of a register, and how every call opens.
#![tactic(auto)]

ghost use Rattle.std.specs.Prelude.{◌≡◌, ◌&&◌, [], map, ◌≤◌, ◌<◌, get_or, eqb};
ghost use Rattle.base.specs.Lists.{elem};
ghost use Rattle.base.specs.Words.{at16};
ghost use Rattle.dates.specs.Months.{day_count};
ghost use Rattle.base.specs.Numbers.{number_in};
ghost use Rattle.calendar.specs.Live.{live_months};
ghost use Rattle.rules.specs.Rules.{next};
ghost use Rattle.rules.specs.Rulebook.{first_at, rules};
ghost use Rattle.layout.specs.Register.{most_waiting, waiting_of, waiting_ok};
ghost use Rattle.layout.specs.Bytes.{place_of, moment_of, body_of};
ghost use Rattle.layout.specs.Spans.{spans_of, span_in};
ghost use Rattle.register.specs.Check.{Tells, Keeps, causes_at};
ghost use Rattle.register.specs.Opens.{Stands, Opens};

use base::{Cause, word};
use calendar::Calendar;
use dates::{DAYS, MONTHS};
use layout::{
    COUNT, DAY, MONTH, MOST_ROWS, MOST_WAITING, PLACE_LENGTH, PLACES, PRICE, REGISTER_LENGTH,
    ROW_LENGTH, ROWS, STATUS, UNUSED, WAITING,
};
use rules::LiveMonths;

// Whether the bytes that are neither announcement nor row keep the layout of a running register.
fn keeps_layout(register: &[u8; REGISTER_LENGTH]) -> bool
    ensures { Tells result (Keeps register.now) }
{
    let waiting = usize::from(register[WAITING]);
    let rows = usize::from(word(register, COUNT));
    register[STATUS] == 1
        && waiting <= MOST_WAITING
        && register[UNUSED] == 0
        && register[UNUSED + 1] == 0
        && rows <= MOST_ROWS
        && layout::is_zero(&register[PLACES + PLACE_LENGTH * waiting..ROWS])
        && layout::is_zero(&register[ROWS + ROW_LENGTH * rows..])
}

// The first live month of the next session; 1,200 where there is none.
// Kept: the facts of this file on a register's day. The bytes hold it; a type of bytes and day would hold it twice, for two functions that ask.
// Kept: no Option, since the rules count 1,200 there, and both who ask hand it to `refusal`, to which it is too late like any month behind March 2099.
pub fn next_first(calendar: Calendar<'_>, register: &[u8; REGISTER_LENGTH]) -> u16
    requires { (moment_of register.now).day < day_count }
    ensures { result ≡ first_at calendar.entry.bytes.now (next (rules calendar.entry.bytes.now) (moment_of register.now)) }
{
    let next = calendar::next_session(calendar.bytes, word(register, DAY));
    if next < DAYS {
        calendar::first_live(calendar, next)
    } else {
        MONTHS
    }
}

// Whether a place has a price of a month.
fn has(place: &[u8; PLACE_LENGTH], month: u32, price: u32) -> bool
    ensures { result ≡ (eqb month (at16 place.now 0) && eqb price (at16 place.now 2)) }
{
    month == u32::from(word(place, MONTH)) && price == u32::from(word(place, PRICE))
}

// Whether a price waits for a month in some of the places.
pub fn waits(places: &[[u8; PLACE_LENGTH]], month: u32, price: u32) -> bool
    ensures { result ≡ elem price (waiting_of month (map place_of places.now)) }
{
    places.iter().any(|place| has(place, month, price))
}

// A register that runs and is well formed: its calendar, the live months of its day and their spans.
#[derive(Clone, Copy)]
pub struct Running<'a> {
    pub calendar: Calendar<'a>,
    pub live: LiveMonths,
    pub spans: [[u16; 2]; 6],
}

impl Running<'_> {
    // Causes 20 and 22 to 24 of an announcement, tried downwards. `next` is the first live month of the next session.
    pub fn refusal(self, next: u16, waits: bool, month: u32, price: u32) -> Result<(), Cause>
        ensures { number_in result ≡ causes_at self.entry.live.first next (span_in (live_months self.entry.live.first) self.entry.spans month) waits month price }
    {
        let next = LiveMonths::try_from(next)?;
        let months = self.live.months();
        let Some(i) = months.iter().position(|live| month == u32::from(*live)) else {
            return Err(Cause::AnnounceMonth);
        };
        let live = months[i];
        if live < next.first {
            return Err(Cause::AnnounceMonth);
        }
        if !grid::on_grid(next.tier(live), price) {
            return Err(Cause::AnnouncePrice);
        }
        if waits {
            return Err(Cause::AnnounceKnown);
        }
        let [low, high] = self.spans[i];
        if (u32::from(low)..=u32::from(high)).contains(&price) {
            return Err(Cause::AnnounceKnown);
        }
        Ok(())
    }
}

// Whether no waiting announcement would be refused beside the others.
fn waiting_stands(running: Running<'_>, register: &[u8; REGISTER_LENGTH]) -> bool
    requires layout { (get_or register.now 1 0 ≤ most_waiting) × ((moment_of register.now).day < day_count) }
    requires found { (running.live.first ≡ first_at running.calendar.bytes.now (moment_of register.now)) × (running.spans ≡ spans_of (body_of register.now) (live_months running.live.first)) }
    ensures { result ≡ waiting_ok (rules running.entry.calendar.bytes.now) (body_of register.now) [] (body_of register.now).waiting }
{
    let next = next_first(running.calendar, register);
    let places = layout::places(register, usize::from(register[WAITING]));
    for (i, place) in places.iter().enumerate() {
        let month = u32::from(word(place, MONTH));
        let price = u32::from(word(place, PRICE));
        let beside = waits(&places[..i], month, price) || waits(&places[i + 1..], month, price);
        if running.refusal(next, beside, month, price).is_err() {
            return false;
        }
    }
    true
}

// What the check finds of a register that runs and is well formed.
fn standing<'a>(calendar: Calendar<'a>, register: &[u8; REGISTER_LENGTH]) -> Option<Running<'a>>
    ensures { Stands calendar.entry.bytes.now register.now result }
{
    if !keeps_layout(register) {
        return None;
    }
    let day = word(register, DAY);
    if DAYS <= day {
        return None;
    }
    if !calendar::has_session(calendar.bytes, day) {
        return None;
    }
    let Ok(live) = LiveMonths::try_from(calendar::first_live(calendar, day)) else {
        return None;
    };
    let rows = layout::rows(register, usize::from(word(register, COUNT)));
    let spans = scan::ladders(rows, day, live)?;
    let running = Running {
        calendar,
        live,
        spans,
    };
    if register[WAITING] == 0 {
        return Some(running);
    }
    if !waiting_stands(running, register) {
        return None;
    }
    Some(running)
}

// A register that a call can be made on, under a calendar that passed: empty, or one that runs and is well formed.
#[derive(Clone, Copy)]
pub enum Opened<'a> {
    Empty(Calendar<'a>),
    Running(Running<'a>),
}

// How every call opens: causes 11 to 15.
pub fn open<'a>(calendar: &'a [u8], register: &[u8]) -> Result<Opened<'a>, Cause>
    ensures { Opens calendar.now register.now result }
{
    let calendar = passing::check(calendar)?;
    let Ok(register) = <&[u8; REGISTER_LENGTH]>::try_from(register) else {
        return Err(Cause::RegisterLength);
    };
    if register[STATUS] != 0 {
        let Some(running) = standing(calendar, register) else {
            return Err(Cause::RegisterForm);
        };
        return Ok(Opened::Running(running));
    }
    if layout::is_zero(register) {
        Ok(Opened::Empty(calendar))
    } else {
        Err(Cause::RegisterForm)
    }
}
