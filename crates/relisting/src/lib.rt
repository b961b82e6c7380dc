// What a start or a session that is not refused leaves: the register's bytes, and the answer.
#![tactic(auto)]

ghost use Rattle.std.specs.Prelude.{◌≡◌, true, ◌++◌, ◌+◌, ◌*◌, ◌≤◌, map, length, get_or, drop};
ghost use Rattle.calendar.specs.Calendar.{expiry_of, next_session};
ghost use Rattle.calendar.specs.Live.{first_live};
ghost use Rattle.grid.specs.Numbers.{number_of};
ghost use Rattle.rules.specs.Rulebook.{begun, moved, rules};
ghost use Rattle.layout.specs.Register.{empty, running};
ghost use Rattle.layout.specs.Bytes.{register_length, rows_from, row_of, read_rows, bytes_of, moment_of, body_of};
ghost use Rattle.register.specs.Opens.{Finds};
ghost use Rattle.ladders.specs.Writing.{ladders_from};
ghost use Rattle.ladders.specs.Plans.{plan_of};
ghost use Rattle.calls.specs.Listing.{start_body};
ghost use Rattle.relisting.specs.Writing.{answer, head_bytes, quiet_bytes, session_of, dropped_rows};

use base::{put_word, word};
use calendar::Calendar;
use calls::Totals;
use grid::Close;
use ladders::Plans;
use layout::{COUNT, DAY, Origin, REGISTER_LENGTH, ROW_LENGTH, ROWS, STATUS, WAITING};
use register::Running;
use rules::LiveMonths;

// A start or a session that is not refused: its day, whose live months these are, and its close.
#[derive(Clone, Copy)]
pub struct Listing<'a> {
    pub calendar: Calendar<'a>,
    pub day: u16,
    pub live: LiveMonths,
    pub close: Close,
    ghost months: { live.first ≡ first_live (expiry_of calendar.bytes.now) day },
}

// Writes status, day and row count, and clears the announcements.
fn write_head(register: &mut [u8; REGISTER_LENGTH], day: u16, count: u16)
    ensures { register.new ≡ head_bytes day count ++ drop rows_from register.old }
{
    register[..ROWS].fill(0);
    register[STATUS] = 1;
    put_word(register, DAY, day);
    put_word(register, COUNT, count);
}

// Lists all six months by their plans, from the old rows that stay. Returns the row count.
fn list(register: &mut [u8; REGISTER_LENGTH], old: &[[u8; ROW_LENGTH]], plans: &Plans) -> u16
    ensures value { result ≡ length (ladders_from (plan_of plans.now) 0 6 (map row_of old.now)) }
    ensures register_after { register.new ≡ quiet_bytes plans.now.day (ladders_from (plan_of plans.now) 0 6 (map row_of old.now)) }
{
    let end = ladders::write_plans(register, old, plans);
    // Kept: the casts of this file. The check proves that they lose nothing; try_from(..).unwrap() would need the same proof and says it in more words.
    let count = ((end - ROWS) / ROW_LENGTH) as u16;
    write_head(register, plans.day, count);
    count
}

// A start that is not refused.
pub fn list_start(register: &mut [u8; REGISTER_LENGTH], listing: Listing<'_>) -> Totals
    ensures value { result ≡ answer (rules listing.entry.calendar.bytes.now) empty (running (start_body (rules listing.entry.calendar.bytes.now) (begun listing.entry.day) listing.entry.close.hundredths)) }
    ensures register_after { register.new ≡ bytes_of (running (start_body (rules listing.entry.calendar.bytes.now) (begun listing.entry.day) listing.entry.close.hundredths)) }
{
    let months = listing.live.months();
    let held = [[0; 2]; 6];
    let spans = spans::close_spans(months, held, listing.close);
    let plans = Plans {
        day: listing.day,
        origin: Origin::Start,
        months,
        held,
        wide: spans,
        spans,
    };
    let count = list(register, &[], &plans);
    Totals {
        added: count,
        removed: 0,
        rows: count,
    }
}

// How many rows the first live month of the session before had, if it is no longer live. It was in tier N, whose prices have all numbers.
fn dropped_rows(before: LiveMonths, live: LiveMonths, span: [u16; 2]) -> u16
    requires { number_of (get_or span 0 0) ≤ number_of (get_or span 1 0) }
    ensures { result ≡ dropped_rows before.first live.first span }
{
    if before == live {
        0
    } else {
        grid::number_of(u32::from(span[1])).unwrap_or(0) + 1
            - grid::number_of(u32::from(span[0])).unwrap_or(0)
    }
}

// Lists the months of a session anew. The old rows stand in a copy; the first `dropped` of them go. Returns the row count.
fn relist(register: &mut [u8; REGISTER_LENGTH], rows: u16, dropped: u16, plans: &Plans) -> u16
    requires { (dropped ≤ rows) × (rows_from + 8 * rows ≤ register_length) }
    ensures value { result ≡ length (ladders_from (plan_of plans.now) 0 6 (drop dropped (read_rows rows (drop rows_from register.old)))) }
    ensures register_after { register.new ≡ quiet_bytes plans.now.day (ladders_from (plan_of plans.now) 0 6 (drop dropped (read_rows rows (drop rows_from register.old)))) }
{
    let copy = *register;
    let (_, old) = layout::rows(&copy, usize::from(rows)).split_at(usize::from(dropped));
    list(register, old, plans)
}

// A session that is not refused. Where no month is new and no span wider, the rows stay as they are.
pub fn list_session(
    register: &mut [u8; REGISTER_LENGTH],
    before: Running<'_>,
    listing: Listing<'_>,
) -> Totals
    requires found { Finds listing.calendar.bytes.now register.old before }
    requires next { listing.day ≡ next_session listing.calendar.bytes.now (moment_of register.old).day }
    ensures value { result ≡ answer (rules listing.entry.calendar.bytes.now) (running (body_of register.old)) (running (session_of listing.entry.calendar.bytes.now register.old listing.entry.day listing.entry.close.hundredths)) }
    ensures register_after { register.new ≡ bytes_of (running (session_of listing.entry.calendar.bytes.now register.old listing.entry.day listing.entry.close.hundredths)) }
{
    let rows = word(register, COUNT);
    let months = listing.live.months();
    let held = spans::held_spans(before.live.months(), before.spans, months);
    let wide = spans::close_spans(months, held, listing.close);
    let waiting = usize::from(register[WAITING]);
    let places = layout::places(register, waiting);
    let new = spans::new_spans(places, months, held, wide);
    if before.live == listing.live && held == new {
        write_head(register, listing.day, rows);
        return Totals {
            added: 0,
            removed: 0,
            rows,
        };
    }
    let plans = Plans {
        day: listing.day,
        origin: Origin::Live,
        months,
        held,
        wide,
        spans: new,
    };
    let dropped = dropped_rows(before.live, listing.live, before.spans[0]);
    let count = relist(register, rows, dropped, &plans);
    Totals {
        added: count + dropped - rows,
        removed: dropped,
        rows: count,
    }
}
