// The ladders of a start or a session, written row by row.
#![tactic(auto)]

pub mod plans;

ghost use Rattle.std.specs.Prelude.{◌≡◌, ◌&&◌, ◌++◌, ◌+◌, ◌*◌, ◌≤◌, ◌<◌, eqb, map, length, take, drop, get_or};
ghost use Rattle.base.specs.Lists.{within};
ghost use Rattle.base.specs.Words.{at16};
ghost use Rattle.layout.specs.Bytes.{register_length, most_rows, rows_from, row_of, rows_bytes, padded};
ghost use Rattle.ladders.specs.Writing.{rows_in, row_bytes, prices_in, added_origin, next_price, ladder_by, left_by, Ends, Alike, Spanned, ladders_from, plan_at, Ready};
ghost use Rattle.ladders.specs.Plans.{any_plan_of, plan_of};

use base::{Tier, put_word, word};
use grid::Strikes;
use layout::{FIRST_DAY, MONTH, ORIGIN, Origin, PRICE, REGISTER_LENGTH, ROW_LENGTH, ROWS, SPARE};
use plans::AnyPlans;
pub use plans::Plans;

// How one month's ladder is written.
#[derive(Drop)]
pub struct Plan {
    pub month: u16,
    pub tier: Tier,
    // The first day of a row that is added.
    pub day: u16,
    // The origin of all rows of a month that held no span before.
    pub origin: u8,
    pub span: Strikes,
    // The span that the month held before, if it held one, and that span as the close alone widens it.
    pub held: Option<Strikes>,
    pub wide: Strikes,
}

// Rows of a ladder, from a price on, that differ in price alone.
#[derive(Drop)]
pub struct Stretch {
    // The first price that is no longer of it, and how far apart its prices stand.
    pub end: u64,
    pub step: u64,
    pub first: u16,
    pub origin: u8,
}

// A stretch, and the old rows that are left behind its first row. An old row is a stretch by itself.
#[derive(Drop)]
pub struct Found<'a> {
    pub stretch: Stretch,
    pub left: &'a [[u8; ROW_LENGTH]],
}

// How many bytes a ladder has, and the old rows that are left behind it.
#[derive(Drop)]
pub struct Written<'a> {
    pub size: usize,
    pub left: &'a [[u8; ROW_LENGTH]],
}

#[tactic(auto, unfolding(base::specs::Lists::within))]
fn covers(span: &Strikes, price: u16) -> bool
    ensures { result ≡ within span.now.low span.now.high price }
{
    (span.low..=span.high).contains(&price)
}

// An end, moved forward to an edge where one lies between it and a price.
fn nearer(end: u64, edge: u64, price: u64) -> u64
    ensures { (result ≤ end) × (price < edge → result ≤ edge) }
{
    if price < edge { end.min(edge) } else { end }
}

impl Plan {
    // The origin of a row that is added.
    #[tactic(auto, unfolding(crate::specs::Writing::added_origin))]
    fn added_origin(&self, price: u16) -> u8
        ensures { result ≡ added_origin self.now price }
    {
        match &self.held {
            None => self.origin,
            Some(held) if covers(held, price) => Origin::Within.code(),
            Some(_) if covers(&self.wide, price) => Origin::Close.code(),
            Some(_) => Origin::Announced.code(),
        }
    }

    // Whether an old row is that of the plan's month at a price.
    fn has_row(&self, row: &[u8; ROW_LENGTH], price: u64) -> bool
        ensures { result ≡ (eqb self.now.month (at16 row.now 0) && eqb price (at16 row.now 2)) }
    {
        self.month == word(row, MONTH) && price == u64::from(word(row, PRICE))
    }

    // The price of the first of the old rows, where that is of the plan's month.
    fn next_price(&self, old: &[[u8; ROW_LENGTH]]) -> Option<u16>
        ensures { result ≡ next_price self.now (map row_of old.now) }
    {
        let row = old.first()?;
        if self.month == word(row, MONTH) {
            Some(word(row, PRICE))
        } else {
            None
        }
    }

    // Where added rows from a price on cease to be alike: at an end, at the next old row, and where a span that decides about their origin
    // begins or has ended.
    fn stretch_end(&self, next: Option<u16>, end: u64, price: u64) -> u64
        ensures { Ends self.now next end price result }
    {
        let end = match next {
            Some(next) => nearer(end, u64::from(next), price),
            None => end,
        };
        match &self.held {
            Some(held) => {
                let end = nearer(end, u64::from(held.low), price);
                let end = nearer(end, u64::from(held.high) + 1, price);
                let end = nearer(end, u64::from(self.wide.low), price);
                nearer(end, u64::from(self.wide.high) + 1, price)
            }
            None => end,
        }
    }

    // Kept: the casts of this file. The check proves that they lose nothing; try_from(..).unwrap() would need the same proof and says it in more words.
    // The rows from a price on: the first of the old rows where that is its row, else those that are added up to the next change.
    fn stretch_from<'a>(&self, old: &'a [[u8; ROW_LENGTH]], price: u64) -> Found<'a>
        requires { (0 < price) × (price < 10000) }
        ensures { Alike self.now (map row_of old.now) price result.stretch (map row_of result.left.now) }
    {
        let band = grid::band_of(price, u64::from(grid::stride_of(self.tier)));
        if let Some((row, left)) = old.split_first() {
            if self.has_row(row, price) {
                let stretch = Stretch {
                    end: price + 1,
                    step: band.step,
                    first: word(row, FIRST_DAY),
                    origin: row[ORIGIN],
                };
                return Found { stretch, left };
            }
        }
        let stretch = Stretch {
            end: self.stretch_end(self.next_price(old), band.end, price),
            step: band.step,
            first: self.day,
            origin: self.added_origin(price as u16),
        };
        Found { stretch, left: old }
    }
}

// Writes a row of a stretch at the front of a part.
fn write_row(part: &mut [u8], month: u16, price: u16, stretch: &Stretch)
    requires { 8 ≤ length part.old }
    ensures { part.new ≡ row_bytes month price stretch.now.first stretch.now.origin ++ drop 8 part.old }
{
    put_word(part, MONTH, month);
    put_word(part, PRICE, price);
    put_word(part, FIRST_DAY, stretch.first);
    part[ORIGIN] = stretch.origin;
    part[SPARE] = 0;
}

// Writes a month's ladder at the front of the register's rest. `old` is the old rows that are left; the month's come first.
fn write_ladder<'a>(rest: &mut [u8], old: &'a [[u8; ROW_LENGTH]], plan: &Plan) -> Written<'a>
    requires { Spanned plan.now × (8 * length (prices_in plan.now) ≤ length rest.old) }
    ensures size { result.size ≡ 8 * length (prices_in plan.now) }
    ensures left { map row_of result.left.now ≡ left_by plan.now (prices_in plan.now) (map row_of old.now) }
    ensures rest_after { rest.new ≡ rows_bytes (ladder_by plan.now (prices_in plan.now) (map row_of old.now)) ++ drop (8 * length (prices_in plan.now)) rest.old }
{
    let high = u64::from(plan.span.high);
    let mut price = u64::from(plan.span.low);
    let mut stretch = Stretch {
        end: 0,
        step: 0,
        first: 0,
        origin: 0,
    };
    let mut left = old;
    let mut at = 0;
    // Kept: each price tells how far the next one is, so no range steps over them, and an iterator would take its turns as these.
    while price <= high {
        if stretch.end <= price {
            let found = plan.stretch_from(left, price);
            stretch = found.stretch;
            left = found.left;
        }
        write_row(&mut rest[at..], plan.month, price as u16, &stretch);
        at += ROW_LENGTH;
        price += stretch.step;
    }
    Written { size: at, left }
}

// The loop of `write_plans` and `write_ladders`.
fn write_all(register: &mut [u8], old: &[[u8; ROW_LENGTH]], plans: &AnyPlans) -> usize
    requires { length register.old ≡ register_length }
    ensures value { result ≡ rows_from + 8 * length (ladders_from (any_plan_of plans.now) 0 6 (map row_of old.now)) }
    ensures register_after { register.new ≡ take rows_from register.old ++ padded (8 * most_rows) (rows_bytes (ladders_from (any_plan_of plans.now) 0 6 (map row_of old.now))) }
{
    let mut at = ROWS;
    let mut left = old;
    for i in 0..6 {
        let plan = plans.plan(i);
        let written = write_ladder(&mut register[at..], left, &plan);
        at += written.size;
        left = written.left;
    }
    register[at..].fill(0);
    at
}

// Writes the six ladders by their plans, from whole rows, as `write_ladders` does.
pub fn write_plans(
    register: &mut [u8; REGISTER_LENGTH],
    old: &[[u8; ROW_LENGTH]],
    plans: &Plans,
) -> usize
    ensures value { result ≡ rows_from + 8 * length (ladders_from (plan_of plans.now) 0 6 (map row_of old.now)) }
    ensures register_after { register.new ≡ take rows_from register.old ++ padded (8 * most_rows) (rows_bytes (ladders_from (plan_of plans.now) 0 6 (map row_of old.now))) }
{
    write_all(register, old, &plans.any())
}

// Writes the six ladders, each into the register's rest behind the month before, and clears what is behind them. `old` is the old
// rows of the months that are live still; a tail shorter than a row is passed over. Returns where the rows end.
// Kept: eight parameters, as a function that docs/ARCHITECTURE.md names: it takes any byte for the origin and any bytes, where `write_plans` takes less.
#[tactic(auto, unfolding(crate::specs::Writing::rows_in), using(layout::proofs::Chunks::rows_chunked))]
pub fn write_ladders(
    register: &mut [u8],
    old: &[u8],
    day: u16,
    origin: u8,
    months: [u16; 6],
    held: [[u16; 2]; 6],
    wide: [[u16; 2]; 6],
    spans: [[u16; 2]; 6],
) -> usize
    requires register_len { length register.old ≡ register_length }
    requires ready { Ready (get_or months 0 0) (plan_at day origin months held wide spans) }
    ensures value { result ≡ rows_from + 8 * length (ladders_from (plan_at day origin months held wide spans) 0 6 (rows_in old.now)) }
    ensures register_after { register.new ≡ take rows_from register.old ++ padded (8 * most_rows) (rows_bytes (ladders_from (plan_at day origin months held wide spans) 0 6 (rows_in old.now))) }
{
    let (rows, _) = old.as_chunks();
    let any = AnyPlans {
        day,
        origin,
        months,
        held,
        wide,
        spans,
    };
    write_all(register, rows, &any)
}
