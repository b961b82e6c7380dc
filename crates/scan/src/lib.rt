// The scan of a register's rows: ladders one behind the other.
#![tactic(auto)]

ghost use Rattle.std.specs.Prelude.{◌≡◌, [], map, ◌≤◌, ◌<◌, length, get_or};
ghost use Rattle.base.specs.Words.{at16};
ghost use Rattle.calendar.specs.Live.{live_months};
ghost use Rattle.scan.specs.Scan.{scanned, fitting, climbed, ladder_rows, some_rows, ladder_spans};

use base::{Tier, word};
use layout::{FIRST_DAY, MONTH, ORIGIN, PRICE, ROW_LENGTH};
use rules::LiveMonths;

// Whether a row is that of a month at a price, with a first day up to the day and an origin from 1 to 5, zero behind it.
// Month and price are compared as one number, and the origin with the byte behind it, so that few loads and branches do.
fn row_fits(row: &[u8; ROW_LENGTH], day: u16, month: u16, price: u64) -> bool
    requires { price < 10000 }
    ensures { result ≡ fitting day month price (scanned row.now) }
{
    let key = u64::from(word(row, MONTH)) + 65536 * u64::from(word(row, PRICE));
    if key != u64::from(month) + 65536 * price || day < word(row, FIRST_DAY) {
        return false;
    }
    let origin = word(row, ORIGIN);
    1 <= origin && origin <= 5
}

// How many rows go up a month's ladder from its lowest price. The loop is left at the first row that does not fit.
fn climb(rows: &[[u8; ROW_LENGTH]], day: u16, month: u16, low: u16, stride: u16) -> usize
    requires { (low < 10000) × (stride ≤ 4) }
    ensures { result ≡ climbed day month stride low (map scanned rows.now) }
{
    let by = u64::from(stride);
    let mut price = u64::from(low);
    let mut band = grid::band_of(price, by);
    for (n, row) in rows.iter().enumerate() {
        if !row_fits(row, day, month, price) {
            return n;
        }
        price += band.step;
        if band.end <= price {
            if 10000 <= price {
                return n + 1;
            }
            band = grid::band_of(price, by);
        }
    }
    rows.len()
}

// How many rows are a month's ladder on its tier's grid; none where the first is not of one.
fn ladder(rows: &[[u8; ROW_LENGTH]], day: u16, month: u16, tier: Tier) -> Option<usize>
    ensures { result ≡ some_rows (ladder_rows day month tier (map scanned rows.now)) }
{
    let low = word(rows.first()?, PRICE);
    if !grid::on_grid(tier, u32::from(low)) {
        return None;
    }
    match climb(rows, day, month, low, grid::stride_of(tier)) {
        0 => None,
        n => Some(n),
    }
}

// The price of the row at a position.
fn price_at(rows: &[[u8; ROW_LENGTH]], i: usize) -> u16
    requires { i < length rows.now }
    ensures { result ≡ at16 (get_or rows.now i []) 2 }
{
    word(&rows[i], PRICE)
}

// The six spans, where the rows are the live months' ladders one behind the other and no other row stands.
pub fn ladders(rows: &[[u8; ROW_LENGTH]], day: u16, live: LiveMonths) -> Option<[[u16; 2]; 6]>
    ensures { result ≡ ladder_spans day live.first [] (live_months live.first) (map scanned rows.now) }
{
    let months = live.months();
    let mut spans = [[0; 2]; 6];
    let mut rest = rows;
    for (i, month) in months.iter().enumerate() {
        let n = ladder(rest, day, *month, live.tier(*month))?;
        spans[i] = [price_at(rest, 0), price_at(rest, n - 1)];
        (_, rest) = rest.split_at(n);
    }
    rest.is_empty().then_some(spans)
}
