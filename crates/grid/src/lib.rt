// The strike grids: prices on a grid, the nearest price to a close, and what a close requires.
#![tactic(auto)]

mod closes;

ghost use Rattle.std.specs.Prelude.{◌≡◌, Some, None, cond, eqb, ◌+◌, ◌*◌, ◌/◌, ◌%◌, ◌≤◌};
ghost use Rattle.base.specs.Lists.{elem};
ghost use Rattle.grid.specs.Grid.{grid_of, required_low, required_high, lowest_close, highest_close, close_taken};
ghost use Rattle.grid.specs.Numbers.{price, some_number, stride, top_number, Rounded, NearestNumber, band_step, band_end};
ghost use Rattle.grid.specs.Closes.{CloseOf};

use base::{Cause, Tier};
pub use closes::{Close, HIGHEST_CLOSE, LOWEST_CLOSE};

impl TryFrom<u32> for Close {
    type Error = Cause;

    ghost try_from_gives = { CloseOf };

    fn try_from(hundredths: u32) -> Result<Close, Cause> {
        if close_taken(hundredths) {
            Ok(Close { hundredths })
        } else {
            Err(Cause::Close)
        }
    }
}

// A run of prices of a grid, both ends included.
#[repr(C)]
#[derive(Clone, Copy)]
pub struct Strikes {
    pub low: u16,
    pub high: u16,
}

// How many numbers of grid N a tier's grid goes up at a step.
// Kept: `lookup_c` matches the tiers too, for the numbers that C has for them, which are others.
#[tactic(auto, unfolding(crate::specs::Numbers::stride))]
pub fn stride_of(tier: Tier) -> u16
    ensures { result ≡ stride tier }
{
    match tier {
        Tier::N => 1,
        Tier::M => 2,
        Tier::F => 4,
    }
}

// Kept: the ranges are the table of the three bands. One of numbers, prices, steps and ends needs a search by number and one by price, each with an invariant.
pub fn price_at(number: u16) -> u16
    requires { number ≤ top_number }
    ensures { result ≡ price number }
{
    match number {
        0..96 => 5 * number,
        96..148 => 480 + 10 * (number - 96),
        _ => 1000 + 25 * (number - 148),
    }
}

// How many steps lead to a height, counted from a number on, where these are whole.
fn whole_steps(from: u16, height: u16, step: u16) -> Option<u16>
    requires { (from ≤ 148) × (height ≤ 8975) × (1 ≤ step) }
    ensures { result ≡ cond (eqb (height % step) 0) (Some (from + height / step)) None }
{
    if height % step == 0 {
        Some(from + height / step)
    } else {
        None
    }
}

// The number of a price, where grid N has it.
// Kept: the ranges are matched, as at `price_at`.
pub fn number_of(price: u32) -> Option<u16>
    ensures { result ≡ some_number price }
{
    match u16::try_from(price).ok()? {
        0 => None,
        price @ 1..480 => whole_steps(0, price, 5),
        price @ 480..1000 => whole_steps(96, price - 480, 10),
        price @ 1000..=9975 => whole_steps(148, price - 1000, 25),
        _ => None,
    }
}

pub fn on_grid(tier: Tier, price: u32) -> bool
    ensures { result ≡ elem price (grid_of tier) }
{
    match number_of(price) {
        Some(number) => number % stride_of(tier) == 0,
        None => false,
    }
}

pub fn close_taken(close: u32) -> bool
    ensures { result ≡ close_taken close }
{
    (LOWEST_CLOSE..=HIGHEST_CLOSE).contains(&close)
}

// How many steps come nearest to a height; halfway, the higher number.
fn rounded(height: u32, step: u32) -> u16
    requires { (height ≤ highest_close) × (500 ≤ step) × (step ≤ 10000) }
    ensures { Rounded height step result }
{
    // Kept: the cast. The check proves that it loses nothing; `try_from(..).unwrap()` would need the same proof and says it in more words.
    let below = (height / step) as u16;
    if 2 * (height % step) < step {
        below
    } else {
        below + 1
    }
}

// The number of the grid's price that is nearest to a close; halfway, the higher. The bands begin at the numbers 0, 96 and
// 148, and two prices next to each other on grid N lie 500, 1000 and 2500 hundredths apart there.
pub fn nearest_number(tier: Tier, close: Close) -> u16
    ensures { NearestNumber tier close.hundredths result }
{
    let number = stride_of(tier);
    let stride = u32::from(number);
    let close = close.hundredths;
    match close {
        0..48000 => number * rounded(close, 500 * stride),
        48000..100000 => 96 + number * rounded(close - 48000, 1000 * stride),
        _ => 148 + number * rounded(close - 100000, 2500 * stride),
    }
}

// The lowest and the highest price that a close requires. The neighbours are 16 numbers each way in every tier: 16 prices at
// stride 1, 8 at stride 2, 4 at stride 4.
pub fn required_strikes(tier: Tier, close: Close) -> Strikes
    ensures { (result.low ≡ required_low tier close.hundredths) × (result.high ≡ required_high tier close.hundredths) }
{
    let j = nearest_number(tier, close);
    Strikes {
        low: price_at(j - 16),
        high: price_at(j + 16),
    }
}

// The band of a grid in which a price lies: how far apart its prices stand at a stride, and where it ends.
#[derive(Clone, Copy)]
pub struct Band {
    pub step: u64,
    pub end: u64,
}

pub fn band_of(price: u64, stride: u64) -> Band
    requires { stride ≤ 4 }
    ensures { (result.step ≡ stride * band_step price) × (result.step ≤ 100) × (result.end ≡ band_end price) }
{
    match price {
        0..480 => Band {
            step: stride * 5,
            end: 480,
        },
        480..1000 => Band {
            step: stride * 10,
            end: 1000,
        },
        _ => Band {
            step: stride * 25,
            end: 10000,
        },
    }
}
