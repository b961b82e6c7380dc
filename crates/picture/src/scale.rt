// The scale of prices: heights in tenths of a pixel, and the axis with its grid lines.
ghost use Rattle.std.specs.Prelude.{◌<◌, ◌≤◌};

use crate::shapes::Pixels;
use reading::{PAST_PRICES, Register, Span};
use std::fmt;
use std::fmt::Display;

// Where the highest and the lowest price stand, in tenths of a pixel from the top.
const TOP: u32 = 1700;

const BOTTOM: u32 = 11000;

// The lowest and the highest price of all rows.
#[derive(Clone, Copy)]
pub struct Scale {
    low: u32,
    high: u32,
    ghost rises: { low < high },
}

impl Scale {
    // The scale of the six live months; none where nothing is listed.
    pub fn of(register: Register<'_>) -> Option<Scale> {
        let months = register.live_months();
        let span = months
            .iter()
            .filter_map(|&month| register.rows_of(month).span())
            .reduce(Span::joined)?;
        let Span { low, high } = span;
        if low < high {
            Some(Scale { low, high })
        } else {
            None
        }
    }

    // How long the stretch between two prices is on the scale.
    pub fn between(self, a: u32, b: u32) -> u32 {
        a.abs_diff(b).saturating_mul(BOTTOM - TOP) / (self.high - self.low)
    }

    // Where a price stands.
    pub fn height_of(self, price: u32) -> u32
        ensures { result ≤ 11000 }
    {
        BOTTOM.saturating_sub(self.between(self.low, price))
    }

    // The round distance between grid lines that gives at most twenty.
    fn step(self) -> usize
        ensures { 0 < result }
    {
        match self.high - self.low {
            0..=200 => 10,
            201..=400 => 20,
            401..=1000 => 50,
            1001..=2000 => 100,
            2001..=4000 => 200,
            _ => 500,
        }
    }
}

// Grid lines at the round prices within the scale.
#[derive(Clone, Copy)]
pub struct Axis(pub Scale);

impl Display for Axis {
    fn fmt<W: fmt::Write>(&self, f: &mut fmt::Formatter<W>) -> fmt::Result {
        let scale = self.0;
        for price in (0..PAST_PRICES).step_by(scale.step()) {
            if scale.low <= price && price <= scale.high {
                let height = scale.height_of(price);
                writeln!(
                    f,
                    "<path class='g' d='M80 {}h900'/><text class='y' x='72' y='{}'>{price}</text>",
                    Pixels(height),
                    Pixels(height + 45),
                )?;
            }
        }
        Ok(())
    }
}
