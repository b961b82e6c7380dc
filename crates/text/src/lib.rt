// Text, as the console program writes and reads it: days, months, closes and numbers, both ways.
#![tactic(auto)]

mod buffer;
mod read;
mod styles;
mod values;

pub use buffer::Text;
pub use read::{
    END_YEAR, read_close, read_comma_close, read_day, read_month, read_number, split_once,
};
pub use styles::{read_styled_day, read_styled_month};
pub use values::{Date, Month, Plural, Points, narrowed};
