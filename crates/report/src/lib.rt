// What stands in a register that was accepted, or in a file of series, in words and tables. Whoever asks has opened it.
#![tactic(auto)]

mod close;
mod contents;
mod glance;
mod outcome;
mod parts;
mod strikes;

pub use close::FarClose;
pub use contents::{SeriesHeading, SeriesLine, Written, series_fields};
pub use glance::Glance;
pub use outcome::{Announced, Changes};
pub use strikes::{AddedRows, MonthRows};
