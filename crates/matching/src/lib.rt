// A register and its journal: the journal's calls run line by line, and the way on where the two have parted.
#![tactic(auto)]

mod otherwise;
mod running;
mod way;

pub use otherwise::Otherwise;
pub use running::{Found, Last, run};
pub use way::{Names, Way};
