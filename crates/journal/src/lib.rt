// The journal of a register's calls, in lines that a person can read:
//
//     start 2026-11-16 2413.37 = 0 added 94 removed 0 rows 94
//     session 2026-11-17 2420.10 = 0 added 0 removed 0 rows 94
//     announce 2026-12 3100 = 0 waiting 1
//     session 2026-11-19 2420.10 = 19
//
// A call with its two arguments, `=`, the number that it gave, and the values beside it.
#![tactic(auto)]

mod ending;
mod input;
mod output;
mod telling;

pub use ending::{ended, is_cut, is_text, whole};
pub use input::{Reason, Refused, call_in, is_name, read};
pub use output::{Answered, Entry};
pub use telling::{agrees, answer_in, number_told};
