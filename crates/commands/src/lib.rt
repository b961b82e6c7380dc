// The commands of the program: one table of them, and the words that the program was started with, taken apart by it.
//
// Words are counted without options: 0 is the program, 1 the command, 2 the first word behind it.
#![tactic(auto)]

mod files;
mod near;
mod options;
mod table;
mod words;

pub use files::{Access, FileKind, FileUse};
pub use options::Opt;
pub use table::{Command, Form, Usage};
pub use words::{command, count, has, is_stream, lacking_value, lead, value, word, wrong_option};
