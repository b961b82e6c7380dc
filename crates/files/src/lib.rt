// Files by name: read whole, replaced whole, appended to. Trouble is told on standard error where it is met.
//
// A file is replaced by a new one beside it: made, dressed as the old one, written, brought to the disk, renamed over the old
// one, and the folder brought to the disk. The new file is made before the old one is read, and its name can be taken by one
// run alone, so it is also the lock of one run against another.
#![tactic(auto)]

mod journals;
mod loading;
mod paths;
mod replacing;
mod telling;

pub use journals::{Extent, check_size, keep_line};
pub use loading::{load, load_text, peek};
pub use paths::{beside, destination, follow, is_same, known};
pub use replacing::{Moved, NewFile, Saved, Target, replace};
pub use telling::{Trouble, complain, complain_bytes, fail, fail_after, note};
