// The lines of a list that a person may have written: comments, words, and a line shown in a message.
#![tactic(auto)]

mod shown;
mod walks;

pub use shown::{Quoted, Refused, Shown};
pub use walks::{Numbered, Words, before};

// The line without its comment.
pub fn content(line: &[u8]) -> &[u8] {
    match text::split_once(line, b'#') {
        Some((content, _)) => content,
        None => line,
    }
}
