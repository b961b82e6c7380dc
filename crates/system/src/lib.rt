// What the console asks of the system: the words that it was started with, files by name, streams, the clock.
//
// A path is text without a zero, of at most 4,095 bytes.
#![tactic(auto)]

mod errors;
mod paths;
mod streams;

pub use errors::Error;
use std::env::FillError;
pub use std::fs::{File, Metadata};
use std::rt::{Clock, Env};
pub use streams::{Source, Stream};
use text::Text;

// A path and the zero behind it have at most so many bytes.
pub const PATH_MAX: usize = 4096;

#[derive(Drop)]
pub struct System {
    rt: HostRuntime,
    // How many words the program was started with, its own name among them.
    arguments: usize,
}

// How many arguments there are. Without room for a byte, one that has bytes is too long.
fn count_of(rt: &HostRuntime) -> usize {
    (0..usize::MAX)
        .find(|&i| matches!(rt.arg(i, &mut []), Err(FillError::NotPresent)))
        .unwrap_or(usize::MAX)
}

impl System {
    pub fn new(rt: HostRuntime) -> System {
        let arguments = count_of(&rt);
        System { rt, arguments }
    }

    pub fn argument_count(&self) -> usize {
        self.arguments
    }

    // Argument i; none where there is none, or where it does not fit. Its room is no part of its callers' stacks.
    #[inline(never)]
    pub fn argument(&self, i: usize) -> Option<Text<PATH_MAX>> {
        // Kept: std puts the argument into a room of zeros, and a text, which keeps the length, takes it over: a second room would cost as much again.
        let mut room = [0; PATH_MAX];
        let n = self.rt.arg(i, &mut room).ok()?;
        Some(Text::begin(room, n))
    }

    // Seconds since 1970 began.
    pub fn now(&self) -> Result<u64, Error> {
        Ok(self.rt.since_1970()?.as_secs())
    }
}
