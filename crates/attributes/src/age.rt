// How old a file is.
use std::fmt;
use std::fmt::Display;
use system::System;

// A time in seconds.
#[derive(Clone, Copy, PartialEq, Eq, Debug)]
pub struct Age(pub u64);

// How long ago a file was changed: since 1970 began where that cannot be known, and not at all where it lies ahead of the clock.
// Kept: no Option: its one caller tells an age in any case, so it would make this one of a None.
pub fn age_of(system: &System, path: &[u8]) -> Age {
    let changed = match crate::of(system, path) {
        Ok(Some(file)) => u64::try_from(file.changed).unwrap_or(0),
        _ => 0,
    };
    let now = system.now().unwrap_or(0);
    Age(now.saturating_sub(changed))
}

// So many of a unit.
#[derive(Clone, Copy)]
struct Count(u64, &'static str);

impl Display for Count {
    fn fmt<W: fmt::Write>(&self, f: &mut fmt::Formatter<W>) -> fmt::Result {
        let n = self.0;
        let unit = self.1;
        // Kept: a Plural is one of a u32, to which this number would be narrowed first.
        let s = if n == 1 { "" } else { "s" };
        write!(f, "{n} {unit}{s}")
    }
}

// By the two greatest parts of the time.
impl Display for Age {
    fn fmt<W: fmt::Write>(&self, f: &mut fmt::Formatter<W>) -> fmt::Result {
        let seconds = self.0;
        let minutes = seconds / 60;
        let hours = minutes / 60;
        let (first, second) = if 24 <= hours {
            (Count(hours / 24, "day"), Count(hours % 24, "hour"))
        } else if 1 <= hours {
            (Count(hours, "hour"), Count(minutes % 60, "minute"))
        } else if 1 <= minutes {
            (Count(minutes, "minute"), Count(seconds % 60, "second"))
        } else {
            return write!(f, "{}", Count(seconds, "second"));
        };
        write!(f, "{first} {second}")
    }
}
