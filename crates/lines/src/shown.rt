// A line in a message.
use std::fmt;
use std::fmt::Display;

// How many bytes of a line a message shows.
const SHOWN: usize = 60;

// A line's first bytes as a terminal shows them, and two points where there are more.
#[derive(Clone, Copy)]
pub struct Quoted<'a>(pub &'a [u8]);

impl Display for Quoted<'_> {
    fn fmt<W: fmt::Write>(&self, f: &mut fmt::Formatter<W>) -> fmt::Result {
        for &byte in self.0.iter().take(SHOWN) {
            let is_shown = matches!(byte, b' '..=b'~');
            f.write_char(if is_shown { char::from(byte) } else { '?' })?;
        }
        f.write_str(if SHOWN < self.0.len() { ".." } else { "" })
    }
}

// A line with its number, as `line 3: 2026-12-26`, and a line feed.
#[derive(Clone, Copy)]
pub struct Shown<'a> {
    pub number: u32,
    pub line: &'a [u8],
}

impl Display for Shown<'_> {
    fn fmt<W: fmt::Write>(&self, f: &mut fmt::Formatter<W>) -> fmt::Result {
        let number = self.number;
        let line = Quoted(self.line);
        writeln!(f, "line {number}: {line}")
    }
}

// A line that was refused, and on the next line why.
#[derive(Clone, Copy, Debug)]
pub struct Refused<'a, R> {
    pub number: u32,
    pub line: &'a [u8],
    pub reason: R,
}

impl<R: Display> Display for Refused<'_, R> {
    fn fmt<W: fmt::Write>(&self, f: &mut fmt::Formatter<W>) -> fmt::Result {
        let line = Shown {
            number: self.number,
            line: self.line,
        };
        let reason = &self.reason;
        write!(f, "{line}  {reason}")
    }
}
