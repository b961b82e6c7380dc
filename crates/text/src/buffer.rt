// Text in a fixed room: what does not fit is left out.
ghost use Rattle.std.specs.Prelude.{◌≡◌, ◌≤◌, ◌^◌, ◌<◌, List, ℕ, [], ◌++◌, length, take};

use std::fmt;
use std::fmt::{Display, Write};
use std::marker::Model;

// Kept: the room and its length, since there is no heap; std has no such room, and a Vec's push fails where this one cuts.
#[derive(Drop)]
pub struct Text<const N: usize> {
    room: [u8; N],
    length: usize,
}

// Clauses see the bytes that were put.
impl<const N: usize> Model for Text<N> {
    ghost Value = { List ℕ };

    ghost view = { λ t. take t.length t.room };

    ghost invariant = { λ t. t.length ≤ N };
}

impl<const N: usize> Text<N> {
    pub fn new() -> Self
        ensures { result ≡ [] }
    {
        Text {
            room: [0; N],
            length: 0,
        }
    }

    // The first bytes of a room that was filled.
    pub fn begin(room: [u8; N], n: usize) -> Self
        requires { n ≤ N }
        ensures { result ≡ take n room.entry }
    {
        Text { room, length: n }
    }

    // A new text of what a value is displayed as. There is no contract to give: clauses see no display, and N bounds every text.
    pub fn of(what: impl Display + Drop) -> Self {
        let mut text = Text::new();
        text.say(what);
        text
    }

    // Puts bytes behind those that are there.
    pub fn put(&mut self, bytes: &[u8])
        ensures { self.new ≡ take N (self.old ++ bytes.now) }
    {
        let start = self.length;
        let room = &mut self.room[..];
        let n = (room.len() - start).min(bytes.len());
        room[start..start + n].copy_from_slice(&bytes[..n]);
        self.length = start + n;
    }

    // Puts what a value is displayed as.
    pub fn say(&mut self, what: impl Display + Drop) {
        let _ = write!(self, "{what}");
    }

    pub fn clear(&mut self)
        ensures { self.new ≡ [] }
    {
        self.length = 0;
    }

    pub fn as_bytes(&self) -> &[u8]
        ensures { result.now ≡ self.now }
    {
        &self.room[..self.length]
    }
}

impl<const N: usize> fmt::Write for Text<N> {
    fn write_str(&mut self, s: &str) -> fmt::Result {
        self.put(s.as_bytes());
        Ok(())
    }
}
