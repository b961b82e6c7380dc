// Lengths in the picture.
use std::fmt;
use std::fmt::Display;

// So many tenths of a pixel, told in pixels.
#[derive(Clone, Copy)]
pub struct Pixels(pub u32);

impl Display for Pixels {
    fn fmt<W: fmt::Write>(&self, f: &mut fmt::Formatter<W>) -> fmt::Result {
        let whole = self.0 / 10;
        match self.0 % 10 {
            0 => write!(f, "{whole}"),
            tenth => write!(f, "{whole}.{tenth}"),
        }
    }
}
