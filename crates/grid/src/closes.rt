// The closes that are taken. A file of its own: what tells which numbers are read as a close speaks of the struct.
ghost use Rattle.std.specs.Prelude.{◌≤◌};
ghost use Rattle.grid.specs.Grid.{lowest_close, highest_close};

// In hundredths of a point; any other is cause 21.
pub const LOWEST_CLOSE: u32 = 9000;

pub const HIGHEST_CLOSE: u32 = 954999;

// A close that is taken.
#[derive(Clone, Copy, PartialEq, Eq, Debug)]
pub struct Close {
    pub hundredths: u32,
    ghost lowest: { lowest_close ≤ hundredths },
    ghost highest: { hundredths ≤ highest_close },
}
