// The six live months of a day. A file of its own: what tells which months are read as the first speaks of the struct.
ghost use Rattle.std.specs.Prelude.{◌≤◌};
ghost use Rattle.rules.specs.Rules.{last_first_month};

// The last month that may be the first live one: March 2099.
pub const LAST_FIRST_MONTH: u16 = 1190;

// The six live months, by the first, which is March 2099 at the latest.
#[derive(Clone, Copy, PartialEq, Eq, Debug)]
pub struct LiveMonths {
    pub first: u16,
    ghost latest: { first ≤ last_first_month },
}
