// What calls are and what they answer. The definitions of specs/ say what each call returns and leaves; the code of the calls
// stands in crates of its own.
#![tactic(auto)]

ghost use Rattle.std.specs.Prelude.{◌≡◌};
ghost use Rattle.calls.specs.Results.{listed_of, told_of, place_of};

use base::Cause;

// The kinds of calls, where a call is named by plain numbers, and how many they are: a number from `KINDS` on is none.
// Kept: `calling` takes any number for a kind and tells which are none, so the numbers have names.
pub const START: u8 = 0;

// Kept: as START.
pub const SESSION: u8 = 1;

// Kept: as START.
pub const ANNOUNCE: u8 = 2;

// Kept: as START.
pub const KINDS: u8 = 3;

// A call that changes a register: day and close, or month and price.
#[derive(Clone, Copy, PartialEq, Eq, Debug)]
pub enum Call {
    Start(u32, u32),
    Session(u32, u32),
    Announce(u32, u32),
}

// What an accepted start or session tells: the rows added, the rows removed and the row count.
#[derive(Clone, Copy, PartialEq, Eq, Debug)]
pub struct Totals {
    pub added: u16,
    pub removed: u16,
    pub rows: u16,
}

// What an accepted call tells: a start or session its totals, an announcement how many wait.
#[derive(Clone, Copy, PartialEq, Eq, Debug)]
pub enum Answer {
    Listed(Totals),
    Announced(u16),
}

// Where a month's rows stand in the register, in bytes.
#[derive(Clone, Copy, PartialEq, Eq, Debug)]
pub struct Part {
    pub at: u16,
    pub size: u16,
}

// What a start or a session answers C: its number, and where that is 0 the rows added, the rows removed and the row count;
// beside 13 the month in `added`.
// Kept: C has no Result, so a number and what stands beside it are one struct.
#[repr(C)]
#[derive(Drop)]
pub struct Listed {
    pub number: u16,
    pub added: u16,
    pub removed: u16,
    pub rows: u16,
}

impl From<Result<Totals, Cause>> for Listed {
    ghost from_gives = { λ given listed. listed ≡ listed_of given };

    fn from(given: Result<Totals, Cause>) -> Listed {
        match given {
            Ok(totals) => Listed {
                number: 0,
                added: totals.added,
                removed: totals.removed,
                rows: totals.rows,
            },
            Err(cause) => Listed {
                number: cause.number(),
                added: cause.month(),
                removed: 0,
                rows: 0,
            },
        }
    }
}

// What an announcement answers C: its number, and where that is 0 how many wait; beside 13 the month.
// Kept: C has no Result, so a number and what stands beside it are one struct.
#[repr(C)]
#[derive(Drop)]
pub struct Told {
    pub number: u16,
    pub value: u16,
}

impl From<Result<u16, Cause>> for Told {
    ghost from_gives = { λ given told. told ≡ told_of given };

    fn from(given: Result<u16, Cause>) -> Told {
        match given {
            Ok(value) => Told { number: 0, value },
            Err(cause) => Told {
                number: cause.number(),
                value: cause.month(),
            },
        }
    }
}

// What the rows call answers C: its number, and where that is 0 the place of the month's rows; a refusal has zeros beside it.
// Kept: C has no Result, so a number and what stands beside it are one struct.
#[repr(C)]
#[derive(Drop)]
pub struct Place {
    pub number: u16,
    pub at: u16,
    pub size: u16,
}

impl From<Result<Part, Cause>> for Place {
    ghost from_gives = { λ given place. place ≡ place_of given };

    fn from(given: Result<Part, Cause>) -> Place {
        match given {
            Ok(part) => Place {
                number: 0,
                at: part.at,
                size: part.size,
            },
            Err(cause) => Place {
                number: cause.number(),
                at: 0,
                size: 0,
            },
        }
    }
}
