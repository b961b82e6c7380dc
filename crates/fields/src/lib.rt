// A file of series: what its fields are made of. The definitions of specs/ say how a file is written and what any bytes read as.
#![tactic(auto)]

ghost use Rattle.std.specs.Prelude.{◌≡◌};
ghost use Rattle.fields.specs.Reading.{contents_of};

use base::Cause;

// The tags: a day, a series.
// Kept: numbers, since a file's bytes hold them; `parsing`, which asks what a field holds, has the enum.
pub const DAY_TAG: u8 = 1;

// Kept: a number, as the day's.
pub const SERIES_TAG: u8 = 2;

// Where a field's content begins, behind tag and length.
pub const CONTENT: usize = 3;

// How many bytes of content a day and a series have: of a series a name and an origin.
pub const DAY_LENGTH: usize = 2;

pub const SERIES_LENGTH: usize = 12;

// How many bytes the field of a day and that of a series have.
pub const DAY_FIELD: usize = 5;

pub const SERIES_FIELD: usize = 15;

// What a file holds: its day, and how many series.
#[derive(Clone, Copy, PartialEq, Eq, Debug)]
pub struct Filed {
    pub day: u32,
    pub series: u32,
}

// What C gets of a file that was read: the cause's number, or 0, the day and the number of series; beside 31 the place in `day`.
// Kept: C has no Result, so a number says what stands beside it.
#[repr(C)]
#[derive(Drop)]
pub struct Contents {
    pub number: u16,
    pub day: u32,
    pub series: u32,
}

impl From<Result<Filed, Cause>> for Contents {
    ghost from_gives = { λ read contents. contents ≡ contents_of read };

    fn from(read: Result<Filed, Cause>) -> Contents {
        match read {
            Ok(filed) => Contents {
                number: 0,
                day: filed.day,
                series: filed.series,
            },
            Err(cause) => Contents {
                number: cause.number(),
                day: cause.beside(),
                series: 0,
            },
        }
    }
}
