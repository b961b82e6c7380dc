// The register's bytes: where its parts stand and how long they are. The definitions of specs/ are the register itself: rows, a
// running register, its bytes written and read, when it is well formed.
#![tactic(auto)]

ghost use Rattle.std.specs.Prelude.{◌≡◌, ◌+◌, ◌*◌, ◌<◌, ◌≤◌, length, drop};
ghost use Rattle.std.specs.Simd.{first_chunks};
ghost use Rattle.layout.specs.Bytes.{places_from, rows_from, all_zero};
ghost use Rattle.layout.specs.Origins.{origin_code, OriginOf};

use std::fmt;
use std::fmt::Display;

// The register's length in bytes.
pub const REGISTER_LENGTH: usize = 11264;

// How many announcements may wait, and how many rows may stand.
pub const MOST_WAITING: usize = 32;

pub const MOST_ROWS: usize = 1391;

// Where the head has its status, the number of announcements waiting, its day and its row count, and two bytes that are zero.
pub const STATUS: usize = 0;

pub const WAITING: usize = 1;

pub const DAY: usize = 2;

pub const COUNT: usize = 4;

pub const UNUSED: usize = 6;

// Where the announcements and the rows begin, and how many bytes the place of one takes.
pub const PLACES: usize = 8;

pub const PLACE_LENGTH: usize = 4;

pub const ROWS: usize = 136;

pub const ROW_LENGTH: usize = 8;

// Where an announcement or a row has its month and its price, and a row its first day, its origin and a byte that is zero.
pub const MONTH: usize = 0;

pub const PRICE: usize = 2;

pub const FIRST_DAY: usize = 4;

pub const ORIGIN: usize = 6;

pub const SPARE: usize = 7;

// Why a row was added.
#[derive(Clone, Copy, PartialEq, Eq, Debug)]
pub enum Origin {
    // Its month became live.
    Live,
    // It lies within the span of the session before.
    Within,
    // The close brought it in.
    Close,
    // It was announced.
    Announced,
    // It was listed at the start.
    Start,
}

impl Origin {
    // The byte that a row has for it.
    pub fn code(self) -> u8
        ensures { result ≡ origin_code self }
    {
        match self {
            Origin::Live => 1,
            Origin::Within => 2,
            Origin::Close => 3,
            Origin::Announced => 4,
            Origin::Start => 5,
        }
    }
}

// A byte that no origin has.
#[derive(Clone, Copy, PartialEq, Eq, Debug)]
pub struct NoOrigin;

impl TryFrom<u8> for Origin {
    type Error = NoOrigin;

    ghost try_from_gives = { OriginOf };

    // Kept: a number is matched, since here it becomes an origin.
    fn try_from(byte: u8) -> Result<Origin, NoOrigin> {
        match byte {
            1 => Ok(Origin::Live),
            2 => Ok(Origin::Within),
            3 => Ok(Origin::Close),
            4 => Ok(Origin::Announced),
            5 => Ok(Origin::Start),
            _ => Err(NoOrigin),
        }
    }
}

impl Display for Origin {
    fn fmt<W: fmt::Write>(&self, f: &mut fmt::Formatter<W>) -> fmt::Result {
        f.write_str(match self {
            Origin::Live => "its month became live",
            Origin::Within => "within the span before",
            Origin::Close => "brought in by the close",
            Origin::Announced => "announced",
            Origin::Start => "listed at the start",
        })
    }
}

// Whether all bytes are zero. The greatest byte tells: a fold does not leave early, so the compiler vectorises it.
pub fn is_zero(bytes: &[u8]) -> bool
    ensures { result ≡ all_zero bytes.now }
{
    bytes
        .iter()
        .fold(0, |greatest: u8, byte| greatest.max(*byte))
        == 0
}

// Pieces of N bytes of a register, as many as are asked for, that stand side by side from a byte on.
fn pieces<const N: usize>(register: &[u8], from: usize, count: usize) -> &[[u8; N]]
    requires { (0 < N) × (from + N * count ≤ length register.now) }
    ensures bytes { result.now ≡ first_chunks N count (drop from register.now) }
    ensures count { length result.now ≡ count }
{
    let end = from + N * count;
    let (pieces, _) = register[from..end].as_chunks();
    pieces
}

// The rows of a register, as many as are asked for.
pub fn rows(register: &[u8], count: usize) -> &[[u8; ROW_LENGTH]]
    requires { rows_from + 8 * count ≤ length register.now }
    ensures bytes { result.now ≡ first_chunks 8 count (drop rows_from register.now) }
    ensures count { length result.now ≡ count }
{
    pieces(register, ROWS, count)
}

// The announcements that wait in a register, as many as are asked for.
pub fn places(register: &[u8], count: usize) -> &[[u8; PLACE_LENGTH]]
    requires { places_from + 4 * count ≤ length register.now }
    ensures bytes { result.now ≡ first_chunks 4 count (drop places_from register.now) }
    ensures count { length result.now ≡ count }
{
    pieces(register, PLACES, count)
}
