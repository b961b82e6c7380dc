// Series names: the 11 bytes of a series, written and read.
#![tactic(auto)]

ghost use Rattle.std.specs.Prelude.{◌≡◌, true, [], ◌∷◌, ◌+◌, ◌%◌, ◌≤◌, length};
ghost use Rattle.base.specs.Search.{first_in, found_in};
ghost use Rattle.base.specs.Lists.{within};
ghost use Rattle.base.specs.Numbers.{number_in};
ghost use Rattle.names.specs.Kinds.{kind_number, KindOf};
ghost use Rattle.names.specs.Names.{name_length, name_of, no_series, write_cause, written, value_from, can_stand, misplaced, month_read, kind_read, price_read, series_of, read_of};

use base::{Cause, Tier};

// How many bytes a name has.
pub const LENGTH: usize = 11;

const PREFIX: [u8; 4] = *b"OW20";

// What a series is an option of.
#[derive(Clone, Copy, PartialEq, Eq, Debug)]
pub enum Kind {
    Call,
    Put,
}

impl Kind {
    // 0 a call, 1 a put.
    pub fn number(self) -> u16
        ensures { result ≡ kind_number self }
    {
        match self {
            Kind::Call => 0,
            Kind::Put => 1,
        }
    }
}

// A number above 1 is the type of no series.
impl TryFrom<u32> for Kind {
    type Error = Cause;

    ghost try_from_gives = { KindOf };

    // Kept: a number is matched, since here it becomes a type.
    fn try_from(number: u32) -> Result<Kind, Cause> {
        match number {
            0 => Ok(Kind::Call),
            1 => Ok(Kind::Put),
            _ => Err(Cause::NameSeries),
        }
    }
}

// The series that a name names.
#[derive(Clone, Copy, PartialEq, Eq, Debug)]
pub struct Named {
    pub month: u16,
    pub kind: Kind,
    pub price: u16,
}

// What C gets of a name that was read: the cause's number, or 0, and the series; beside 29 the place in `month`.
// Kept: C has no Result, so a number says what stands beside it.
#[repr(C)]
#[derive(Drop)]
pub struct Series {
    pub number: u16,
    pub month: u16,
    pub kind: u16,
    pub price: u16,
}

impl From<Result<Named, Cause>> for Series {
    ghost from_gives = { λ read series. series ≡ series_of read };

    fn from(read: Result<Named, Cause>) -> Series {
        match read {
            Ok(named) => Series {
                number: 0,
                month: named.month,
                kind: named.kind.number(),
                price: named.price,
            },
            Err(cause) => Series {
                number: cause.number(),
                // Kept: no `cause.beside()`, which tells a calendar's month and a file's place too, where `Series` has 0.
                month: match cause {
                    Cause::NameByte(place) => place,
                    _ => 0,
                },
                kind: 0,
                price: 0,
            },
        }
    }
}

// Whether no series has this month and price: the month above 1,199, or the price not on grid N.
fn no_series(month: u32, kind: Kind, price: u32) -> bool
    ensures { result ≡ no_series month (kind_number kind) price }
{
    month >= u32::from(dates::MONTHS) || !grid::on_grid(Tier::N, price)
}

// The last decimal digit of a number, in ASCII.
// Kept: `digit` and `pair`, since `char::from_digit` and `to_digit` are of chars, not of bytes, and give an Option that no digit needs.
// Kept: the casts of this file. The check proves that they lose nothing; `try_from(..).unwrap()` would need the same proof and says it in more words.
fn digit(number: u32) -> u8
    ensures { result ≡ 48 + number % 10 }
{
    b'0' + (number % 10) as u8
}

// Puts a name into a buffer of its length.
pub fn put(name: &mut [u8], month: u32, kind: Kind, price: u32)
    requires { length name.old ≡ name_length }
    ensures { name.new ≡ name_of month (kind_number kind) price }
{
    let year = month / 12;
    name[..PREFIX.len()].copy_from_slice(&PREFIX);
    name[PREFIX.len()..].copy_from_slice(&[
        b'A' + (12 * u32::from(kind.number()) + month % 12) as u8,
        digit(year / 10),
        digit(year),
        digit(price / 1000),
        digit(price / 100),
        digit(price / 10),
        digit(price),
    ]);
}

// Writes the name of a series; a refusal leaves the buffer as it was.
// Kept: `kind` is a number, since C gives one, and a narrower type asks more of callers.
pub fn write(name: &mut [u8], month: u32, kind: u32, price: u32) -> Result<(), Cause>
    ensures value { number_in result ≡ write_cause name.old month kind price }
    ensures name_after { name.new ≡ written name.old month kind price }
{
    if name.len() != LENGTH {
        return Err(Cause::NameLength);
    }
    let kind = Kind::try_from(kind)?;
    if no_series(month, kind, price) {
        return Err(Cause::NameSeries);
    }
    put(name, month, kind, price);
    Ok(())
}

// The prefix, a letter from A to X, six digits.
// Kept: an enum of the three parts would be made from the place by these same ranges, and then be matched again.
pub fn can_stand(place: usize, byte: u8) -> bool
    ensures { result ≡ can_stand place byte }
{
    match place {
        0..=3 => byte == PREFIX[place],
        4 => (b'A'..=b'X').contains(&byte),
        _ => byte.is_ascii_digit(),
    }
}

// The first place whose byte cannot stand there.
fn first_misplaced(name: &[u8; LENGTH]) -> Option<usize>
    ensures { result ≡ found_in (misplaced name.now) 0 name_length }
{
    for (place, byte) in name.iter().enumerate() {
        if !can_stand(place, *byte) {
            return Some(place);
        }
    }
    None
}

// The value of two decimal digits.
fn pair(tens: u8, ones: u8) -> u16
    requires { (within 48 57 tens ≡ true) × (within 48 57 ones ≡ true) }
    ensures { (result ≡ value_from 0 (tens ∷ ones ∷ [])) × (result ≤ 99) }
{
    10 * u16::from(tens - b'0') + u16::from(ones - b'0')
}

// How many letters calls have, A to L; puts have those behind them.
const CALLS: u16 = 12;

// The series of which a name's bytes tell, where each can stand.
fn told(name: &[u8; LENGTH]) -> Named
    requires { name_length ≤ first_in (misplaced name.now) 0 name_length }
    ensures { (result.month ≡ month_read name.now) × (kind_number result.kind ≡ kind_read name.now) × (result.price ≡ price_read name.now) }
{
    let letter = u16::from(name[4] - b'A');
    Named {
        month: 12 * pair(name[5], name[6]) + letter % 12,
        kind: if letter < CALLS {
            Kind::Call
        } else {
            Kind::Put
        },
        price: 100 * pair(name[7], name[8]) + pair(name[9], name[10]),
    }
}

// Reads a name of any bytes and any length.
pub fn read(name: &[u8]) -> Result<Named, Cause>
    ensures { series_of result ≡ read_of name.now }
{
    let Ok(name) = <&[u8; LENGTH]>::try_from(name) else {
        return Err(Cause::NameLength);
    };
    if let Some(place) = first_misplaced(name) {
        return Err(Cause::NameByte(place as u16));
    }
    let named = told(name);
    if no_series(u32::from(named.month), named.kind, u32::from(named.price)) {
        return Err(Cause::NameSeries);
    }
    Ok(named)
}
