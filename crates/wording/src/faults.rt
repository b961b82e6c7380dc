// Cause 31: the place at which bytes are no file of series, what stands there and what belongs there.
use crate::parts::{Bands, LAST_DAY, Neighbours, Refused};
use base::{Cause, Tier};
use fields::{CONTENT, DAY_FIELD, DAY_LENGTH, DAY_TAG, SERIES_FIELD, SERIES_LENGTH, SERIES_TAG};
use names::LENGTH;
use phrases::Byte;
use std::fmt::Display;
use std::{fmt, str};
use text::Date;

// What names begin with.
// Kept: `names` has the same, private there; public it would be a part of that crate for the letter of this message alone.
const PREFIX: [u8; 4] = *b"OW20";

// Where a name has the digits of its price.
const PRICE: usize = 7;

// Where a series has its origin, behind its name.
const ORIGIN: usize = CONTENT + LENGTH;

// The bytes before the content of each field: tag and length.
// Kept: the casts of this file; a constant cannot call `try_from`, and for a place it would need an answer for one that no usize holds.
const DAY_LEAD: [u8; CONTENT] = [DAY_TAG, DAY_LENGTH as u8, 0];

const SERIES_LEAD: [u8; CONTENT] = [SERIES_TAG, SERIES_LENGTH as u8, 0];

// The day's field, or that of a series, counted from 1.
#[derive(Clone, Copy)]
enum Field {
    Day,
    Series(usize),
}

// A place by its field and by where it stands in it. Fields before it are whole.
#[derive(Clone, Copy)]
struct Spot {
    field: Field,
    place: usize,
}

fn spot_of(place: usize) -> Spot {
    let Some(behind) = place.checked_sub(DAY_FIELD) else {
        let field = Field::Day;
        return Spot { field, place };
    };
    Spot {
        field: Field::Series(behind / SERIES_FIELD + 1),
        place: behind % SERIES_FIELD,
    }
}

// Which part of which field it is.
// Kept: the matches over places, here and below; an enum of the parts would be made by this one, and matched again for the texts.
impl Display for Spot {
    fn fmt<W: fmt::Write>(&self, f: &mut fmt::Formatter<W>) -> fmt::Result {
        match self.field {
            Field::Day => f.write_str(match self.place {
                0 => "the day, its tag",
                1 => "the day, the low byte of its length",
                2 => "the day, the high byte of its length",
                _ => "the day, its two bytes",
            }),
            Field::Series(number) => match self.place {
                0 => write!(f, "series {number}, its tag"),
                1 => write!(f, "series {number}, the low byte of its length"),
                2 => write!(f, "series {number}, the high byte of its length"),
                CONTENT..ORIGIN => {
                    let character = self.place - CONTENT + 1;
                    write!(f, "series {number}, character {character} of its name")
                }
                _ => write!(f, "series {number}, its origin"),
            },
        }
    }
}

// What belongs at a place.
#[derive(Clone, Copy)]
struct Due(Spot);

impl Display for Due {
    fn fmt<W: fmt::Write>(&self, f: &mut fmt::Formatter<W>) -> fmt::Result {
        let Spot { field, place } = self.0;
        match (field, place) {
            (Field::Day, 0..CONTENT) => write!(f, "byte {} belongs", DAY_LEAD[place]),
            (Field::Day, _) => f.write_str("they belong"),
            (Field::Series(_), 0..CONTENT) => write!(f, "byte {} belongs", SERIES_LEAD[place]),
            (Field::Series(_), 3..=6) => {
                let due = char::from(PREFIX[place - CONTENT]);
                write!(f, "{due} belongs: names begin with OW20")
            }
            (Field::Series(_), 7) => f.write_str(
                "a letter belongs: A to L for calls of January to December, M to X for puts",
            ),
            (Field::Series(_), 8..=9) => f.write_str("a digit of the year belongs"),
            (Field::Series(_), 10..=13) => f.write_str("a digit of the price belongs"),
            (Field::Series(_), _) => f.write_str("a byte from 1 to 5 belongs"),
        }
    }
}

// A byte that cannot stand there, or none.
fn misplaced<W: fmt::Write>(
    f: &mut fmt::Formatter<W>,
    byte: Option<&u8>,
    spot: Spot,
) -> fmt::Result {
    match byte {
        Some(&byte) => write!(f, "{spot}: byte {} where {}", Byte(byte), Due(spot)),
        None => write!(f, "{spot}: the bytes end where {}", Due(spot)),
    }
}

// A day that is none.
fn past_days<W: fmt::Write>(f: &mut fmt::Formatter<W>, file: &[u8]) -> fmt::Result {
    let Some(day) = file.get(CONTENT..DAY_FIELD) else {
        return Ok(());
    };
    write!(
        f,
        "the day, {}, is past {LAST_DAY}, which is {}, the last one",
        base::word(day, 0),
        Date(LAST_DAY),
    )
}

// The name that begins at a place. Its bytes were judged, so that they are text.
// Kept: a text without letters for no name; an Option would be told as one again, in a refusal that has been begun.
fn name_at(file: &[u8], place: usize) -> &str {
    let rest = file.get(place..).unwrap_or(&[]);
    let name = rest.get(..usize::from(LENGTH)).unwrap_or(&[]);
    str::from_utf8(name).unwrap_or("")
}

fn is_name(text: &str) -> bool {
    names::read(text.as_bytes()).is_ok()
}

// A series whose bytes can all stand.
fn unfit<W: fmt::Write>(
    f: &mut fmt::Formatter<W>,
    file: &[u8],
    place: usize,
    number: usize,
) -> fmt::Result {
    let name = name_at(file, place);
    write!(f, "series {number}, {name}")?;
    if is_name(name) {
        let before = name_at(file, place.saturating_sub(SERIES_FIELD));
        return write!(
            f,
            " is not above {before}, the name before it: names ascend, and each stands once",
        );
    }
    off_grid(f, name)
}

fn off_grid<W: fmt::Write>(f: &mut fmt::Formatter<W>, name: &str) -> fmt::Result {
    let digits = name.as_bytes().get(PRICE..).unwrap_or(&[]);
    let Some(price) = text::read_number(digits) else {
        return Ok(());
    };
    let tier = Tier::N;
    write!(
        f,
        ": its price, {price}, is not on the grid of tier N: {}{}",
        Bands(tier),
        Neighbours { tier, price },
    )
}

// 31: the bytes, and the place that stands beside it.
// Kept: the place; of the causes 31 alone is told here, and any other could come in a Cause, which would be matched for its place.
#[derive(Clone, Copy)]
pub struct FileRefusal<'a> {
    pub file: &'a [u8],
    pub place: u32,
}

impl Display for FileRefusal<'_> {
    fn fmt<W: fmt::Write>(&self, f: &mut fmt::Formatter<W>) -> fmt::Result {
        let file = self.file;
        let place = self.place as usize;
        let refused = Refused(Cause::FileForm(self.place));
        write!(
            f,
            "{refused}the bytes are no file of series: place {place}, counted from 0\n  "
        )?;
        let byte = file.get(place);
        let spot = spot_of(place);
        // A field is judged by all of its content where the first byte of that can stand.
        match spot.field {
            Field::Day if spot.place == CONTENT && byte.is_some() => past_days(f, file)?,
            Field::Series(number) if spot.place == CONTENT && can_begin(byte) => {
                unfit(f, file, place, number)?
            }
            _ => misplaced(f, byte, spot)?,
        }
        f.write_str(
            "\n  get the file again, or make it anew: sindhopul file CALENDAR REGISTER FILE\n",
        )
    }
}

// Whether a name may begin with a byte.
fn can_begin(byte: Option<&u8>) -> bool {
    byte.is_some_and(|&byte| names::can_stand(0, byte))
}
