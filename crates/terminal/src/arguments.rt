// The program's words: days, closes, months, prices, and the files that they name.
ghost use Rattle.std.specs.Prelude.{◌≡◌, Some, IfOk};

use files::Trouble;
use std::fmt;
use std::fmt::Display;
use system::{PATH_MAX, System};
use text::{Date, Month, Points, Text};

// What a number is read as.
#[derive(Clone, Copy, PartialEq, Eq, Debug)]
pub enum Meaning {
    Day,
    Close,
    Month,
    Price,
}

impl Display for Meaning {
    fn fmt<W: fmt::Write>(&self, f: &mut fmt::Formatter<W>) -> fmt::Result {
        f.write_str(match self {
            Meaning::Day => "day",
            Meaning::Close => "close",
            Meaning::Month => "month",
            Meaning::Price => "price",
        })
    }
}

// The numbers of days and months have at most so many digits.
const DIGITS: usize = 5;

// Whether a word without a dash is longer than the number of a day or a month.
fn is_long(word: &[u8]) -> bool {
    DIGITS < word.len() && !word.contains(&b'-')
}

impl Meaning {
    fn read(self, word: &[u8]) -> Option<u32> {
        match self {
            Meaning::Day | Meaning::Month if is_long(word) => None,
            Meaning::Day => text::read_day(word),
            Meaning::Close => text::read_close(word),
            Meaning::Month => text::read_month(word),
            Meaning::Price => text::read_number(word),
        }
    }
}

// How a word is written that was meant by this one, which may be in a style that is not taken.
#[derive(Clone, Copy)]
struct Advice<'a> {
    meaning: Meaning,
    word: &'a [u8],
}

impl<'a> Display for Advice<'a> {
    fn fmt<W: fmt::Write>(&self, f: &mut fmt::Formatter<W>) -> fmt::Result {
        match self.meaning {
            Meaning::Day => match text::read_styled_day(self.word) {
                Some(day) => write!(f, "write {}", Date(day)),
                None => f.write_str("written as 2026-11-16, or as the day's number"),
            },
            Meaning::Close => match text::read_comma_close(self.word) {
                Some(close) => write!(f, "write {}", Points(close)),
                None => f.write_str("written as 2413.37, or as 241337 in hundredths"),
            },
            Meaning::Month => match text::read_styled_month(self.word) {
                Some(month) => write!(f, "write {}", Month(month)),
                None => f.write_str("written as 2026-12, or as the month's number"),
            },
            Meaning::Price => f.write_str("written in whole index points, as 2400"),
        }
    }
}

// Room for a word and what is said of it.
const SUBJECT: usize = 4200;

// Says that a word is no such number, and how to write one.
fn complain(system: &System, meaning: Meaning, word: &[u8]) -> Trouble {
    let mut subject = Text::<SUBJECT>::new();
    subject.put(word);
    subject.say(format_args!(" is no {meaning}"));
    files::complain(system, subject.as_bytes(), Advice { meaning, word })
}

// Word i as a number; one that is none is complained of.
pub fn number(system: &System, i: usize, meaning: Meaning) -> Result<u32, Trouble> {
    let word = commands::word(system, i);
    meaning
        .read(word.as_bytes())
        .ok_or_else(|| complain(system, meaning, word.as_bytes()))
}

// Whether word i has a point, as a close in points has.
pub fn has_point(system: &System, i: usize) -> bool {
    commands::word(system, i).as_bytes().contains(&b'.')
}

fn complain_missing(system: &System, path: &[u8]) -> Trouble {
    files::complain(system, path, "there is no such file")
}

// Looks at the length of a file that was loaded, where it is there: it is to be the one that is wanted.
pub fn whole(
    system: &System,
    path: &[u8],
    wanted: usize,
    found: Option<usize>,
) -> Result<(), Trouble>
    ensures { IfOk result (λ _. found ≡ Some wanted) }
{
    match found {
        Some(n) if n == wanted => Ok(()),
        Some(n) => Err(files::complain(
            system,
            path,
            format_args!(
                "the file has {n} bytes and should have {wanted}: if it was damaged, move it away and make it again"
            ),
        )),
        None => Err(complain_missing(system, path)),
    }
}

// Fills the buffer from the file that word i names.
// Kept: no part is answered, since a file that does not fill the buffer is trouble.
pub fn file(system: &System, i: usize, buffer: &mut [u8]) -> Result<(), Trouble> {
    let path = commands::word(system, i);
    let found = files::load(system, path.as_bytes(), buffer)?.map(|file| file.len());
    whole(system, path.as_bytes(), buffer.len(), found)
}

// The text in the file that word i names, read into the buffer.
pub fn text<'a>(system: &System, i: usize, buffer: &'a mut [u8]) -> Result<&'a [u8], Trouble> {
    let path = commands::word(system, i);
    files::load_text(system, path.as_bytes(), buffer)?.ok_or_else(|| complain_missing(
        system,
        path.as_bytes(),
    ))
}

// Replaces the file that word i names by these bytes.
pub fn replace(system: &System, i: usize, bytes: &[u8]) -> Result<(), Trouble> {
    files::replace(system, commands::word(system, i).as_bytes(), bytes)
}

// The name of the file that word i leads to.
pub fn followed(system: &System, i: usize) -> Result<Text<PATH_MAX>, Trouble> {
    files::follow(system, commands::word(system, i).as_bytes())
}

// Fills a register from its file. One that is missing is empty.
pub fn register_or_none(system: &System, path: &[u8], register: &mut [u8]) -> Result<(), Trouble> {
    match files::load(system, path, register)?.map(|file| file.len()) {
        None => Ok(()),
        found => whole(system, path, register.len(), found),
    }
}
