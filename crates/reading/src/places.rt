// Announcements and rows: records that stand one behind the other in places of one length.
ghost use Rattle.std.specs.Prelude.{◌≡◌, ◌≤◌, ◌↔◌, IsTrue, length, min, max};
ghost use Rattle.std.specs.Iterator.{at_most};

use base::word;
use layout::{FIRST_DAY, MONTH, ORIGIN, PLACE_LENGTH, PRICE, ROW_LENGTH};
use std::fmt;
use std::fmt::Display;
use std::marker::PhantomData;

#[derive(Clone, Copy, PartialEq, Eq, Debug)]
pub struct Announcement {
    pub month: u32,
    pub price: u32,
}

impl From<[u8; PLACE_LENGTH]> for Announcement {
    fn from(place: [u8; PLACE_LENGTH]) -> Self {
        Announcement {
            month: u32::from(word(&place, MONTH)),
            price: u32::from(word(&place, PRICE)),
        }
    }
}

#[derive(Clone, Copy, PartialEq, Eq, Debug)]
pub struct Row {
    pub month: u32,
    pub price: u32,
    pub first: u32,
    pub origin: u8,
}

impl From<[u8; ROW_LENGTH]> for Row {
    fn from(place: [u8; ROW_LENGTH]) -> Self {
        Row {
            month: u32::from(word(&place, MONTH)),
            price: u32::from(word(&place, PRICE)),
            first: u32::from(word(&place, FIRST_DAY)),
            origin: place[ORIGIN],
        }
    }
}

// No price is as high as this: a name has four digits for it.
pub const PAST_PRICES: u32 = 10000;

// The lowest and the highest price of a ladder.
#[derive(Clone, Copy, PartialEq, Eq, Debug)]
pub struct Span {
    pub low: u32,
    pub high: u32,
}

impl Span {
    pub fn contains(self, price: u32) -> bool
        ensures { IsTrue result ↔ (self.low ≤ price) × (price ≤ self.high) }
    {
        (self.low..=self.high).contains(&price)
    }

    // The span that also takes in another.
    pub fn joined(self, other: Span) -> Span
        ensures low { result.low ≡ min self.low other.low }
        ensures high { result.high ≡ max self.high other.high }
    {
        Span {
            low: self.low.min(other.low),
            high: self.high.max(other.high),
        }
    }
}

impl Display for Span {
    fn fmt<W: fmt::Write>(&self, f: &mut fmt::Formatter<W>) -> fmt::Result {
        write!(f, "{} to {}", self.low, self.high)
    }
}

// The records of some places. Going through a copy leaves the others where they are.
#[derive(Clone, Copy)]
pub struct Records<'a, T, const N: usize> {
    places: &'a [[u8; N]],
    read_as: PhantomData<T>,
}

pub type Announcements<'a> = Records<'a, Announcement, PLACE_LENGTH>;

pub type Rows<'a> = Records<'a, Row, ROW_LENGTH>;

impl<'a, T, const N: usize> Records<'a, T, N> {
    pub(crate) fn at(places: &'a [[u8; N]]) -> Self {
        Records {
            places,
            read_as: PhantomData,
        }
    }
}

impl<'a, T: From<[u8; N]>, const N: usize> Iterator for Records<'a, T, N> {
    type Item = T;

    ghost remaining = { λ s. at_most (length s.places.now) };

    fn next(&mut self) -> Option<T> {
        let (place, rest) = self.places.split_first()?;
        self.places = rest;
        Some(T::from(*place))
    }
}

impl<'a> Records<'a, Row, ROW_LENGTH> {
    // How many rows there are.
    pub fn number(self) -> u32 {
        text::narrowed(self.places.len())
    }

    pub fn is_empty(self) -> bool {
        self.places.is_empty()
    }

    // The rows of a month: they ascend by it.
    pub(crate) fn of(self, month: u32) -> Self {
        let start = self.number_before(month);
        let end = self.number_before(month.saturating_add(1));
        Records::at(self.places.get(start..end).unwrap_or(&[]))
    }

    // How many rows stand before those of a month.
    // Kept: searched from the start; a damaged register's rows need not ascend, and `partition_point` would tell others of them.
    fn number_before(self, month: u32) -> usize {
        let mut rows = self;
        let behind = rows.position(|row| month <= row.month);
        behind.unwrap_or(self.places.len())
    }

    // From the price of the first to that of the last; the rows of a month ascend.
    pub fn span(self) -> Option<Span> {
        let first = self.places.first()?;
        let last = self.places.last()?;
        Some(Span {
            low: Row::from(*first).price,
            high: Row::from(*last).price,
        })
    }

    // How many rows have a day as their first day.
    pub fn listed_on(self, day: u32) -> u32 {
        text::narrowed(self.filter(|row| row.first == day).count())
    }
}
