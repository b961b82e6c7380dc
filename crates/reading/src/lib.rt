// What stands in a register's bytes: total questions over any bytes. What is missing of them is read as zeros, so that there
// are no rows where they end early. No other crate of the console knows where a register has what.
//
// `refusal` alone looks whether the register stands. What is told of live months and of their rows is so where it does.
#![tactic(auto)]

ghost use Rattle.std.specs.Prelude.{◌≡◌, ◌≤◌, eqb, get_or};
ghost use Rattle.dates.specs.Months.{month_count};

mod places;

use base::{Cause, Tier};
use dates::MONTHS;
use layout::{COUNT, DAY, MONTH, PLACE_LENGTH, PLACES, ROW_LENGTH, ROWS, SPARE, STATUS, WAITING};
pub use places::{Announcement, Announcements, PAST_PRICES, Records, Row, Rows, Span};

// A register under its calendar.
#[derive(Clone, Copy)]
pub struct Register<'a> {
    pub calendar: &'a [u8],
    pub bytes: &'a [u8],
}

// What a byte of a register belongs to.
#[derive(Clone, Copy, PartialEq, Eq, Debug)]
pub enum Part {
    // The status, the day, the two counts, or a byte that nothing uses.
    Other,
    // The announcement or the row of a number, counted from 0.
    Announcement(usize),
    Row(usize),
}

pub fn part_at(place: usize) -> Part {
    if place < PLACES {
        return Part::Other;
    }
    if place < ROWS {
        return Part::Announcement((place - PLACES) / PLACE_LENGTH);
    }
    let place = place - ROWS;
    if place % ROW_LENGTH == SPARE {
        Part::Other
    } else {
        Part::Row(place / ROW_LENGTH)
    }
}

impl<'a> Register<'a> {
    // Kept: zeros for what is missing, here, in `word` and in `row`: each question would pass an Option on, for callers to say zero to.
    fn byte(self, at: usize) -> u8
        ensures { result ≡ get_or self.entry.bytes.now at 0 }
    {
        self.bytes.get(at).copied().unwrap_or(0)
    }

    fn word(self, at: usize) -> u16 {
        match self.bytes.get(at..) {
            Some([low, high, ..]) => u16::from_le_bytes([*low, *high]),
            _ => 0,
        }
    }

    // Causes 11 to 15 and 17 of any call on the register.
    pub fn refusal(self) -> Result<(), Cause> {
        rows::rows_number(self.calendar, self.bytes, self.first_live())
    }

    // 0 empty, 1 running.
    // Kept: the byte itself, since an audit tells each that a damaged register may have there.
    pub fn status(self) -> u8 {
        self.byte(STATUS)
    }

    // Whether it lists nothing yet.
    pub fn is_empty(self) -> bool
        ensures { result ≡ eqb (get_or self.entry.bytes.now 0 0) 0 }
    {
        self.byte(STATUS) == 0
    }

    // How many announcements wait.
    // Kept: `day`, `waiting` and `row_count` are each one call of `byte` or `word`, which have what they share.
    pub fn waiting(self) -> u32 {
        u32::from(self.byte(WAITING))
    }

    // The day of the last start or session.
    // Kept: as `waiting`.
    pub fn day(self) -> u32 {
        u32::from(self.word(DAY))
    }

    // Kept: as `waiting`.
    pub fn row_count(self) -> u32 {
        u32::from(self.word(COUNT))
    }

    // The first session after the register's day; none where that is no day of the calendar.
    pub fn next_session(self) -> Option<u32> {
        lookup::next_session(self.calendar, self.day())
    }

    // The first live month, whose rows stand first; the one behind the last month where the bytes name a later one.
    pub fn first_live(self) -> u32 {
        u32::from(self.first_month())
    }

    fn first_month(self) -> u16
        ensures { result ≤ month_count }
    {
        self.word(ROWS + MONTH).min(MONTHS)
    }

    pub fn live_months(self) -> [u32; 6] {
        calendar::live_months(self.first_month()).map(u32::from)
    }

    pub fn tier(self, month: u32) -> Tier {
        let month = u16::try_from(month).unwrap_or(u16::MAX);
        calendar::tier_of(self.first_month(), month)
    }

    // The tier that a month has on the next session day.
    pub fn next_tier(self, month: u32) -> Option<Tier> {
        let first = lookup::first_live(self.calendar, self.next_session()?)?;
        lookup::tier_of(first, month)
    }

    // The announcements that wait, in the order in which they were received.
    pub fn announcements(self) -> Announcements<'a> {
        let (places, _) = self.bytes.get(PLACES..).unwrap_or(&[]).as_chunks();
        Records::at(places.get(..usize::from(self.byte(WAITING))).unwrap_or(&[]))
    }

    // The places of rows, used or not.
    pub fn row_places(self) -> &'a [[u8; ROW_LENGTH]] {
        let (places, _) = self.bytes.get(ROWS..).unwrap_or(&[]).as_chunks();
        places
    }

    // The rows of all months.
    pub fn rows(self) -> Rows<'a> {
        let count = usize::from(self.word(COUNT));
        Records::at(self.row_places().get(..count).unwrap_or(&[]))
    }

    // The row of a number, counted from 0; none from the row count on.
    pub fn row(self, number: usize) -> Option<Row> {
        if usize::from(self.word(COUNT)) <= number {
            return None;
        }
        let place = self.row_places().get(number).copied();
        Some(Row::from(place.unwrap_or([0; ROW_LENGTH])))
    }

    // A month's rows; none where it is not live.
    // Kept: an Option would make two answers for no rows, and those who go over them would make it an empty list again.
    pub fn rows_of(self, month: u32) -> Rows<'a> {
        self.rows().of(month)
    }
}
