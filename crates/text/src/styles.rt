// Days and months in styles that are not taken, so that a message can show how to write them: other marks than -, the year at
// the end, or digits alone.
use crate::read::{day_of, month_of, read_number, split_once};

// A number below this is no year.
const LEAST_YEAR: u32 = 1000;

// The marks that may stand between the numbers of a word.
const MARKS: [u8; 3] = *b"./-";

// The month of a year and a month, whichever comes first.
fn month_either_way(first: &[u8], last: &[u8]) -> Option<u32> {
    let first = read_number(first)?;
    let last = read_number(last)?;
    if first < LEAST_YEAR {
        month_of(last, first)
    } else {
        month_of(first, last)
    }
}

fn day_in(year: &[u8], month: &[u8], day: &[u8]) -> Option<u32> {
    day_of(month_either_way(year, month)?, read_number(day)?)
}

// The day of a year, a month and a day of it, or of the three in the other order.
fn day_either_way(first: &[u8], month: &[u8], last: &[u8]) -> Option<u32> {
    if read_number(first)? < LEAST_YEAR {
        day_in(last, month, first)
    } else {
        day_in(first, month, last)
    }
}

// The mark between the numbers of a word, the point before the stroke before the dash.
fn mark_of(text: &[u8]) -> Option<u8> {
    MARKS.iter().copied().find(|mark| text.contains(mark))
}

// A day as 20261222.
fn read_digits_day(text: &[u8]) -> Option<u32> {
    if text.len() != 8 {
        return None;
    }
    day_in(&text[..4], &text[4..6], &text[6..])
}

// A month as 202612.
fn read_digits_month(text: &[u8]) -> Option<u32> {
    if text.len() != 6 {
        return None;
    }
    month_either_way(&text[..4], &text[4..])
}

// A day as 20261222, 22.12.2026, 2026.12.22, or with / or - in place of the points.
pub fn read_styled_day(text: &[u8]) -> Option<u32> {
    let Some(mark) = mark_of(text) else {
        return read_digits_day(text);
    };
    let (first, rest) = split_once(text, mark)?;
    let (month, last) = split_once(rest, mark)?;
    day_either_way(first, month, last)
}

// A month as 202612, 12.2026, 2026.12, or with / or - in place of the point.
pub fn read_styled_month(text: &[u8]) -> Option<u32> {
    let Some(mark) = mark_of(text) else {
        return read_digits_month(text);
    };
    let (first, last) = split_once(text, mark)?;
    month_either_way(first, last)
}
