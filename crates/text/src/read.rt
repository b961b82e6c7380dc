// Reading: numbers, and days, months and closes as people write them.
ghost use Rattle.std.specs.Prelude.{◌≡◌, ◌<◌, ◌∷◌, ◌++◌, IfSome};

// The first year that days and months are counted from, and the one after the last.
pub(crate) const FIRST_YEAR: u32 = 2000;

pub const END_YEAR: u32 = 2100;

fn digit(byte: u8) -> Option<u32>
    ensures { IfSome result (λ digit. digit < 10) }
{
    match byte {
        b'0'..=b'9' => Some(u32::from(byte - b'0')),
        _ => None,
    }
}

// One to nine digits.
pub fn read_number(text: &[u8]) -> Option<u32> {
    if text.is_empty() || 9 < text.len() {
        return None;
    }
    text.iter().try_fold(
        0u32,
        |number, &byte| number.checked_mul(10)?.checked_add(digit(byte)?),
    )
}

// What stands before the first such mark, and what behind it.
pub fn split_once(text: &[u8], mark: u8) -> Option<(&[u8], &[u8])>
    ensures { IfSome result (λ parts. parts.0.now ++ mark ∷ parts.1.now ≡ text.now) }
{
    let at = text.iter().position(|&byte| byte == mark)?;
    Some((&text[..at], &text[at + 1..]))
}

// The month of a year and of its month from 1 to 12.
pub fn month_of(year: u32, month: u32) -> Option<u32> {
    if (FIRST_YEAR..END_YEAR).contains(&year) && (1..=12).contains(&month) {
        Some(12 * (year - FIRST_YEAR) + (month - 1))
    } else {
        None
    }
}

// A month as 2026-12.
fn read_named_month(text: &[u8]) -> Option<u32> {
    if text.len() != 7 || text[4] != b'-' {
        return None;
    }
    month_of(read_number(&text[..4])?, read_number(&text[5..])?)
}

// A month as 2026-12 or as a number.
// Kept: this, `read_day` and `read_close` are `or` of two calls each; a function for the three would be as long as the line it replaces.
pub fn read_month(text: &[u8]) -> Option<u32> {
    read_named_month(text).or(read_number(text))
}

// The day of a month, counted from 1.
pub fn day_of(month: u32, day: u32) -> Option<u32> {
    let first = lookup::first_day(month)?;
    let end = lookup::first_day(month.checked_add(1)?)?;
    let found = first.checked_add(day.checked_sub(1)?)?;
    if found < end { Some(found) } else { None }
}

// A day as 2026-11-16.
fn read_date(text: &[u8]) -> Option<u32> {
    if text.len() != 10 || text[7] != b'-' {
        return None;
    }
    day_of(read_named_month(&text[..7])?, read_number(&text[8..])?)
}

// A day as 2026-11-16 or as a number.
// Kept: as `read_month`.
pub fn read_day(text: &[u8]) -> Option<u32> {
    read_date(text).or(read_number(text))
}

// What stands behind the point, in hundredths: one or two digits.
fn read_hundredths(text: &[u8]) -> Option<u32> {
    let number = read_number(text)?;
    match text.len() {
        1 => number.checked_mul(10),
        2 => Some(number),
        _ => None,
    }
}

// A close in points, with this mark before the hundredths.
fn read_points(text: &[u8], mark: u8) -> Option<u32> {
    let (whole, hundredths) = split_once(text, mark)?;
    let whole = read_number(whole)?;
    let hundredths = read_hundredths(hundredths)?;
    if 10000000 <= whole {
        return None;
    }
    whole.checked_mul(100)?.checked_add(hundredths)
}

// A close as 2413.37, or in hundredths.
pub fn read_close(text: &[u8]) -> Option<u32> {
    read_points(text, b'.').or(read_number(text))
}

// A close as 2413,37, which is not taken: a message shows how to write it.
pub fn read_comma_close(text: &[u8]) -> Option<u32> {
    read_points(text, b',')
}
