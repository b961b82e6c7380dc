// Reading a journal into a list of calls.
ghost use Rattle.std.specs.Prelude.{◌≤◌, IfOk, length};

use calls::Call;
use lines::{Numbered, Words};
use std::error::Error;
use std::fmt;
use std::fmt::Display;

// Why a line is refused.
#[derive(Clone, Copy, PartialEq, Eq, Debug)]
pub enum Reason {
    // Neither start nor session nor announce.
    NotCall,
    Day,
    Close,
    Month,
    Price,
    // Something else than `=` and a number behind the call.
    Number,
    // More calls than the list holds.
    Full,
}

impl Display for Reason {
    fn fmt<W: fmt::Write>(&self, f: &mut fmt::Formatter<W>) -> fmt::Result {
        f.write_str(match self {
            Reason::NotCall => "not a call: start, session or announce",
            Reason::Day => "the day: write 2026-11-16, or its number",
            Reason::Close => "the close: write 2413.37, or in hundredths",
            Reason::Month => "the month: write 2026-12, or its number",
            Reason::Price => "the price: write whole points",
            Reason::Number => "behind the call: write nothing, or = and a number",
            Reason::Full => "one call more than fits",
        })
    }
}

impl Error for Reason {}

pub type Refused<'a> = lines::Refused<'a, Reason>;

// Whether a call has this name.
pub fn is_name(word: &[u8]) -> bool {
    matches!(word, b"start" | b"session" | b"announce")
}

// The next argument as it is read, or why there is none.
fn argument<R: FnOnce(&[u8]) -> Option<u32>>(
    words: &mut Words<'_>,
    read: R,
    why: Reason,
) -> Result<u32, Reason>
    requires { R.IsAlwaysCallable read }
{
    words.next().and_then(read).ok_or(why)
}

// The arguments of a start or a session.
fn day_and_close(words: &mut Words<'_>) -> Result<(u32, u32), Reason> {
    let day = argument(words, text::read_day, Reason::Day)?;
    Ok((day, argument(words, text::read_close, Reason::Close)?))
}

// Whether behind the arguments stands nothing, or `=` and perhaps a number. The words behind the number are not read here.
fn is_told(words: &mut Words<'_>) -> bool {
    match words.next() {
        None => true,
        Some(b"=") => match words.next() {
            None => true,
            Some(number) => text::read_number(number).is_some(),
        },
        Some(_) => false,
    }
}

// The call of a line without its line feed; none where it says nothing.
pub fn call_in(line: &[u8]) -> Result<Option<Call>, Reason> {
    let mut words = Words::of(lines::content(line));
    let call = match words.next() {
        None => return Ok(None),
        Some(b"start") => {
            let (day, close) = day_and_close(&mut words)?;
            Call::Start(day, close)
        }
        Some(b"session") => {
            let (day, close) = day_and_close(&mut words)?;
            Call::Session(day, close)
        }
        Some(b"announce") => {
            let month = argument(&mut words, text::read_month, Reason::Month)?;
            let price = argument(&mut words, text::read_number, Reason::Price)?;
            Call::Announce(month, price)
        }
        Some(_) => return Err(Reason::NotCall),
    };
    if is_told(&mut words) {
        Ok(Some(call))
    } else {
        Err(Reason::Number)
    }
}

// Kept: list and count stand apart here and in `read`: the slice of the calls taken would keep the list lent, which the next line writes into.
// Takes a line's call behind the `count` that are taken, and answers how many there are then.
fn take(line: &[u8], calls: &mut [Call], count: usize) -> Result<usize, Reason>
    requires { count ≤ length calls.old }
    ensures { IfOk result (λ n. n ≤ length calls.new) }
{
    let Some(call) = call_in(line)? else {
        return Ok(count);
    };
    let Some(place) = calls.get_mut(count) else {
        return Err(Reason::Full);
    };
    *place = call;
    Ok(count + 1)
}

// Reads the lines of a journal that end in a line feed, and answers how many calls they have. An entry point: it takes any
// bytes.
pub fn read<'a>(text: &'a [u8], calls: &mut [Call]) -> Result<usize, Refused<'a>>
    ensures { IfOk result (λ n. n ≤ length calls.new) }
{
    let mut count = 0;
    for (number, line) in Numbered::of(text) {
        count = take(line, calls, count).map_err(|reason| Refused {
            number,
            line,
            reason,
        })?;
    }
    Ok(count)
}
