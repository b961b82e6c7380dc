// The six spans of a start or a session, each the lowest and the highest price, in the order of the live months.
#![tactic(auto)]

ghost use Rattle.std.specs.Prelude.{◌≡◌, ◌≤◌, map, get_or};
ghost use Rattle.dates.specs.Months.{month_count};
ghost use Rattle.layout.specs.Bytes.{place_of};
ghost use Rattle.layout.specs.Spans.{span_in};
ghost use Rattle.spans.specs.Spans.{held_spans, close_pair, close_spans, announced_pair, new_pair, new_spans};

use base::word;
use grid::Close;
use layout::{MONTH, PLACE_LENGTH, PRICE};

// The span of a month among some months' spans; zeros where it is none of them.
fn span_in(months: [u16; 6], spans: [[u16; 2]; 6], month: u16) -> [u16; 2]
    ensures { result ≡ span_in months spans month }
{
    match months.iter().position(|live| month == *live) {
        Some(i) => spans[i],
        None => [0; 2],
    }
}

// What the live months held on the session before, from the months and spans of that session.
pub fn held_spans(before: [u16; 6], spans: [[u16; 2]; 6], months: [u16; 6]) -> [[u16; 2]; 6]
    ensures { result ≡ held_spans before spans months }
{
    let mut held = [[0; 2]; 6];
    for (i, month) in months.iter().enumerate() {
        held[i] = span_in(before, spans, *month);
    }
    held
}

// A span widened by what the close requires; a month that held none has what the close requires.
#[tactic(auto, unfolding(crate::specs::Spans::close_pair))]
fn close_pair(held: [u16; 2], low: u16, high: u16) -> [u16; 2]
    ensures { result ≡ close_pair held low high }
{
    if held[0] == 0 {
        [low, high]
    } else {
        [held[0].min(low), held[1].max(high)]
    }
}

// The spans as the close alone widens them.
pub fn close_spans(months: [u16; 6], held: [[u16; 2]; 6], close: Close) -> [[u16; 2]; 6]
    requires { get_or months 0 0 ≤ month_count }
    ensures { result ≡ close_spans months held close.hundredths }
{
    let mut spans = held;
    for (i, month) in months.iter().enumerate() {
        let tier = calendar::tier_of(months[0], *month);
        let required = grid::required_strikes(tier, close);
        spans[i] = close_pair(held[i], required.low, required.high);
    }
    spans
}

// A span that takes in what waits for the month.
fn with_announced(places: &[[u8; PLACE_LENGTH]], month: u16, span: [u16; 2]) -> [u16; 2]
    ensures { result ≡ announced_pair (map place_of places.now) month span }
{
    let [mut low, mut high] = span;
    for place in places {
        if word(place, MONTH) == month {
            let price = word(place, PRICE);
            low = price.min(low);
            high = price.max(high);
        }
    }
    [low, high]
}

#[tactic(auto, unfolding(crate::specs::Spans::new_pair))]
fn new_pair(places: &[[u8; PLACE_LENGTH]], month: u16, held: [u16; 2], wide: [u16; 2]) -> [u16; 2]
    ensures { result ≡ new_pair (map place_of places.now) month held wide }
{
    if held[0] == 0 {
        wide
    } else {
        with_announced(places, month, wide)
    }
}

// The spans that take in the announcements too.
pub fn new_spans(
    places: &[[u8; PLACE_LENGTH]],
    months: [u16; 6],
    held: [[u16; 2]; 6],
    wide: [[u16; 2]; 6],
) -> [[u16; 2]; 6]
    ensures { result ≡ new_spans (map place_of places.now) months held wide }
{
    let mut spans = wide;
    for (i, month) in months.iter().enumerate() {
        spans[i] = new_pair(places, *month, held[i], wide[i]);
    }
    spans
}
