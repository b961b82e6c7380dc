// A file of series, read.
#![tactic(auto)]

ghost use Rattle.std.specs.Prelude.{◌≡◌, false, not, ◌&&◌, ◌++◌, ◌+◌, ◌*◌, ◌%◌, ◌≤◌, ◌<◌, leb, length, drop};
ghost use Rattle.base.specs.Search.{first_in, found_in, some_in};
ghost use Rattle.base.specs.Lists.{elem};
ghost use Rattle.base.specs.declared.Tier.TheVariants.{N};
ghost use Rattle.grid.specs.Grid.{grid_of};
ghost use Rattle.names.specs.Names.{name_length, misplaced};
ghost use Rattle.fields.specs.Reading.{content_stands, byte_stands, wrong, file_read, is_faulty, series_in, series_bytes, checked_of, contents_of, read_at, read_after};
ghost use Rattle.parsing.specs.Keys.{key_of};
ghost use Rattle.parsing.specs.Sorts.{is_day, tag_of, length_of};

use base::{Cause, Tier};
use dates::DAYS;
use fields::{
    CONTENT, DAY_FIELD, DAY_LENGTH, DAY_TAG, Filed, SERIES_FIELD, SERIES_LENGTH, SERIES_TAG,
};

// What a field holds: the first the day, the others a series each.
#[derive(Clone, Copy)]
enum Field {
    Day,
    Series,
}

impl Field {
    // Kept: this and `length` are two columns of a table of two rows; one function for both would answer a pair, of which each caller takes a half.
    fn tag(self) -> u8
        ensures { result ≡ tag_of self }
    {
        match self {
            Field::Day => DAY_TAG,
            Field::Series => SERIES_TAG,
        }
    }

    // How many bytes of content it has.
    // Kept: as `tag`.
    fn length(self) -> usize
        ensures { result ≡ length_of self }
    {
        match self {
            Field::Day => DAY_LENGTH,
            Field::Series => SERIES_LENGTH,
        }
    }

    // Whether a byte can stand at a place of its content.
    fn content_stands(self, place: usize, byte: u8) -> bool
        ensures { result ≡ content_stands (tag_of self) place byte }
    {
        match self {
            Field::Day => true,
            Field::Series if place < names::LENGTH => names::can_stand(place, byte),
            Field::Series => (1..=5).contains(&byte),
        }
    }

    // Whether a byte can stand at a place of it.
    // Kept: an enum of a field's parts would be made from the place by these same numbers, and then be matched again.
    fn can_stand(self, place: usize, byte: u8) -> bool
        ensures { result ≡ byte_stands (is_day self) (tag_of self) place byte }
    {
        match place {
            0 => byte == self.tag(),
            1 => usize::from(byte) == self.length(),
            2 => byte == 0,
            _ => self.content_stands(place - CONTENT, byte),
        }
    }
}

// The first place of the field at the front of some bytes where these end or one stands that cannot.
fn first_wrong(rest: &[u8], field: Field) -> Option<usize>
    ensures { result ≡ found_in (wrong (is_day field) rest.now) 0 (3 + length_of field) }
{
    for place in 0..CONTENT + field.length() {
        if rest.len() <= place || !field.can_stand(place, rest[place]) {
            return Some(place);
        }
    }
    None
}

// The least and the greatest byte that can stand at each place of a series' field: tag, length, name, origin.
const LEAST: [u8; SERIES_FIELD] = *b"\x02\x0c\x00OW20A000000\x01";

const GREATEST: [u8; SERIES_FIELD] = *b"\x02\x0c\x00OW20X999999\x05";

// Whether the bytes are a series' field in which no place is wrong. The loop does not leave early, so that the compiler vectorises it.
fn is_right(field: &[u8; SERIES_FIELD]) -> bool
    ensures { result ≡ not (some_in (wrong false field.now) 0 15) }
{
    let mut right = true;
    for (place, byte) in field.iter().enumerate() {
        right = right & (LEAST[place] <= *byte) & (*byte <= GREATEST[place]);
    }
    right
}

// The first wrong place of a field behind the day's. A usual file has none, which the table shows sooner.
fn series_wrong(field: &[u8]) -> Option<usize>
    ensures { result ≡ found_in (wrong false field.now) 0 15 }
{
    match field.first_chunk() {
        Some(whole) if is_right(whole) => None,
        _ => first_wrong(field, Field::Series),
    }
}

// The key of a name whose bytes can all stand.
fn key_of(name: &[u8]) -> u32
    requires { (length name.now ≡ name_length) × (name_length ≤ first_in (misplaced name.now) 0 name_length) }
    ensures { (result ≡ key_of name.now) × (result < 24000000) }
{
    let mut key = u32::from(name[4] - b'A');
    for digit in &name[5..] {
        key = 10 * key + u32::from(*digit - b'0');
    }
    key
}

// Whether a series is taken by its key: its price, the last four digits, is on grid N, and the key is `least` or above.
fn is_taken(least: u32, key: u32) -> bool
    ensures { result ≡ (elem (key % 10000) (grid_of N) && leb least key) }
{
    grid::on_grid(Tier::N, key % 10000) && least <= key
}

// The check of a file of any bytes: its day and how many series it has, or 31 and the place. Keys ascend, so that there are
// fewer series than keys, and each place has room in 32 bits however long the bytes are.
// Kept: the casts of this file. The check proves that they lose nothing; `try_from(..).unwrap()` would need the same proof and says it in more words.
pub fn check(file: &[u8]) -> Result<Filed, Cause>
    ensures { contents_of result ≡ checked_of (file_read file.now) }
{
    if let Some(place) = first_wrong(file, Field::Day) {
        return Err(Cause::FileForm(place as u32));
    }
    let day = base::word(file, CONTENT);
    if DAYS <= day {
        return Err(Cause::FileForm(CONTENT as u32));
    }
    let mut least: u32 = 0;
    for (i, field) in file[DAY_FIELD..].chunks(SERIES_FIELD).enumerate() {
        let at = DAY_FIELD + SERIES_FIELD * i;
        if let Some(place) = series_wrong(field) {
            return Err(Cause::FileForm((at + place) as u32));
        }
        let key = key_of(&field[CONTENT..CONTENT + names::LENGTH]);
        if !is_taken(least, key) {
            return Err(Cause::FileForm((at + CONTENT) as u32));
        }
        least = key + 1;
    }
    Ok(Filed {
        day: u32::from(day),
        series: ((file.len() - DAY_FIELD) / SERIES_FIELD) as u32,
    })
}

// Copies all series of a file that was checked, each into the part behind the one before.
fn copy_list(list: &mut [u8], file: &[u8], series: usize)
    requires { (is_faulty (file_read file.now) ≡ false) × (series ≡ length (series_in (file_read file.now))) × (12 * series ≤ length list.old) }
    ensures { list.new ≡ series_bytes (series_in (file_read file.now)) ++ drop (12 * series) list.old }
{
    for i in 0..series {
        let at = DAY_FIELD + SERIES_FIELD * i + CONTENT;
        let to = SERIES_LENGTH * i;
        list[to..to + SERIES_LENGTH].copy_from_slice(&file[at..at + SERIES_LENGTH]);
    }
}

// Reads a file of any bytes. An entry point.
pub fn read(file: &[u8], list: &mut [u8]) -> Result<Filed, Cause>
    ensures value { contents_of result ≡ read_at file.now list.old }
    ensures list_after { list.new ≡ read_after file.now list.old }
{
    let filed = check(file)?;
    let series = filed.series as usize;
    if list.len() < SERIES_LENGTH * series {
        return Err(Cause::OutputLength);
    }
    copy_list(list, file, series);
    Ok(filed)
}
