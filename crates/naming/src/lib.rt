// The series of a register's new rows, named in the bytes of a file.
#![tactic(auto)]

ghost use Rattle.std.specs.Prelude.{◌≡◌, [], ◌∷◌, ◌++◌, ◌+◌, ◌*◌, ◌≤◌, eqb, leb, map, length, drop};
ghost use Rattle.base.specs.Words.{at16};
ghost use Rattle.fields.specs.Fields.{day_field, fields_bytes, file_of};
ghost use Rattle.layout.specs.Bytes.{row_of};
ghost use Rattle.names.specs.Kinds.{kind_number};
ghost use Rattle.naming.specs.DayFile.{new_rows, series_of};
ghost use Rattle.naming.specs.Parts.{before, sequence};

use base::{put_word, word};
use fields::{CONTENT, DAY_FIELD, DAY_LENGTH, DAY_TAG, SERIES_FIELD, SERIES_LENGTH, SERIES_TAG};
use layout::{FIRST_DAY, MONTH, ORIGIN, PRICE, ROW_LENGTH};
use names::Kind;

// Whether a row is new on a day.
fn is_new(row: &[u8; ROW_LENGTH], day: u16) -> bool
    ensures { result ≡ eqb (at16 row.now 4) day }
{
    word(row, FIRST_DAY) == day
}

// How many of some rows are new on a day.
pub fn count_new(rows: &[[u8; ROW_LENGTH]], day: u16) -> usize
    ensures new { result ≡ length (new_rows day (map row_of rows.now)) }
    ensures most { result ≤ length rows.now }
{
    rows.iter().filter(|row| is_new(row, day)).count()
}

// Whether a row is of a month or a later one.
fn is_from(row: &[u8; ROW_LENGTH], month: u16) -> bool
    ensures { result ≡ leb month (at16 row.now 0) }
{
    month <= word(row, MONTH)
}

// How many of some rows stand before the first of a month or a later one.
pub fn rows_before(rows: &[[u8; ROW_LENGTH]], month: u16) -> usize
    ensures before { result ≡ before month (map row_of rows.now) }
    ensures most { result ≤ length rows.now }
{
    let first = rows.iter().position(|row| is_from(row, month));
    first.unwrap_or(rows.len())
}

// Puts the field of a day at the front of a part.
// Kept: the casts of this file. The check proves that they lose nothing; `try_from(..).unwrap()` would need the same proof and says it in more words.
fn put_day(part: &mut [u8], day: u16)
    requires { 5 ≤ length part.old }
    ensures { part.new ≡ fields_bytes (day_field day ∷ []) ++ drop 5 part.old }
{
    part[0] = DAY_TAG;
    put_word(part, 1, DAY_LENGTH as u16);
    put_word(part, CONTENT, day);
}

// Puts the field of a row's series at the front of a part.
fn put_series(part: &mut [u8], row: &[u8; ROW_LENGTH], kind: Kind)
    requires { 15 ≤ length part.old }
    ensures { part.new ≡ fields_bytes (series_of (kind_number kind) (row_of row.now ∷ [])) ++ drop 15 part.old }
{
    part[0] = SERIES_TAG;
    put_word(part, 1, SERIES_LENGTH as u16);
    let name_end = CONTENT + names::LENGTH;
    let month = u32::from(word(row, MONTH));
    let price = u32::from(word(row, PRICE));
    names::put(&mut part[CONTENT..name_end], month, kind, price);
    part[name_end] = row[ORIGIN];
}

// Puts the series of a type, for those of some rows that are new on a day, one behind the other at the front of a part, and tells how
// many bytes they are.
fn put_part(part: &mut [u8], rows: &[[u8; ROW_LENGTH]], day: u16, kind: Kind) -> usize
    requires { 15 * length (new_rows day (map row_of rows.now)) ≤ length part.old }
    ensures value { result ≡ 15 * length (new_rows day (map row_of rows.now)) }
    ensures part_after { part.new ≡ fields_bytes (series_of (kind_number kind) (new_rows day (map row_of rows.now)))
        ++ drop (15 * length (new_rows day (map row_of rows.now))) part.old }
{
    let mut end = 0;
    for row in rows {
        if is_new(row, day) {
            put_series(&mut part[end..], row, kind);
            end += SERIES_FIELD;
        }
    }
    end
}

// Puts the series of a type that are new on a day at the front of a part, those of the later year's rows before the others, and tells how
// many bytes they are.
fn put_type(
    part: &mut [u8],
    earlier: &[[u8; ROW_LENGTH]],
    later: &[[u8; ROW_LENGTH]],
    day: u16,
    kind: Kind,
) -> usize
    requires { 15 * (length (new_rows day (map row_of earlier.now)) + length (new_rows day (map row_of later.now))) ≤ length part.old }
    ensures value { result ≡ 15 * (length (new_rows day (map row_of earlier.now)) + length (new_rows day (map row_of later.now))) }
    ensures part_after { part.new ≡ fields_bytes (series_of (kind_number kind) (new_rows day (map row_of later.now)) ++ series_of (kind_number kind) (new_rows day (map row_of earlier.now)))
        ++ drop (15 * (length (new_rows day (map row_of earlier.now)) + length (new_rows day (map row_of later.now)))) part.old }
{
    let end = put_part(part, later, day, kind);
    end + put_part(&mut part[end..], earlier, day, kind)
}

// Puts a day and the series that are new on it: letters decide first, and live months of the later year have the earlier letters, so
// its rows come before the others, for calls and then for puts.
pub fn put_file(file: &mut [u8], earlier: &[[u8; ROW_LENGTH]], later: &[[u8; ROW_LENGTH]], day: u16)
    requires { 5 + 30 * (length (new_rows day (map row_of earlier.now)) + length (new_rows day (map row_of later.now))) ≤ length file.old }
    ensures { file.new ≡ file_of day (sequence day (map row_of earlier.now) (map row_of later.now))
        ++ drop (5 + 30 * (length (new_rows day (map row_of earlier.now)) + length (new_rows day (map row_of later.now)))) file.old }
{
    put_day(file, day);
    let calls = put_type(&mut file[DAY_FIELD..], earlier, later, day, Kind::Call);
    let puts = DAY_FIELD + calls;
    put_type(&mut file[puts..], earlier, later, day, Kind::Put);
}
