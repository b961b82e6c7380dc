// What a file is, by how it begins or else by its length: a journal may have the length of a register. One of series is known by
// both.
use attributes::Attributes;
use calendar::CALENDAR_LENGTH;
use commands::FileKind;
use fields::{DAY_FIELD, DAY_LENGTH, DAY_TAG, SERIES_FIELD};
use files::Trouble;
use layout::REGISTER_LENGTH;
use lines::Words;
use system::System;

// What has a name.
// Kept: an Option of an Option says the same two kinds of none without their names, and a file that is written is refused for one of them alone.
#[derive(Clone, Copy, PartialEq, Eq, Debug)]
pub enum Found {
    // Nothing, or no regular file.
    Nothing,
    // A file of no kind that is known.
    Unknown,
    Kind(FileKind),
}

// Tag and length of the field of a day.
// Kept: a constant can call no `try_from`; wording has these bytes beside those of a series, which nothing here asks for.
const DAY_BEGINS: [u8; 3] = [DAY_TAG, DAY_LENGTH as u8, 0];

// So many lines are looked at for the first that says something.
const LINES: usize = 199;

// Whether a list of days may begin with this word.
fn is_day(word: &[u8]) -> bool {
    let date = word.strip_prefix(b"+").unwrap_or(word);
    date.len() == 10 && text::read_day(date).is_some()
}

// What a text is whose first word is this.
fn begun_by(word: &[u8]) -> Option<FileKind> {
    if journal::is_name(word) {
        Some(FileKind::Journal)
    } else if is_day(word) {
        Some(FileKind::List)
    } else {
        None
    }
}

fn text_kind(bytes: &[u8]) -> Option<FileKind> {
    let word = bytes
        .split(|&byte| byte == b'\n')
        .take(LINES)
        .find_map(|line| Words::of(lines::content(line)).next())?;
    begun_by(word)
}

fn kind_by_beginning(bytes: &[u8]) -> Option<FileKind> {
    if picture::is_ours(bytes) {
        Some(FileKind::Picture)
    } else if journal::is_text(bytes) {
        text_kind(bytes)
    } else {
        None
    }
}

// Whether a file that begins so may be one of series: the field of a day, and whole fields of series behind it.
fn is_series(bytes: &[u8], length: usize) -> bool {
    bytes.starts_with(&DAY_BEGINS)
        && length
            .checked_sub(DAY_FIELD)
            .is_some_and(|rest| rest % SERIES_FIELD == 0)
}

fn kind_by_length(bytes: &[u8], length: usize) -> Option<FileKind> {
    if is_series(bytes, length) {
        Some(FileKind::Series)
    } else if length == CALENDAR_LENGTH {
        Some(FileKind::Calendar)
    } else if length == REGISTER_LENGTH {
        Some(FileKind::Register)
    } else {
        None
    }
}

fn kind_of(system: &System, name: &[u8], file: Attributes) -> Option<FileKind> {
    let first = files::peek(system, name);
    let length = usize::try_from(file.size).ok()?;
    kind_by_beginning(first.as_bytes()).or_else(|| kind_by_length(first.as_bytes(), length))
}

// What the file of this name is.
pub fn find(system: &System, name: &[u8]) -> Result<Found, Trouble> {
    match files::known(system, name)? {
        Some(file) if file.is_regular() => {
            match kind_of(system, name, file) {
                Some(kind) => Ok(Found::Kind(kind)),
                None => Ok(Found::Unknown),
            }
        }
        _ => Ok(Found::Nothing),
    }
}
