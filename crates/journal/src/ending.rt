// How a journal ends: in whole lines, in one that lacks its line feed alone, or in one that a crash cut off.
use crate::input::{call_in, is_name};
use crate::telling::number_told;
use lines::Words;

// A line that the program writes is shorter.
const LONGEST: usize = 100;

// The lines that are ended by a line feed.
pub fn whole(text: &[u8]) -> &[u8] {
    match text.iter().rposition(|&byte| byte == b'\n') {
        Some(feed) => &text[..=feed],
        None => &[],
    }
}

// Whether a byte stands in lines that the program writes.
fn is_written(byte: u8) -> bool {
    matches!(byte, b'a'..=b'z' | b'0'..=b'9' | b' ' | b'.' | b'-' | b'=')
}

// Whether nothing stands behind a name, or a word that begins with a digit, as the first argument of each call.
fn is_argument(arguments: &[u8]) -> bool {
    match Words::of(arguments).next() {
        Some([first, ..]) => first.is_ascii_digit(),
        _ => true,
    }
}

fn begins_like_call(piece: &[u8]) -> bool {
    match text::split_once(piece, b' ') {
        Some((name, arguments)) => is_name(name) && is_argument(arguments),
        None => {
            b"start".starts_with(piece)
                || b"session".starts_with(piece)
                || b"announce".starts_with(piece)
        }
    }
}

// Whether a text tells one answer at most: more than that were more lines than one.
fn is_one_line(piece: &[u8]) -> bool {
    piece.iter().filter(|&&byte| byte == b'=').count() <= 1
}

// Whether a last line without line feed can be a call that was cut off while the program wrote it. Nothing can, too.
pub fn is_cut(piece: &[u8]) -> bool {
    piece.len() <= LONGEST
        && piece.iter().all(|&byte| is_written(byte))
        && is_one_line(piece)
        && begins_like_call(piece)
}

// Whether a line has a call and the number that it gave.
fn is_answered(line: &[u8]) -> bool {
    matches!(call_in(line), Ok(Some(_))) && number_told(line).is_some()
}

// The text in the first bytes of a room, with a line feed more where its last line is a call with its answer and lacks that
// alone.
// Kept: room and length stand apart, since the line feed is written behind the text, where a slice of the text would end.
pub fn ended<'a>(room: &'a mut [u8], length: usize) -> &'a [u8] {
    let text = room.get(..length).unwrap_or(&[]);
    let last = text.rsplit(|&byte| byte == b'\n').next();
    if last.is_some_and(is_answered)
        && let Some(behind) = room.get_mut(length)
    {
        *behind = b'\n';
        return &room[..=length];
    }
    room.get(..length).unwrap_or(&[])
}

// Whether bytes can be a text: those of a register or a calendar have zeros.
pub fn is_text(bytes: &[u8]) -> bool {
    !bytes.contains(&0)
}
