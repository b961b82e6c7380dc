// Reading a file whole.
use crate::{Trouble, complain, fail};
use system::{Error, PATH_MAX, Source, System};
use text::Text;

// All that is left to read of an open file, read into the buffer.
fn read_whole<'a>(
    system: &System,
    from: Source<'_>,
    path: &[u8],
    buffer: &'a mut [u8],
) -> Result<&'a [u8], Trouble> {
    let room = buffer.len();
    let read = system.read_full(from, buffer);
    // a short read is the end of the file or an error: one more byte tells
    match system.read_once(from, &mut [0]) {
        Ok(0) => Ok(read),
        Ok(_) if read.len() < room => {
            Err(complain(system, path, "it could not be read to its end"))
        }
        Ok(_) => {
            Err(complain(
                system,
                path,
                format_args!("the file is longer than it may be: it is read up to {room} bytes"),
            ))
        }
        Err(error) => Err(fail(system, path, error)),
    }
}

// The whole file, read into the buffer; none where there is no such file.
pub fn load<'a>(
    system: &System,
    path: &[u8],
    buffer: &'a mut [u8],
) -> Result<Option<&'a [u8]>, Trouble> {
    match system.open_read(path) {
        Ok(file) => Ok(Some(read_whole(system, Source::File(&file), path, buffer)?)),
        Err(Error::ENOENT) => Ok(None),
        Err(error) => Err(fail(system, path, error)),
    }
}

// The same, where - is standard input.
pub fn load_text<'a>(
    system: &System,
    path: &[u8],
    buffer: &'a mut [u8],
) -> Result<Option<&'a [u8]>, Trouble> {
    if commands::is_stream(path) {
        let text = read_whole(system, Source::Input, b"standard input", buffer)?;
        return Ok(Some(text));
    }
    load(system, path, buffer)
}

// The first bytes of a file; none where they cannot be had.
// Kept: no Option: its one caller would make the empty text of a None, since such a file is known by its length alone.
pub fn peek(system: &System, path: &[u8]) -> Text<PATH_MAX> {
    let mut first = Text::new();
    if let Ok(file) = system.open_read(path) {
        // Kept: what is read is put into a room of zeros, and a text, which keeps the length, has it at once.
        let mut room = [0; PATH_MAX];
        first.put(system.read_full(Source::File(&file), &mut room));
    }
    first
}
