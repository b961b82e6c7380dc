// The file of a register's new series, written.
#![tactic(auto)]

ghost use Rattle.std.specs.Prelude.{◌≡◌};
ghost use Rattle.rules.specs.Rulebook.{rules};
ghost use Rattle.loader.specs.Loader.{written_of, file_at, file_after};

use base::{Cause, word};
use fields::{DAY_FIELD, SERIES_FIELD};
use layout::{COUNT, DAY, MONTH, ROWS};
use naming::{count_new, put_file, rows_before};
use register::Opened;

// The longest file of a register: its day, and a call and a put for each of 1,391 rows.
pub const MOST_LENGTH: usize = 41735;

// What writing a file answers C: the cause's number, or 0 and the file's length; beside 13 the month in `length`.
// Kept: C has no Result, so a number and what stands beside it are one struct.
#[repr(C)]
#[derive(Drop)]
pub struct Written {
    pub number: u16,
    pub length: u32,
}

impl From<Result<u32, Cause>> for Written {
    ghost from_gives = { λ given written. written ≡ written_of given };

    fn from(given: Result<u32, Cause>) -> Written {
        match given {
            Ok(length) => Written { number: 0, length },
            Err(cause) => Written {
                number: cause.number(),
                length: u32::from(cause.month()),
            },
        }
    }
}

// Writes the file of a register and answers its length. An entry point: it takes any bytes.
// Kept: the casts of this file. The check proves that they lose nothing; try_from(..).unwrap() would need the same proof and says it in more words.
pub fn write(calendar: &[u8], register: &[u8], file: &mut [u8]) -> Result<u32, Cause>
    ensures value { written_of result ≡ file_at calendar.now register.now file.old }
    ensures file_after { file.new ≡ file_after (rules calendar.now) register.now file.old }
{
    let Opened::Running(_) = register::open(calendar, register)? else {
        return Err(Cause::Empty);
    };
    let day = word(register, DAY);
    let rows = layout::rows(register, usize::from(word(register, COUNT)));
    let length = DAY_FIELD + 2 * SERIES_FIELD * count_new(rows, day);
    if file.len() < length {
        return Err(Cause::OutputLength);
    }
    let first = word(register, ROWS + MONTH);
    let january = 12 * (first / 12 + 1);
    let (earlier, later) = rows.split_at(rows_before(rows, january));
    put_file(file, earlier, later, day);
    Ok(length as u32)
}
