// A file of series: what was written, and what it has.
use fields::{CONTENT, DAY_FIELD, SERIES_FIELD};
use phrases::{KindName, OriginByte, SeriesName};
use std::fmt;
use std::fmt::Display;
use text::{Date, Month, Plural};

// Where the origin stands behind the name.
const ORIGIN: usize = SERIES_FIELD - 1;

// That a file of a length was written with the series that are new on a day. The file's name stands before it.
#[derive(Clone, Copy)]
pub struct Written {
    pub day: u32,
    pub length: usize,
}

impl Display for Written {
    fn fmt<W: fmt::Write>(&self, f: &mut fmt::Formatter<W>) -> fmt::Result {
        let length = self.length;
        let day = Date(self.day);
        let series = length.saturating_sub(DAY_FIELD) / SERIES_FIELD;
        if series == 0 {
            return writeln!(f, ": no series is new on {day}, {length} bytes");
        }
        let rows = text::narrowed(series / 2);
        writeln!(
            f,
            ": {series} series, call and put of {rows} row{} new on {day}, {length} bytes",
            Plural(rows),
        )
    }
}

// The day of a file and how many series it has.
#[derive(Clone, Copy)]
pub struct SeriesHeading {
    pub day: u32,
    pub series: u32,
}

impl Display for SeriesHeading {
    fn fmt<W: fmt::Write>(&self, f: &mut fmt::Formatter<W>) -> fmt::Result {
        let day = Date(self.day);
        match self.series {
            0 => writeln!(f, "{day}: no series"),
            series => write!(
                f,
                "{day}: {series} series\nname         month    type  strike  origin\n",
            ),
        }
    }
}

// The fields of a file's series.
pub fn series_fields(file: &[u8]) -> &[[u8; SERIES_FIELD]] {
    let (fields, _) = file.get(DAY_FIELD..).unwrap_or(&[]).as_chunks();
    fields
}

// A series by its field, in a line.
#[derive(Clone, Copy)]
pub struct SeriesLine(pub [u8; SERIES_FIELD]);

impl Display for SeriesLine {
    fn fmt<W: fmt::Write>(&self, f: &mut fmt::Formatter<W>) -> fmt::Result {
        let field = self.0;
        let Ok(series) = names::read(&field[CONTENT..ORIGIN]) else {
            return Ok(());
        };
        writeln!(
            f,
            "{}  {}  {:4}  {:6}  {}",
            SeriesName::from(series),
            Month(u32::from(series.month)),
            KindName(series.kind),
            series.price,
            OriginByte(field[ORIGIN]),
        )
    }
}
