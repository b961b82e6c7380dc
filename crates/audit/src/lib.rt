// Holding a register against what its journal gives.
#![tactic(auto)]

use layout::Origin;
use reading::{Announcement, Part, Register, Row};
use std::fmt;
use std::fmt::Display;
use text::{Date, Month};

// What the head of a register tells.
#[derive(Clone, Copy, PartialEq, Eq, Debug)]
enum Field {
    Status,
    Day,
    Waiting,
    RowCount,
}

const FIELDS: [Field; 4] = [Field::Status, Field::Day, Field::Waiting, Field::RowCount];

impl Field {
    fn of(self, register: Register<'_>) -> u32 {
        match self {
            Field::Status => u32::from(register.status()),
            Field::Day => register.day(),
            Field::Waiting => register.waiting(),
            Field::RowCount => register.row_count(),
        }
    }
}

// What differs: an announcement as the journal gives it and as the register has it, a row, a byte. Their numbers are counted
// from 0.
#[derive(Clone, Copy, PartialEq, Eq, Debug)]
enum Different {
    Field(Field),
    Announcement(usize, Announcement, Announcement),
    Row(usize),
    Byte(usize),
}

// A row as it is told.
#[derive(Drop)]
struct Listed(Option<Row>);

impl Display for Listed {
    fn fmt<W: fmt::Write>(&self, f: &mut fmt::Formatter<W>) -> fmt::Result {
        let Some(row) = self.0 else {
            return f.write_str("no row");
        };
        let month = Month(row.month);
        let price = row.price;
        let first = Date(row.first);
        let origin = row.origin;
        write!(f, "{month} {price}, first day {first}, origin {origin}")?;
        match Origin::try_from(origin) {
            Ok(origin) => write!(f, ", {origin}"),
            Err(_) => Ok(()),
        }
    }
}

// A byte, where there is one.
#[derive(Drop)]
struct OrNone(Option<u8>);

impl Display for OrNone {
    fn fmt<W: fmt::Write>(&self, f: &mut fmt::Formatter<W>) -> fmt::Result {
        match self.0 {
            Some(byte) => write!(f, "{byte}"),
            None => f.write_str("none"),
        }
    }
}

// The first place at which two lists differ, or where the shorter one ends.
fn first_other<T: PartialEq>(a: &[T], b: &[T]) -> usize {
    let other = a.iter().zip(b).position(|(a, b)| a != b);
    other.unwrap_or(a.len().min(b.len()))
}

// The first thing in which a register differs from what its journal gives, and a line feed: status, day, announcements waiting,
// number of rows with the first row that differs, an announcement, a row, or a byte that is a part of none of these.
#[derive(Clone, Copy)]
pub struct Difference<'a> {
    pub given: Register<'a>,
    pub register: Register<'a>,
}

impl Difference<'_> {
    fn first(&self) -> Option<Different> {
        let given = self.given;
        let register = self.register;
        if given.bytes == register.bytes {
            return None;
        }
        let mut fields = FIELDS.iter();
        if let Some(field) = fields.find(|field| field.of(given) != field.of(register)) {
            return Some(Different::Field(*field));
        }
        let place = first_other(given.bytes, register.bytes);
        Some(match reading::part_at(place) {
            Part::Announcement(number) => self.announcement(number, place),
            Part::Row(number) if given.row(number).is_some() => Different::Row(number),
            _ => Different::Byte(place),
        })
    }

    // The announcement of a number, where so many wait; else the byte at its place.
    fn announcement(&self, number: usize, place: usize) -> Different {
        let gives = self.given.announcements().nth(number);
        let has = self.register.announcements().nth(number);
        match (gives, has) {
            (Some(gives), Some(has)) => Different::Announcement(number, gives, has),
            _ => Different::Byte(place),
        }
    }

    fn put_field<W: fmt::Write>(&self, f: &mut fmt::Formatter<W>, field: Field) -> fmt::Result {
        let gives = field.of(self.given);
        let has = field.of(self.register);
        match field {
            Field::Status => write!(
                f,
                "status, 0 empty, 1 running: the journal gives {gives}, the register has {has}",
            ),
            Field::Day => {
                let gives = Date(gives);
                let has = Date(has);
                write!(f, "day: the journal gives {gives}, the register has {has}")
            }
            Field::Waiting => write!(
                f,
                "announcements waiting: the journal gives {gives}, the register has {has}",
            ),
            Field::RowCount => {
                writeln!(f, "rows: the journal gives {gives}, the register has {has}")?;
                let other = first_other(self.given.row_places(), self.register.row_places());
                self.put_rows(f, other)
            }
        }
    }

    fn put_rows<W: fmt::Write>(&self, f: &mut fmt::Formatter<W>, number: usize) -> fmt::Result {
        let gives = Listed(self.given.row(number));
        let has = Listed(self.register.row(number));
        let number = number.saturating_add(1);
        write!(
            f,
            "row {number}:\n  the journal gives {gives}\n  the register has  {has}"
        )
    }

    fn put_byte<W: fmt::Write>(&self, f: &mut fmt::Formatter<W>, place: usize) -> fmt::Result {
        let gives = OrNone(self.given.bytes.get(place).copied());
        let has = OrNone(self.register.bytes.get(place).copied());
        write!(
            f,
            "byte {place}: the journal gives {gives}, the register has {has}"
        )
    }
}

fn put_announcements<W: fmt::Write>(
    f: &mut fmt::Formatter<W>,
    number: usize,
    gives: Announcement,
    has: Announcement,
) -> fmt::Result {
    let number = number.saturating_add(1);
    writeln!(f, "announcement {number}:")?;
    writeln!(
        f,
        "  the journal gives {} {}",
        Month(gives.month),
        gives.price
    )?;
    write!(f, "  the register has  {} {}", Month(has.month), has.price)
}

impl Display for Difference<'_> {
    fn fmt<W: fmt::Write>(&self, f: &mut fmt::Formatter<W>) -> fmt::Result {
        match self.first() {
            None => f.write_str("no difference")?,
            Some(Different::Field(field)) => self.put_field(f, field)?,
            Some(Different::Announcement(number, gives, has)) => {
                put_announcements(f, number, gives, has)?;
            }
            Some(Different::Row(number)) => self.put_rows(f, number)?,
            Some(Different::Byte(place)) => self.put_byte(f, place)?,
        }
        f.write_str("\n")
    }
}
