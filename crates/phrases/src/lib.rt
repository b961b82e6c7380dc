// What is told of series, rows and bytes.
#![tactic(auto)]

use layout::Origin;
use names::{Kind, Named};
use std::fmt::Display;
use std::{fmt, str};

// The name of a series.
#[derive(Clone, Copy, PartialEq, Eq, Debug)]
pub struct SeriesName {
    pub month: u32,
    pub kind: Kind,
    pub price: u32,
}

impl SeriesName {
    pub fn call(month: u32, price: u32) -> SeriesName {
        let kind = Kind::Call;
        SeriesName { month, kind, price }
    }

    pub fn put(month: u32, price: u32) -> SeriesName {
        let kind = Kind::Put;
        SeriesName { month, kind, price }
    }
}

impl From<Named> for SeriesName {
    fn from(series: Named) -> SeriesName {
        SeriesName {
            month: u32::from(series.month),
            kind: series.kind,
            price: u32::from(series.price),
        }
    }
}

impl Display for SeriesName {
    fn fmt<W: fmt::Write>(&self, f: &mut fmt::Formatter<W>) -> fmt::Result {
        let mut name = [0; names::LENGTH];
        let kind = u32::from(self.kind.number());
        let written = names::write(&mut name, self.month, kind, self.price);
        match str::from_utf8(&name) {
            Ok(name) if written.is_ok() => f.write_str(name),
            _ => f.write_str("(no such series)"),
        }
    }
}

// What a series is an option of, in a word that pads as a text does.
#[derive(Clone, Copy, PartialEq, Eq, Debug)]
pub struct KindName(pub Kind);

impl Display for KindName {
    fn fmt<W: fmt::Write>(&self, f: &mut fmt::Formatter<W>) -> fmt::Result {
        f.pad(match self.0 {
            Kind::Call => "call",
            Kind::Put => "put",
        })
    }
}

// Why a row was listed, by the byte that it has for its origin.
#[derive(Clone, Copy, PartialEq, Eq, Debug)]
pub struct OriginByte(pub u8);

impl Display for OriginByte {
    fn fmt<W: fmt::Write>(&self, f: &mut fmt::Formatter<W>) -> fmt::Result {
        match Origin::try_from(self.0) {
            Ok(origin) => origin.fmt(f),
            Err(_) => f.write_str("no origin that there is"),
        }
    }
}

// A byte, with its sign where it has one.
#[derive(Clone, Copy, PartialEq, Eq, Debug)]
pub struct Byte(pub u8);

impl Display for Byte {
    fn fmt<W: fmt::Write>(&self, f: &mut fmt::Formatter<W>) -> fmt::Result {
        let byte = self.0;
        if byte.is_ascii_graphic() {
            write!(f, "{byte} ({})", char::from(byte))
        } else {
            write!(f, "{byte}")
        }
    }
}
