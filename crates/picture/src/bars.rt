// A month's column: a bar for each row, the ladder's two ends, and month, tier and expiry date below.
use crate::scale::Scale;
use crate::shapes::Pixels;
use reading::{Register, Row, Span};
use std::fmt;
use std::fmt::Display;
use text::{Date, Month};

// How thick a bar is, by the distance to the next one: three quarters of it, and all of it where bars are close, but at
// least a pixel and a half and at most eight.
fn thickness(distance: u32) -> u32 {
    match distance {
        0..=14 => 15,
        15..=29 => distance,
        30..=99 => distance * 3 / 4,
        _ => 80,
    }
}

// The bar of a row, with the price where the pointer rests on it, and the black block beside a new one. The bar is the
// thicker the farther the price beside it is.
#[derive(Clone, Copy)]
struct Bar {
    row: Row,
    beside: Row,
    scale: Scale,
    day: u32,
}

impl Display for Bar {
    fn fmt<W: fmt::Write>(&self, f: &mut fmt::Formatter<W>) -> fmt::Result {
        let Row {
            price,
            first,
            origin,
            ..
        } = self.row;
        let thick = thickness(self.scale.between(price, self.beside.price));
        let top = self.scale.height_of(price).saturating_sub(thick / 2);
        writeln!(
            f,
            "<path class='o{origin}' d='M25 {}h90v{}h-90z'><title>{price} since {}</title></path>",
            Pixels(top),
            Pixels(thick),
            Date(first),
        )?;
        if first == self.day {
            writeln!(
                f,
                "<path d='M118 {}h8v{}h-8z'/>",
                Pixels(top),
                Pixels(thick)
            )?;
        }
        Ok(())
    }
}

// Kept: expiry and span are a call each, as in `report` and `inquiry`; a type of the two would be taken apart again for the texts.
// A live month: its ladder before a pale ground that shows the span, with the lowest and the highest price at its ends.
#[derive(Clone, Copy)]
struct Column<'a> {
    register: Register<'a>,
    scale: Scale,
    month: u32,
    expiry: u32,
    span: Span,
}

impl<'a> Column<'a> {
    fn of(register: Register<'a>, scale: Scale, month: u32) -> Option<Column<'a>> {
        let expiry = lookup::expiry(register.calendar, month)?;
        let span = register.rows_of(month).span()?;
        Some(Column {
            register,
            scale,
            month,
            expiry,
            span,
        })
    }
}

impl Display for Column<'_> {
    fn fmt<W: fmt::Write>(&self, f: &mut fmt::Formatter<W>) -> fmt::Result {
        let Column {
            register,
            scale,
            month,
            expiry,
            span,
        } = *self;
        let Span { low, high } = span;
        let top = scale.height_of(high);
        let bottom = scale.height_of(low);
        writeln!(
            f,
            "<path class='s' d='M25 {}h90v{}h-90z'/>",
            Pixels(top),
            Pixels(bottom.saturating_sub(top)),
        )?;
        bars(f, register, scale, month)?;
        write!(
            f,
            "<text class='c' x='70' y='{}'>{high}</text>
<text class='c' x='70' y='{}'>{low}</text>
<text class='m' x='70' y='1146'>{}</text>
<text class='c' x='70' y='1165'>tier {}</text>
<text class='c' x='70' y='1183'>expires {}</text>
",
            Pixels(top.saturating_sub(80)),
            Pixels(bottom + 170),
            Month(month),
            register.tier(month),
            Date(expiry),
        )
    }
}

// Beside each row stands the next one, beside the last the one before it.
fn bars<W: fmt::Write>(
    f: &mut fmt::Formatter<W>,
    register: Register<'_>,
    scale: Scale,
    month: u32,
) -> fmt::Result {
    let day = register.day();
    let rows = register.rows_of(month);
    let last = rows.count().saturating_sub(2);
    let others = rows.skip(1).chain(rows.skip(last));
    for (row, beside) in rows.zip(others) {
        write!(
            f,
            "{}",
            Bar {
                row,
                beside,
                scale,
                day
            }
        )?;
    }
    Ok(())
}

// The columns of the six live months.
#[derive(Clone, Copy)]
pub struct Columns<'a> {
    pub register: Register<'a>,
    pub scale: Scale,
}

impl Display for Columns<'_> {
    fn fmt<W: fmt::Write>(&self, f: &mut fmt::Formatter<W>) -> fmt::Result {
        let Columns { register, scale } = *self;
        for (place, &month) in register.live_months().iter().enumerate() {
            if let Some(column) = Column::of(register, scale, month) {
                let left = 80 + 150 * place;
                write!(f, "<g transform='translate({left} 0)'>\n{column}</g>\n")?;
            }
        }
        Ok(())
    }
}
