// The rows of one month, and the rows of one day.
use crate::parts::Ladder;
use phrases::{OriginByte, SeriesName};
use reading::{Register, Row, Rows};
use std::fmt;
use std::fmt::Display;
use text::{Date, Month, Plural};

// What the tables of rows end with: the two series of a row, and why it was listed.
#[derive(Clone, Copy)]
struct Listed(Row);

impl Display for Listed {
    fn fmt<W: fmt::Write>(&self, f: &mut fmt::Formatter<W>) -> fmt::Result {
        let Row {
            month,
            price,
            origin,
            ..
        } = self.0;
        let call = SeriesName::call(month, price);
        let put = SeriesName::put(month, price);
        writeln!(f, "{call}  {put}  {}", OriginByte(origin))
    }
}

// A month's rows, one to a line under a heading.
#[derive(Clone, Copy)]
pub struct MonthRows<'a> {
    ladder: Ladder,
    rows: Rows<'a>,
}

impl<'a> MonthRows<'a> {
    // None where the month is not live.
    pub fn of(register: Register<'a>, month: u32) -> Option<MonthRows<'a>> {
        let ladder = Ladder::of(register, month)?;
        let rows = register.rows_of(month);
        Some(MonthRows { ladder, rows })
    }
}

impl Display for MonthRows<'_> {
    fn fmt<W: fmt::Write>(&self, f: &mut fmt::Formatter<W>) -> fmt::Result {
        let Ladder {
            month,
            tier,
            expiry,
            span,
            rows,
            ..
        } = self.ladder;
        write!(
            f,
            "{}: tier {tier}, expires {}, {rows} row{} from {:4} to {:4}\n\
            price  first day   call         put          origin\n",
            Month(month),
            Date(expiry),
            Plural(rows),
            span.low,
            span.high,
        )?;
        for row in self.rows {
            write!(f, " {:4}  {}  {}", row.price, Date(row.first), Listed(row))?;
        }
        Ok(())
    }
}

// The rows that the start or session of the register's day added, as many as it told.
#[derive(Clone, Copy)]
pub struct AddedRows<'a> {
    pub register: Register<'a>,
    pub count: u16,
}

impl Display for AddedRows<'_> {
    fn fmt<W: fmt::Write>(&self, f: &mut fmt::Formatter<W>) -> fmt::Result {
        let AddedRows { register, count } = *self;
        let day = register.day();
        writeln!(
            f,
            "{}: {count} row{} added",
            Date(day),
            Plural(u32::from(count))
        )?;
        if count == 0 {
            return Ok(());
        }
        f.write_str("month    price  call         put          origin\n")?;
        for row in register.rows() {
            if row.first == day {
                write!(f, "{}   {:4}  {}", Month(row.month), row.price, Listed(row))?;
            }
        }
        Ok(())
    }
}
