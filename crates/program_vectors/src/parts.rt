// The part of a day of small tables: of days that are held and not held, and of tables that refusal 1 turns away.
ghost use Rattle.std.specs.Prelude.{◌≤◌, ◌<◌};

use calendar_dates::Date;
use std::io::Print;
use std::{fmt, io};
use table_days::LentTable;

// The part of a day: how many readings it has, the first and the last, as `96 1000 1095`, or `00`.
#[derive(Clone, Copy)]
struct Part<'a> {
    readings: &'a [u32],
}

impl fmt::Display for Part<'_> {
    fn fmt<W: fmt::Write>(&self, f: &mut fmt::Formatter<W>) -> fmt::Result {
        let readings = self.readings;
        write!(f, "{:02}", readings.len())?;
        if let (Some(start), Some(end)) = (readings.first(), readings.last()) {
            write!(f, " {start:04} {end:04}")?;
        }
        Ok(())
    }
}

// A day and its part, a line that is written whole: `2019-01-12 96 1000 1095`, or `2019-01-11 00`.
fn part_line(rt: &impl Print, table: &LentTable<'_, '_>, day: u32) -> io::Result<()> {
    let Some(
        Date {
            year,
            month,
            day: of_month,
        },
    ) = Date::of_day(day)
    else {
        return Ok(());
    };
    let part = Part {
        readings: table.day_part(day),
    };
    println!(rt; "{year:04}-{month:02}-{of_month:02} {part}")
}

// The first day of a table, the second and the last, and the days beside them.
fn table_lines(rt: &impl Print, table: &LentTable<'_, '_>, last: u32) -> io::Result<()>
    requires { (0 < table.now.first) × (table.now.first < 36525) × (last < 36600) }
{
    part_line(rt, table, table.first - 1)?;
    part_line(rt, table, table.first)?;
    part_line(rt, table, table.first + 1)?;
    part_line(rt, table, last)?;
    part_line(rt, table, last + 1)
}

// Readings that tell their place.
fn numbered() -> [u32; 384] {
    let mut readings = [0; 384];
    // by its number, which is what a reading says
    for i in 0..384 {
        readings[i] = 1000 + i as u32;
    }
    readings
}

// A table of three days and the first so many of the readings.
fn three_days(rt: &impl Print, first: u32, readings: [u32; 384], count: usize) -> io::Result<()>
    requires { (0 < first) × (first < 36525) × (count ≤ 384) }
{
    let marks = [0, 3, 0];
    let table = LentTable {
        first,
        marks: &marks,
        readings: &readings[..count],
    };
    table_lines(rt, &table, first + 2)
}

// Tables of no days, of 128 and of 129.
fn none_and_most(rt: &impl Print) -> io::Result<()> {
    let marks = [0u8; 129];
    let readings = [7u32; 12384];
    let none = LentTable {
        first: 6951,
        marks: &marks[..0],
        readings: &readings[..0],
    };
    let most = LentTable {
        first: 6951,
        marks: &marks[..128],
        readings: &readings[..12288],
    };
    let too_many = LentTable {
        first: 6951,
        marks: &marks,
        readings: &readings,
    };
    table_lines(rt, &none, 6953)?;
    table_lines(rt, &most, 7078)?;
    table_lines(rt, &too_many, 7079)
}

// Day 6951 is 12 January 2019. The second table ends with the calendar and the third goes past it; the next two have a reading too few and one
// too many.
pub(crate) fn parts(rt: &impl Print) -> io::Result<()> {
    println!(rt; "Readings of a day: how many, the first and the last")?;
    let readings = numbered();
    three_days(rt, 6951, readings, 288)?;
    three_days(rt, 36522, readings, 288)?;
    three_days(rt, 36523, readings, 288)?;
    three_days(rt, 6951, readings, 287)?;
    three_days(rt, 6951, readings, 289)?;
    none_and_most(rt)
}
