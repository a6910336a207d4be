// The calendar: groups of days, Easter Sundays, and the calendar that document 003 prints as its Table 3.
ghost use Rattle.std.specs.Prelude.{◌<◌};

use calendar_dates::Date;
use calendar_groups::Group;
use std::io::Print;
use std::{fmt, io};

fn letter(group: Group) -> &'static str {
    match group {
        Group::Weekday => "W",
        Group::Saturday => "S",
        Group::HolidayGroup => "H",
    }
}

// The letters of a month, one a day, for its group where no holiday is moved: `HWHHH..`. It asks for 31 days of every month; there is no letter where
// there is no such date.
#[derive(Clone, Copy)]
struct Letters {
    year: u32,
    month: u32,
}

impl fmt::Display for Letters {
    fn fmt<W: fmt::Write>(&self, f: &mut fmt::Formatter<W>) -> fmt::Result {
        let Letters { year, month } = *self;
        for day in 1..=31 {
            if let Some(day) = (Date { year, month, day }).day_number() {
                f.write_str(letter(calendar_groups::group_of(&[], day)))?;
            }
        }
        Ok(())
    }
}

// A month as `2024-05 HWHHH..`. Nothing keeps what was printed from one call to the next: each line is written whole, by one.
fn month_line(rt: &impl Print, year: u32, month: u32) -> io::Result<()> {
    println!(rt; "{year:04}-{month:02} {}", Letters { year, month })
}

pub(crate) fn groups(rt: &impl Print) -> io::Result<()> {
    println!(rt; "Groups: W weekday, S Saturday, H holiday group")?;
    for year in [2000, 2019, 2023, 2024, 2025, 2099] {
        for month in 1..=12 {
            month_line(rt, year, month)?;
        }
    }
    Ok(())
}

pub(crate) fn easters(rt: &impl Print) -> io::Result<()> {
    println!(rt; "Orthodox Easter")?;
    for year in 2000..=2099 {
        if let Some(Date { year, month, day }) = Date::of_day(calendar_holidays::easter(year)) {
            println!(rt; "{year:04}-{month:02}-{day:02}")?;
        }
    }
    Ok(())
}

fn weekday(day: u32) -> &'static str {
    match day % 7 {
        0 => "Saturday",
        1 => "Sunday",
        2 => "Monday",
        3 => "Tuesday",
        4 => "Wednesday",
        5 => "Thursday",
        _ => "Friday",
    }
}

// What stands behind a day: a week ends with its Sunday.
fn gap(day: u32) -> &'static str {
    if day % 7 == 1 { "\n" } else { "\t" }
}

// The three letters of a month.
fn month_name(month: u32) -> &'static str {
    match month {
        1 => "Jan",
        2 => "Feb",
        3 => "Mar",
        4 => "Apr",
        5 => "May",
        6 => "Jun",
        7 => "Jul",
        8 => "Aug",
        9 => "Sep",
        10 => "Oct",
        11 => "Nov",
        _ => "Dec",
    }
}

// Monday 7 January 2019 is day 6946. Each day stands as `07-Jan`. The table stops at Saturday 2 February, and its last cell is empty.
pub(crate) fn table_3(rt: &impl Print) -> io::Result<()> {
    println!(rt; "003, Table 3")?;
    for day in 6946..=6952 {
        print!(rt; "{}", weekday(day))?;
        print!(rt; "{}", gap(day))?;
    }
    for day in 6946..=6972 {
        if let Some(
            Date {
                month,
                day: of_month,
                ..
            },
        ) = Date::of_day(day)
        {
            print!(rt; "{of_month:02}-{}", month_name(month))?;
        }
        print!(rt; "{}", gap(day))?;
    }
    println!(rt)
}
