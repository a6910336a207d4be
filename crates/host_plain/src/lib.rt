// What a caller written in C is told by include/honeyplank.h with no table and no file: the day of a date, the date of a day, the version.
#![tactic(auto)]

ghost use Rattle.std.specs.Prelude.{◌≡◌};
ghost use Rattle.calendar_dates.specs.Days.{numbered, dated};
ghost use Rattle.host_plain.specs.Plain.{date_written, day_told, month_digits, date_digits, date_told, version as version_of};

use calendar_dates::Date;
use host_answer::told;

// The version of include/honeyplank.h that these entries are of.
const VERSION: u32 = 700;

// The day number of a date.
pub fn day_of(year: u32, month: u32, day: u32) -> Option<i64>
    ensures { result ≡ day_told (numbered (date_written year month day)) }
{
    told(Date { year, month, day }.day_number()?)
}

// A date's month and day as one number.
pub fn month_digits(date: Date) -> u64
    ensures { result ≡ month_digits date }
{
    100 * u64::from(date.month) + u64::from(date.day)
}

// A date as one number.
fn digits_of(date: Date) -> u64
    ensures { result ≡ date_digits date }
{
    10000 * u64::from(date.year) + month_digits(date)
}

// The date of a day number.
pub fn date_of(day: u32) -> Option<i64>
    ensures { result ≡ date_told (dated day) }
{
    let date = Date::of_day(day)?;
    Some(digits_of(date) as i64)
}

pub fn version() -> u32
    ensures { result ≡ version_of }
{
    VERSION
}
