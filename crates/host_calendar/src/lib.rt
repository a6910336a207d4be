// What a caller written in C is told of a day of the calendar by include/honeyplank.h, where no holiday is moved.
#![tactic(auto)]

ghost use Rattle.std.specs.Prelude.{◌≡◌};
ghost use Rattle.host_answer.specs.Names.{by_name};
ghost use Rattle.host_calendar.specs.Calendar.{group_told, fixed_told, easter_told, calendar_row};

use calendar_dates::Date;
use host_answer::{names, told};

// The group of a day.
#[tactic(auto, using(crate::proofs::Ways::group_past, crate::proofs::Ways::group_there))]
fn tell_group(day: u32) -> Option<i64>
    ensures { result ≡ group_told day }
{
    if calendar_dates::LAST_DAY < day {
        return None;
    }
    told(engine_relevant::number(calendar_groups::group_of(&[], day)))
}

// The date of a fixed-date holiday, its month and day as one number.
#[tactic(auto, using(crate::proofs::Ways::fixed_there, crate::proofs::Ways::fixed_none, crate::proofs::Ways::fixed_past))]
fn tell_fixed(day: u32) -> Option<i64>
    ensures { result ≡ fixed_told day }
{
    let date = Date::of_day(day)?;
    if calendar_holidays::is_fixed_holiday(day) {
        Some(host_plain::month_digits(date) as i64)
    } else {
        None
    }
}

// How far from Easter Sunday a holiday lies that is counted from it.
#[tactic(auto, using(crate::proofs::Ways::easter_none))]
fn tell_easter(day: u32) -> Option<i64>
    ensures { result ≡ easter_told day }
{
    if calendar_holidays::is_easter_holiday(day) {
        let place = calendar_dates::place_of(day);
        Some((day as i64) - (calendar_holidays::easter(place.year) as i64))
    } else {
        None
    }
}

// What a day of the calendar tells by name.
#[tactic(auto, unfolding(host_answer::specs::Names::by_name, host_answer::specs::Names::row_from, crate::specs::Calendar::calendar_row))]
pub fn tell_calendar(day: u32, name: u32) -> Option<i64>
    ensures { result ≡ by_name (calendar_row day) name }
{
    match name {
        names::RESULT => told(0),
        names::CALENDAR_GROUP => tell_group(day),
        names::CALENDAR_FIXED => tell_fixed(day),
        names::CALENDAR_EASTER => tell_easter(day),
        _ => None,
    }
}
