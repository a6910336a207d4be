// Easter and the fourteen holidays of a year, of document 01, "Days and groups". None is known past the calendar.
#![tactic(auto)]

mod easter_sundays;

ghost use Rattle.std.specs.Prelude.{◌≡◌, ◌+◌, ◌≤◌, [], ◌∷◌};
ghost use Rattle.base_lists.specs.Lists.{member};
ghost use Rattle.calendar_holidays.specs.Yearly.{easter_d, easter_e, easter as easter_of, is_fixed_holiday, is_easter_holiday};
ghost use Rattle.calendar_holidays.specs.Steps.{month_and_day};

use crate::easter_sundays::EASTER_SUNDAYS;
use calendar_dates::{Date, Place};

// Easter Sunday as month and day, looked up: 505 is 5 May.
fn easter_sunday(year: u32) -> u16
    requires { (2000 ≤ year) × (year ≤ 2099) }
    ensures { result ≡ month_and_day (easter_of year) }
{
    EASTER_SUNDAYS[(year - 2000) as usize]
}

// How many days after 1 March Easter Sunday lies. It is in April, whose first day is 31 after it, or in May, whose first is 61 after it.
fn easter_from_march(year: u32) -> u32
    requires { (2000 ≤ year) × (year ≤ 2099) }
    ensures { (result ≡ 34 + easter_d year + easter_e year) × (result ≤ 69) }
{
    let sunday = u32::from(easter_sunday(year));
    if sunday < 500 {
        sunday - 401 + 31
    } else {
        sunday - 501 + 61
    }
}

// The day number of Easter Sunday, and 0 outside the calendar, as the definition `easter` has it.
pub fn easter(year: u32) -> u32
    ensures { result ≡ easter_of year }
{
    let march = Date {
        year,
        month: 3,
        day: 1,
    };
    match march.day_number() {
        Some(day) => day + easter_from_march(year),
        None => 0,
    }
}

// Whether so many days of the year have passed on one of its two holidays before March.
#[tactic(auto, unfolding(base_lists::specs::Lists::member))]
fn is_before_march(passed: u32) -> bool
    ensures { result ≡ member passed (0 ∷ 5 ∷ []) }
{
    matches!(passed, 0 | 5)
}

// Whether so many days of a common year have passed on one of its six holidays after February that have a fixed date. Without a branch, so that
// several pairs of a list are tested at a time: with `matches!` a `fold` over 16 of them took twice as long.
#[tactic(auto, unfolding(base_lists::specs::Lists::member))]
fn is_after_february(passed: u32) -> bool
    ensures { result ≡ member passed (83 ∷ 120 ∷ 226 ∷ 300 ∷ 358 ∷ 359 ∷ []) }
{
    (passed == 83)
        | (passed == 120)
        | (passed == 226)
        | (passed == 300)
        | (passed == 358)
        | (passed == 359)
}

// Whether one of the six holidays that are counted from Easter Sunday lies so many days after Clean Monday.
#[tactic(auto, unfolding(base_lists::specs::Lists::member))]
fn is_from_clean_monday(after: u32) -> bool
    ensures { result ≡ member after (0 ∷ 46 ∷ 47 ∷ 48 ∷ 49 ∷ 98 ∷ []) }
{
    matches!(after, 0 | 46 | 47 | 48 | 49 | 98)
}

// `day` is one of the eight holidays of its year that have a fixed date: two before March, six after February. Not one function with the other six,
// which are counted from another day and looked for among other days: it would be no plainer.
pub fn is_fixed_holiday(day: u32) -> bool
    ensures { result ≡ is_fixed_holiday day }
{
    if calendar_dates::LAST_DAY < day {
        return false;
    }
    let Place { leap, passed, .. } = calendar_dates::place_of(day);
    if passed < 59 {
        is_before_march(passed)
    } else {
        is_after_february(passed - leap)
    }
}

// `day` is one of the six holidays of its year that are counted from Easter Sunday. They begin with Clean Monday, 48 days before it: 11 is
// the 59 days before March of a common year less those 48. Easter is looked up only where they can lie, from 15 February to the end of June.
pub fn is_easter_holiday(day: u32) -> bool
    ensures { result ≡ is_easter_holiday day }
{
    if calendar_dates::LAST_DAY < day {
        return false;
    }
    let Place { year, leap, passed } = calendar_dates::place_of(day);
    if passed < 45 || 178 < passed {
        return false;
    }
    let monday = 11 + leap + easter_from_march(year);
    monday <= passed && is_from_clean_monday(passed - monday)
}
