// Days and dates of document 01, "Days and groups".
#![tactic(auto)]

ghost use Rattle.std.specs.Prelude.{◌≡◌, ◌+◌, ◌≤◌, ◌<◌, ◌&&◌, leb, take};
ghost use Rattle.base_lists.specs.Lists.{sum_of};
ghost use Rattle.calendar_dates.specs.Days.{in_calendar, leap as leap_of, months, new_year};
ghost use Rattle.calendar_dates.specs.Steps.{place_of};

// A date of the Gregorian calendar, as written: year, month from 1, day from 1.
#[derive(Clone, Copy, Debug, PartialEq, Eq)]
pub struct Date {
    pub year: u32,
    pub month: u32,
    pub day: u32,
}

// Where a day lies in its year: the year, 1 in a leap year, and how many days of it have passed. `leap` is a number, since it is added and taken
// away where holidays are looked for.
#[derive(Clone, Copy, Debug, PartialEq, Eq)]
pub struct Place {
    pub year: u32,
    pub leap: u32,
    pub passed: u32,
}

const FIRST_YEAR: u32 = 2000;

const LAST_YEAR: u32 = 2099;

// 31 December 2099.
pub const LAST_DAY: u32 = 36524;

// The days of the first months of a common year, from none of them to all twelve.
const DAYS: [u32; 13] = [0, 31, 59, 90, 120, 151, 181, 212, 243, 273, 304, 334, 365];

// 1 in a leap year.
#[tactic(auto, unfolding(crate::specs::Days::leap))]
fn leap(year: u32) -> u32
    ensures { (result ≡ leap_of year) × (result ≤ 1) }
{
    if year % 4 == 0 { 1 } else { 0 }
}

// The day number of 1 January.
#[tactic(auto, unfolding(crate::specs::Days::new_year))]
fn new_year(year: u32) -> u32
    requires { (2000 ≤ year) × (year ≤ 2099) }
    ensures { (result ≡ new_year year) × (result ≤ 36160) }
{
    365 * (year - FIRST_YEAR) + (year - 1997) / 4
}

// Whether a month is one of the calendar.
fn is_month(year: u32, month: u32) -> bool
    ensures { result ≡ (in_calendar year && (leb 1 month && leb month 12)) }
{
    (FIRST_YEAR..=LAST_YEAR).contains(&year) && (1..=12).contains(&month)
}

// The days of the first `count` months of a year.
fn days_of_months(year: u32, count: u32) -> u32
    requires { count ≤ 12 }
    ensures { (result ≡ sum_of (take count (months year))) × (result ≤ 366) }
{
    let common = DAYS[count as usize];
    if count < 2 {
        common
    } else {
        common + leap(year)
    }
}

// Where a day lies in its year. Four years have 1,461 days, so that four times the day gives the year and what has passed of it.
#[tactic(auto, using(crate::proofs::Dates::passed_is), unfolding(crate::specs::Steps::place_of, crate::specs::Days::year_of))]
pub fn place_of(day: u32) -> Place
    ensures { result ≡ place_of day }
{
    let fourfold = 4 * u64::from(day);
    let year = FIRST_YEAR + (fourfold / 1461) as u32;
    Place {
        year,
        leap: leap(year),
        passed: (fourfold % 1461 / 4) as u32,
    }
}

// How many months of the year are over after `passed` days: as many as there are times 32 days in these, or one more.
fn months_over(year: u32, passed: u32) -> u32
    requires { passed < sum_of (take 12 (months year)) }
    ensures { (result < 12) × (sum_of (take result (months year)) ≤ passed) × (passed < sum_of (take (result + 1) (months year))) }
{
    let over = passed / 32;
    if passed < days_of_months(year, over + 1) {
        over
    } else {
        over + 1
    }
}

impl Date {
    ghost use Rattle.calendar_dates.specs.Days.{numbered, dated};

    // The day number of a date, where there is such a date from 2000 to 2099.
    pub fn day_number(self) -> Option<u32>
        ensures { result ≡ numbered self }
    {
        let Date { year, month, day } = self;
        if !is_month(year, month) {
            return None;
        }
        let before = days_of_months(year, month - 1);
        let length = days_of_months(year, month) - before;
        if !(1..=length).contains(&day) {
            return None;
        }
        Some(new_year(year) + before + (day - 1))
    }

    // The date of a day number, where the day does not lie past the calendar.
    pub fn of_day(day: u32) -> Option<Date>
        ensures { result ≡ dated day }
    {
        if LAST_DAY < day {
            return None;
        }
        let Place { year, passed, .. } = place_of(day);
        let over = months_over(year, passed);
        Some(Date {
            year,
            month: over + 1,
            day: passed - days_of_months(year, over) + 1,
        })
    }
}
