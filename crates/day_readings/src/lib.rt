// Whether readings are complete, and the first that is out of range. Total functions over slices of any length and any values.
#![tactic(auto)]

ghost use Rattle.std.specs.Prelude.{◌≡◌, ◌≤◌, true};
ghost use Rattle.base_lists.specs.Lists.{all, leading};
ghost use Rattle.method.specs.Table.{present, good_reading};
ghost use Rattle.day_readings.specs.Steps.{GoodBefore, Joined};

use method::{MISSING, QUARTERS};

// Whether a reading is in range, or missing.
fn is_good(reading: u32) -> bool
    ensures { result ≡ good_reading reading }
{
    (reading <= 10000000) | (reading == MISSING)
}

// Every reading and `more`, their bits put together: none of them is above it.
fn joined(block: &[u32], more: u32) -> u32
    ensures { Joined block.now more result }
{
    let mut bits = 0;
    for &reading in block {
        bits |= reading.wrapping_add(more);
    }
    bits
}

// Whether no reading is missing. Where the bits put together are not all set none is; else each reading is asked, without a branch in the loop, so
// that it takes several at a time.
pub fn complete(day: &[u32]) -> bool
    ensures { result ≡ all present day.now }
{
    if joined(day, 0) < MISSING {
        return true;
    }
    let mut all_present = true;
    for &reading in day {
        all_present &= reading != MISSING;
    }
    all_present
}

// Whether every reading of a block is known to be good, without a branch for each; a missing one passes where `more` is 1, and counts as 0.
// The bits of readings above some eight million do not tell: up to 10,000,000 and no further they and 6777215 are below 2^24.
fn block_is_good(block: &[u32], more: u32) -> bool
    requires { more ≤ 1 }
    ensures { result ≡ true → all good_reading block.now ≡ true }
{
    let bits = joined(block, more);
    bits <= 10000000 + more || (bits < 16777216 && joined(block, 6777215) < 16777216)
}

// A place that only good readings stand before: from such a place on it passes over blocks of a day's length that are known to be good.
fn good_blocks(readings: &[u32], start: usize, more: u32) -> usize
    requires { GoodBefore readings.now start × (more ≤ 1) }
    ensures { GoodBefore readings.now result }
{
    let mut at = start;
    while let Some(block) = readings.get(at..at + QUARTERS) {
        if !block_is_good(block, more) {
            return at;
        }
        at += QUARTERS;
    }
    at
}

// The place of the first reading out of range that is not the missing mark; the number of readings where there is none, as `leading` has it.
// Up to the first
// block that has a missing one the test is shorter.
pub fn first_bad_reading(readings: &[u32]) -> usize
    ensures { result ≡ leading good_reading readings.now }
{
    let none_missing = good_blocks(readings, 0, 0);
    let start = good_blocks(readings, none_missing, 1);
    let rest = &readings[start..];
    let bad = rest.iter().position(|&reading| !is_good(reading));
    start + bad.unwrap_or(rest.len())
}
