// A result as one number for C, by include/honeyplank.h: the place of a day's part or a number of a day of a file, and the length of a file that was
// written or of a listing, or minus the refusal.
#![tactic(auto)]

ghost use Rattle.std.specs.Prelude.{◌≡◌};
ghost use Rattle.host_numbers.specs.Numbers.{number_told, length_told};

use host_answer::told;
use method::Refusal;

// Of a number that may not be there: the place of a day's first reading, the mark or a reading of a day.
pub fn tell_number(found: Option<u32>) -> Option<i64>
    ensures { result ≡ number_told found }
{
    told(found?)
}

// Of a file that was to be written, or of a listing: its length, or minus the number of the refusal.
pub fn tell_length(answer: Result<u32, Refusal>) -> i64
    ensures { result ≡ length_told answer }
{
    match answer {
        Ok(size) => i64::from(size),
        Err(refusal) => -i64::from(refusal.number()),
    }
}
