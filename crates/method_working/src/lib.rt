// The working of an event: what a person needs to rework it with a pencil, as definitions, and that it leads to the answer. No code.
#![tactic(auto)]

// Why a day of the look-back is used or is not: the first of these that holds.
#[derive(Clone, Copy, Debug, PartialEq, Eq)]
pub enum Reason {
    // below day 0, or before P
    TooEarly,
    AnotherGroup,
    // D-1, where D is a weekday
    DayBefore,
    NotHeld,
    ReadingMissing,
    Outage,
    EventRecorded,
    Eligible,
}
