// The record file of document 01, "Record file, listing, host entry", as definitions and laws: which files are as laid down, and what they say. No code.
#![tactic(auto)]

// What a whole file holds: P, the portfolio number, how many moves, the first day, and how many days and events. Whatever number a byte holds, so many moves
// end within 32 bits.
#[derive(Clone, Copy, Debug, PartialEq, Eq)]
pub struct Shape {
    pub participation: u32,
    pub portfolio: u32,
    pub moves: u8,
    pub first: u32,
    pub days: u32,
    pub events: u32,
}

// Some of the days of a file: from one, counted from 0, up to another, which is not among them.
#[derive(Clone, Copy, Debug, PartialEq, Eq)]
pub struct Span {
    pub start: u32,
    pub end: u32,
}

// A move: the holiday that is moved, and the day that replaces it.
#[derive(Clone, Copy, Debug, PartialEq, Eq)]
pub struct Move {
    pub old: u32,
    pub new: u32,
}
