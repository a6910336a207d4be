// What a call answers where it is not refused (document 01, "Refusal numbers"): chosen days, denominator and adjustment. No code.
#![tactic(auto)]

// The chosen days in rank order, the first `count` of the five, and the reach. Five places and a count: 01's "array of five day numbers", with no heap.
#[derive(Clone, Copy, Debug, PartialEq, Eq)]
pub struct Chosen {
    pub days: [u32; 5],
    pub count: u32,
    pub reach: u32,
}

// What a call answers where it is not refused.
#[derive(Clone, Copy, Debug, PartialEq, Eq)]
pub struct Answer {
    pub chosen: Chosen,
    // what every numerator is over: 12N, or the number averaged
    pub denominator: u32,
    // the adjustment's numerator
    pub adjustment: i64,
}
