// The methodology as document 01 fixes it: definitions and theorems. The types that definitions and code share are declared here, and what they say
// of themselves.
#![tactic(auto)]

ghost use Rattle.std.specs.Prelude.{◌≡◌};
ghost use Rattle.method.specs.Verdict.{number, carries};
ghost use Rattle.method.specs.Told.{in_two, method_numbered, asked_of};

// The methods that a request may ask for: High X of Y, and Average X of Y (document 02, order 3).
pub const HIGH_X_OF_Y: u32 = 0;

pub const AVERAGE_X_OF_Y: u32 = 1;

// How many quarters a day has.
pub const QUARTERS: usize = 96;

// How far back a day may lie.
pub const LOOK_BACK: u32 = 45;

// 01: "4,294,967,295 means missing"
pub const MISSING: u32 = 4294967295;

// The methods as an enum.
#[derive(Clone, Copy, Debug, PartialEq, Eq)]
pub enum Method {
    HighXOfY,
    AverageXOfY,
}

// 02, order 3: "an unknown method is 4"
impl TryFrom<u32> for Method {
    type Error = Refusal;

    ghost try_from_gives = { λ number r. r ≡ method_numbered number };

    fn try_from(number: u32) -> Result<Self, Refusal> {
        match number {
            HIGH_X_OF_Y => Ok(Method::HighXOfY),
            AVERAGE_X_OF_Y => Ok(Method::AverageXOfY),
            _ => Err(Refusal::BadRequest),
        }
    }
}

// What is asked: participation start P, event day D, the places s, e and n on the two-day ruler, and the method.
#[derive(Clone, Copy, Debug, PartialEq, Eq)]
pub struct Request {
    pub participation: u32,
    pub event: u32,
    pub s: u32,
    pub e: u32,
    pub n: u32,
    // its number, and no `Method`: an unknown one has to come as far as refusal 4 (`good_request`)
    pub method: u32,
}

impl Request {
    // The method that is worked by: High X of Y but where Average X of Y is asked for.
    pub fn method(self) -> Method
        ensures { result ≡ asked_of self }
    {
        if self.method == AVERAGE_X_OF_Y {
            Method::AverageXOfY
        } else {
            Method::HighXOfY
        }
    }
}

// The refusals of 01, in the order in which they are tested, each with the numbers that it carries; then those of the orders after it, which carry none.
#[derive(Clone, Copy, Debug, PartialEq, Eq)]
pub enum Refusal {
    // 11: the byte offset of the record that is not as laid down
    BadFile(u32),
    // 12: no event at that place
    NoEvent,
    // 1: no days, too many, readings that do not match, or days past the calendar
    BadTable,
    // 2: the day place of the first mark with another bit
    BadMark(u32),
    // 3: the place of the first reading out of range
    BadReading(u32),
    // 4: P, s, e or n out of range, or an unknown method
    BadRequest,
    // 5: the event day is not held
    NotHeld,
    // 6: participation starts after the event day
    NotYetParticipating,
    // 7: the output is too short
    NoRoom,
    // 8: the days before the event that are always enough
    MarginTooShort(u32),
    // 9: the window's size, and the reach
    TooFew { size: u32, reach: u32 },
    // 10: the reach
    NoAdjustmentWindow(u32),
    // 13: no record file says what is to be written
    Unwritable,
    // 14: the list of moves can't be right
    BadMoves,
}

impl Refusal {
    // The paper's number.
    pub fn number(self) -> u32
        ensures { result ≡ number self }
    {
        match self {
            Refusal::BadTable => 1,
            Refusal::BadMark(_) => 2,
            Refusal::BadReading(_) => 3,
            Refusal::BadRequest => 4,
            Refusal::NotHeld => 5,
            Refusal::NotYetParticipating => 6,
            Refusal::NoRoom => 7,
            Refusal::MarginTooShort(_) => 8,
            Refusal::TooFew { .. } => 9,
            Refusal::NoAdjustmentWindow(_) => 10,
            Refusal::BadFile(_) => 11,
            Refusal::NoEvent => 12,
            Refusal::Unwritable => 13,
            Refusal::BadMoves => 14,
        }
    }

    // The numbers that it carries, at most two.
    pub fn carried(self) -> [Option<u32>; 2]
        ensures { result ≡ in_two (carries self) }
    {
        match self {
            Refusal::BadFile(place) | Refusal::BadMark(place) | Refusal::BadReading(place) => [
                Some(place),
                None,
            ],
            Refusal::MarginTooShort(days) => [Some(days), None],
            Refusal::TooFew { size, reach } => [Some(size), Some(reach)],
            Refusal::NoAdjustmentWindow(reach) => [Some(reach), None],
            _ => [None, None],
        }
    }
}
