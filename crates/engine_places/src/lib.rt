// Where the chosen days of an event stand in lent readings.
#![tactic(auto)]

ghost use Rattle.std.specs.Prelude.{◌≡◌, ◌≤◌, min, length, get_or, take};
ghost use Rattle.engine_places.specs.PlaceSteps.{placed_of};

use engine_rooms::Case;

// Where the chosen days stand, how many of the five they are, how many quarters each has, where the adjustment window ends, and which of its
// quarters stands against the event's first. Five places and a count, as `Chosen` has them.
#[derive(Clone, Copy, Debug, PartialEq, Eq)]
pub struct Places {
    pub at: [u32; 5],
    pub count: u32,
    pub quarters: u32,
    pub end: u32,
    pub start: u32,
}

impl Places {
    // Where the days stand that are counted: of more than five, five.
    pub fn starts(&self) -> &[u32]
        ensures list { result.now ≡ take (min self.now.count 5) self.now.at }
        ensures block { result.ref_ptr.0 ≡ self.entry.ref_ptr.0 }
        ensures byte { result.ref_ptr.1 ≡ self.entry.ref_ptr.1 }
        ensures few { length result.now ≤ 5 }
    {
        &self.at[..self.count.min(5) as usize]
    }
}

// Where the readings of the day so many days before the event start; 0 past the directory, as the definition has it.
pub fn start_of(starts: &[u32], back: u32) -> u32
    ensures { result ≡ get_or starts.now back 0 }
{
    starts.get(back as usize).copied().unwrap_or(0)
}

// The places of chosen days, by the directory of the days before an event.
pub fn placed(case: &Case<'_>, days: [u32; 5], count: u32, end: u32) -> Places
    ensures { result ≡ placed_of case.now.request case.now.rooms.now.at days count end }
{
    let request = case.request;
    Places {
        at: days.map(|day| start_of(&case.rooms.at, request.event.saturating_sub(day))),
        count,
        quarters: day_ruler::size(days[0]),
        end,
        start: day_ruler::against(request.event, request.s),
    }
}
