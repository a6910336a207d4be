// Rooms: where the days of an event's look back stand in lent readings. A table, a ring and a shared store make a directory of rooms; what is
// worked out from it is the same.
#![tactic(auto)]

ghost use Rattle.std.specs.Prelude.{◌-◌, ◌≤◌, length, get_or};
ghost use Rattle.method.specs.Table.{most_quarters, size as size_of};
ghost use Rattle.engine_rooms.specs.Steps.{ReadingsAt};

use method::Request;

// How many days a directory is of: D and the look-back.
pub const DAYS: usize = 46;

// Where the days from D-45 to D stand in lent readings, and their marks: entry i is day D - i. So many of them are held, D first: 0 where D is
// not. A store fills two arrays as easily as one of pairs, and `Agree`, `room_day` and `held_rooms` are stated of these and of this 0.
#[derive(Clone, Copy, Debug, PartialEq, Eq)]
pub struct Directory {
    pub at: [u32; DAYS],
    pub marks: [u8; DAYS],
    pub held: u32,
}

// An event to be worked out by a list of moves, over the rooms of D and of the days before it, which stand in lent readings.
#[derive(Clone, Copy, Debug, PartialEq, Eq)]
pub struct Case<'a> {
    pub moves: &'a [u32],
    pub request: Request,
    pub rooms: &'a Directory,
    pub readings: &'a [u32],
}

impl<'a> Case<'a> {
    // The readings of the day so many days before the event, where its room has them.
    #[tactic(auto, using(crate::proofs::Parts::part_most))]
    pub fn part(&self, back: u32) -> &'a [u32]
        ensures part { ReadingsAt (size_of (self.now.request.event - back)) self.now.readings.now (get_or self.now.rooms.now.at back 0) self.now.readings.ref_ptr result.now result.ref_ptr }
        ensures few { length result.now ≤ most_quarters }
    {
        let at = self.rooms.at.get(back as usize).copied().unwrap_or(0);
        let size = day_ruler::size(self.request.event.saturating_sub(back));
        readings_at(self.readings, at, size)
    }
}

// The `size` readings that start at a place, as that part of the lent readings itself; none where they run past the end.
pub fn readings_at<'a>(readings: &'a [u32], at: u32, size: u32) -> &'a [u32]
    ensures { ReadingsAt size readings.now at readings.entry.ref_ptr result.now result.ref_ptr }
{
    let start = at as usize;
    let end = start + (size as usize);
    if end <= readings.len() {
        &readings[start..end]
    } else {
        &readings[..0]
    }
}
