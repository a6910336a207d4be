// Which days are relevant to an event, and how far back they go (document 01, "Choosing the days"). The calendar and the
// list of moves alone decide: no reading and no mark plays a part.
#![tactic(auto)]

ghost use Rattle.std.specs.Prelude.{◌≡◌};
ghost use Rattle.calendar_groups.specs.Holidays.{group as group_of};
ghost use Rattle.method.specs.Relevant.{group_number, same_group};
ghost use Rattle.method.specs.Method.{whole_reach};
ghost use Rattle.method.specs.Requested.{method_of};
ghost use Rattle.engine_relevant.specs.Steps.{relevant_to};

use calendar_groups::Group;
use method::Request;

// A group's number.
pub fn number(of: Group) -> u32
    ensures { result ≡ group_number of }
{
    match of {
        Group::Weekday => 0,
        Group::Saturday => 1,
        Group::HolidayGroup => 2,
    }
}

// Whether a day is of a group. Its day of the week comes first, and spares much of the calendar's work.
fn in_group(moves: &[u32], group: Group, day: u32) -> bool
    ensures { result ≡ same_group (group_of moves.now day) group }
{
    let weekday = day % 7;
    match group {
        Group::Weekday => 2 <= weekday && !calendar_groups::is_holiday(moves, day),
        Group::Saturday => weekday == 0 && !calendar_groups::is_holiday(moves, day),
        Group::HolidayGroup => weekday == 1 || calendar_groups::is_holiday(moves, day),
    }
}

// Whether a day is relevant to an event of this group, wherever it lies.
pub fn relevant(moves: &[u32], request: Request, group: Group, day: u32) -> bool
    ensures { result ≡ relevant_to (group_of moves.now) group request day }
{
    if day < request.participation {
        return false;
    }
    if group == Group::Weekday && u64::from(day) + 1 == u64::from(request.event) {
        return false;
    }
    in_group(moves, group, day)
}

// How far back the oldest relevant day lies; 0 where none is relevant, as the definition has it. It is looked for from the farthest day on. A `find` over the same days took a tenth
// longer, and a range with its end, `1..=farthest`, some hundredths.
pub fn whole_reach(moves: &[u32], request: Request) -> u32
    ensures { result ≡ whole_reach (method_of (group_of moves.now) request) }
{
    let event = request.event;
    let group = calendar_groups::group_of(moves, event);
    let farthest = method::LOOK_BACK.min(event);
    for back in (1..farthest + 1).rev() {
        if relevant(moves, request, group, event - back) {
            return back;
        }
    }
    0
}
