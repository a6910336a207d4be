// Of a day of the look-back why it is used or is not, and its sum over the event, over a directory of rooms (document 01, "Choosing the days"). Total:
// for any rooms, and any number of days before the event.
#![tactic(auto)]

ghost use Rattle.std.specs.Prelude.{◌≡◌, ◌+◌, ◌-◌, ◌^◌, ◌≤◌, ◌<◌, length, IfSome};
ghost use Rattle.calendar_groups.specs.Holidays.{group as group_of};
ghost use Rattle.method.specs.Table.{most_quarters};
ghost use Rattle.method_working.specs.Working.{reason as reason_for, reason_of, summed};
ghost use Rattle.engine_rooms.specs.Rooms.{held_rooms, history_of};
ghost use Rattle.engine_judging.specs.Steps.{day_from};
ghost use Rattle.engine_reasons.specs.Steps.{held_reason, held_sum, sum_found};

use calendar_groups::Group;
use engine_rooms::{Case, Directory};
use method::Request;
use method_working::Reason;

// How many days are held, the event day among them.
#[tactic(auto, unfolding(engine_rooms::specs::Rooms::held_rooms))]
fn held_rooms(request: Request, rooms: &Directory) -> u32
    ensures held { result ≡ held_rooms request rooms.now }
    ensures few { result ≤ 46 }
    ensures within { result ≤ request.event + 1 }
{
    rooms.held.min(method::LOOK_BACK.min(request.event) + 1)
}

// Why a relevant day that is held is used or is not.
#[tactic(auto, unfolding(method_working::specs::Working::reason_of, method::specs::Eligible::complete))]
fn reason_of(mark: u8, part: &[u32]) -> Reason
    ensures { result ≡ reason_of (day_from mark part.now) }
{
    if !day_readings::complete(part) {
        Reason::ReadingMissing
    } else if day_marks::is_out(mark) {
        Reason::Outage
    } else if day_marks::is_event(mark) {
        Reason::EventRecorded
    } else {
        Reason::Eligible
    }
}

// Why a relevant day is used or is not, by its room.
#[tactic(auto, using(crate::proofs::Held::not_held, crate::proofs::Held::when_held))]
fn in_room(case: &Case<'_>, back: u32) -> Reason
    requires { back ≤ case.now.request.event }
    ensures { result ≡ held_reason case.now.request (history_of case.now) back }
{
    if held_rooms(case.request, case.rooms) <= back {
        return Reason::NotHeld;
    }
    reason_of(case.rooms.marks[back as usize], case.part(back))
}

// Why the day `back` days before the event is used or is not.
#[tactic(auto, using(crate::proofs::Reasons::ways_out))]
pub fn reason(case: &Case<'_>, back: u32) -> Reason
    ensures { result ≡ reason_for (group_of case.now.moves.now) case.now.request (history_of case.now) back }
{
    let request = case.request;
    let day = request.event.saturating_sub(back);
    if request.event < back || day < request.participation {
        return Reason::TooEarly;
    }
    let own = calendar_groups::group_of(case.moves, request.event);
    if calendar_groups::group_of(case.moves, day) != own {
        Reason::AnotherGroup
    } else if own == Group::Weekday && back == 1 {
        Reason::DayBefore
    } else {
        in_room(case, back)
    }
}

// The sum of the readings of a held day over the event's own quarters; none where one of them is missing.
#[tactic(auto, using(crate::proofs::Sums::summed_missing, crate::proofs::Sums::summed_whole))]
fn sum_of(request: Request, part: &[u32]) -> Option<u64>
    requires { length part.now ≤ most_quarters }
    ensures sum { result ≡ sum_found (held_sum request (day_from 0 part.now)) }
    ensures fits { IfSome result (λ x. x < 2 ^ 63) }
{
    let quarters = engine_judging::event_quarters(request, part);
    if day_readings::complete(quarters) {
        Some(base_sums::sum(quarters))
    } else {
        None
    }
}

// The sum of the day `back` days before the event over the event's own quarters; none where it is not held, or where one of them is missing.
#[tactic(auto, using(crate::proofs::Sums::sum_none, crate::proofs::Sums::sum_held))]
pub fn sum(case: &Case<'_>, back: u32) -> Option<u64>
    ensures sum { result ≡ sum_found (summed case.now.request (history_of case.now) back) }
    ensures fits { IfSome result (λ x. x < 2 ^ 63) }
{
    if held_rooms(case.request, case.rooms) <= back {
        return None;
    }
    sum_of(case.request, case.part(back))
}
