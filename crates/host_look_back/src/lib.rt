// What a caller written in C is told by include/honeyplank.h of a day of an event's look-back, over a directory of rooms. Total: any rooms, any day, any place
// of the row.
#![tactic(auto)]

ghost use Rattle.std.specs.Prelude.{◌≡◌, ◌==◌, ◌<◌, ◌^◌, take, IfSome};
ghost use Rattle.std.specs.List.{position};
ghost use Rattle.calendar_groups.specs.Holidays.{group as group_of};
ghost use Rattle.method_working.specs.Working.{rank_in};
ghost use Rattle.engine_rooms.specs.Rooms.{history_of};
ghost use Rattle.host_answer.specs.Names.{by_name};
ghost use Rattle.host_working.specs.Told.{reason_number, day_numbers};
ghost use Rattle.host_look_back.specs.Steps.{number_told, group_told, sum_told, rank_told, chosen_told, rank_there, takes};

use engine_rooms::Case;
use engine_window::Window;
use host_answer::told;
use method_working::Reason;

// The places of the row of a day. Numbers and no enum, as the names that C asks by (`host_answer::names`).
const DAY: u32 = 0;

const GROUP: u32 = 1;

const REASON: u32 = 2;

const SUM: u32 = 3;

const RANK: u32 = 4;

const CHOSEN: u32 = 5;

// The number of a day, where it is not below 0.
fn tell_number(event: u32, back: u32) -> Option<i64>
    ensures { result ≡ number_told event back }
{
    told(event.checked_sub(back)?)
}

// The group of a day, where it is not below 0.
fn tell_group(moves: &[u32], event: u32, back: u32) -> Option<i64>
    ensures { result ≡ group_told (group_of moves.now) event back }
{
    let day = event.checked_sub(back)?;
    told(engine_relevant::number(calendar_groups::group_of(moves, day)))
}

// The number of a reason.
fn reason_number(reason: Reason) -> u32
    ensures { result ≡ reason_number reason }
{
    match reason {
        Reason::TooEarly => 1,
        Reason::AnotherGroup => 2,
        Reason::DayBefore => 3,
        Reason::NotHeld => 4,
        Reason::ReadingMissing => 5,
        Reason::Outage => 6,
        Reason::EventRecorded => 7,
        Reason::Eligible => 8,
    }
}

// A sum, where there is one.
fn tell_sum(sum: Option<u64>) -> Option<i64>
    requires { IfSome sum (λ x. x < 2 ^ 63) }
    ensures { result ≡ sum_told sum }
{
    Some(sum? as i64)
}

// Where a day stands among the first `size`, counted from 0.
fn place_in(days: &[u32], size: usize, day: u32) -> Option<usize>
    ensures { result ≡ position (λ other. other == day) (take size days.now) }
{
    days.iter().take(size).position(|other| *other == day)
}

// The rank of a day among the first `size` of ten days by rank; 0 where it is none of them, which is what C is told.
#[tactic(auto, using(crate::proofs::Ranking::rank_here, crate::proofs::Ranking::rank_none))]
fn rank_in(days: [u32; 10], size: u32, day: u32) -> u32
    ensures { result ≡ rank_in (take size days) day }
{
    match place_in(&days, size as usize, day) {
        Some(place) => place as u32 + 1,
        None => 0,
    }
}

// The rank in a window of the day `back` days before the event.
#[tactic(auto, unfolding(crate::specs::Steps::rank_there))]
fn rank_of(window: Window, event: u32, back: u32) -> u32
    ensures { result ≡ rank_there window event back }
{
    match event.checked_sub(back) {
        Some(day) => rank_in(window.days, window.size, day),
        None => 0,
    }
}

// Whether a rank is taken.
fn is_taken(window: Window, rank: u32) -> bool
    ensures { result ≡ takes window rank }
{
    let last = u64::from(window.passed) + u64::from(window.taken);
    window.passed < rank && u64::from(rank) <= last
}

// The rank of a day, where the days held can tell the window.
#[tactic(auto, using(crate::proofs::Windows::rank_untold, crate::proofs::Windows::rank_told_lem))]
fn tell_rank(case: &Case<'_>, back: u32) -> Option<i64>
    ensures { result ≡ rank_told (group_of case.now.moves.now) case.now.request (history_of case.now) back }
{
    let window = engine_window::of_event(case);
    if window.short {
        return None;
    }
    told(rank_of(window, case.request.event, back))
}

// Whether a day is chosen, 1 or 0, where the days held can tell the window.
#[tactic(auto, using(crate::proofs::Windows::chosen_untold))]
fn tell_chosen(case: &Case<'_>, back: u32) -> Option<i64>
    ensures { result ≡ chosen_told (group_of case.now.moves.now) case.now.request (history_of case.now) back }
{
    let window = engine_window::of_event(case);
    if window.short {
        return None;
    }
    if is_taken(window, rank_of(window, case.request.event, back)) {
        told(1)
    } else {
        told(0)
    }
}

// What C is told of the day `back` days before an event, by its place in the row; nothing outside the look-back.
#[tactic(auto, using(crate::proofs::Ways::outside, crate::proofs::Ways::past_row, crate::proofs::Ways::at_day, crate::proofs::Ways::at_group, crate::proofs::Ways::at_reason, crate::proofs::Ways::at_sum, crate::proofs::Ways::at_rank, crate::proofs::Ways::at_chosen))]
pub fn tell_day(case: &Case<'_>, back: u32, place: u32) -> Option<i64>
    ensures { result ≡ by_name (day_numbers (group_of case.now.moves.now) case.now.request (history_of case.now) back) place }
{
    if back < 1 || method::LOOK_BACK < back {
        return None;
    }
    match place {
        DAY => tell_number(case.request.event, back),
        GROUP => tell_group(case.moves, case.request.event, back),
        REASON => told(reason_number(engine_reasons::reason(case, back))),
        SUM => tell_sum(engine_reasons::sum(case, back)),
        RANK => tell_rank(case, back),
        CHOSEN => tell_chosen(case, back),
        _ => None,
    }
}
