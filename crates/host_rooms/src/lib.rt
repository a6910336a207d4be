// What a caller written in C is told by include/honeyplank.h of the working of an event, by name, over a directory of rooms. Total: any rooms, any name.
#![tactic(auto)]

ghost use Rattle.std.specs.Prelude.{◌≡◌};
ghost use Rattle.calendar_groups.specs.Holidays.{group as group_of};
ghost use Rattle.engine_rooms.specs.Rooms.{history_of};
ghost use Rattle.host_answer.specs.Names.{by_name};
ghost use Rattle.host_working.specs.Told.{window_numbers, working_row};
ghost use Rattle.host_rooms.specs.Steps.{window_row};

use engine_rooms::Case;
use engine_window::Window;
use host_answer::{names, told};

// The place of the event's own group in the row of a window, and those of a window's own numbers after it. Numbers and no enum, as the
// names that C asks by (`host_answer::names`).
const GROUP: u32 = 0;

const MOST: u32 = 0;

const SIZE: u32 = 1;

const PASSED: u32 = 2;

const TAKEN: u32 = 3;

// Of a window: Y, its size, and the ranks passed over and taken.
#[tactic(auto, using(crate::proofs::Rows::no_size), unfolding(host_answer::specs::Names::by_name, crate::specs::Steps::window_row))]
fn tell_size(window: Window, place: u32) -> Option<i64>
    ensures { result ≡ by_name (window_row window) place }
{
    if place == MOST {
        return told(window.most);
    }
    if window.short {
        return None;
    }
    match place {
        SIZE => told(window.size),
        PASSED => told(window.passed),
        TAKEN => told(window.taken),
        _ => None,
    }
}

// Of the event's own group, and of its window.
#[tactic(auto, using(crate::proofs::Rows::group_told, crate::proofs::Rows::size_told))]
fn tell_window(case: &Case<'_>, place: u32) -> Option<i64>
    ensures { result ≡ by_name (window_numbers (group_of case.now.moves.now) case.now.request (history_of case.now)) place }
{
    if place == GROUP {
        return told(engine_relevant::number(calendar_groups::group_of(
            case.moves,
            case.request.event,
        )));
    }
    let window = engine_window::of_event(case);
    tell_size(window, place - 1)
}

// The number of a name; `at` is how many days before the event a day lies, or a ruler quarter, by what is asked.
#[tactic(auto, using(crate::proofs::Rows::result_told, crate::proofs::Rows::window_told, crate::proofs::Rows::adjustment_told, crate::proofs::Rows::day_told, crate::proofs::Rows::quarter_told, crate::proofs::Rows::none_told))]
pub fn tell_working(case: &Case<'_>, at: u32, name: u32) -> Option<i64>
    ensures { result ≡ by_name (working_row (group_of case.now.moves.now) case.now.request (history_of case.now) at) name }
{
    match name {
        names::RESULT => told(0),
        names::WORKING_GROUP..=names::WORKING_TAKEN => tell_window(
            case,
            name - names::WORKING_GROUP,
        ),
        names::WORKING_END..=names::WORKING_B => host_quarters::tell_adjustment(
            case,
            name - names::WORKING_END,
        ),
        names::BACK_DAY..=names::BACK_CHOSEN => host_look_back::tell_day(
            case,
            at,
            name - names::BACK_DAY,
        ),
        names::QUARTER_S..=names::QUARTER_NUMERATOR => host_quarters::tell_quarter(
            case,
            at,
            name - names::QUARTER_S,
        ),
        _ => None,
    }
}
