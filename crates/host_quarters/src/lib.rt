// What a caller written in C is told by include/honeyplank.h of an event's adjustment window and of a ruler quarter, over a directory of rooms. Total: any rooms,
// any quarter, any place of the row.
#![tactic(auto)]

ghost use Rattle.std.specs.Prelude.{◌≡◌, ◌≤◌, ◌<◌, ◌^◌, take};
ghost use Rattle.calendar_groups.specs.Holidays.{group as group_of};
ghost use Rattle.engine_rooms.specs.Rooms.{history_of};
ghost use Rattle.host_answer.specs.Names.{told, by_name};
ghost use Rattle.host_working.specs.Told.{adjustment_numbers, quarter_numbers};
ghost use Rattle.host_quarters.specs.Steps.{numerator_of};

use engine_answer::Chosen;
use engine_rooms::Case;
use host_answer::told;
use method::Method;

// The places of the row of an adjustment window, and of that of a quarter. Numbers and no enum, as the names that C asks by (`host_answer::names`).
const END: u32 = 0;

const OWN: u32 = 1;

const USUAL: u32 = 2;

const SUM: u32 = 0;

const NUMERATOR: u32 = 1;

// A sum that is told.
fn told_sum(sum: u64) -> Option<i64>
    requires { sum < 2 ^ 63 }
    ensures { result ≡ told sum }
{
    Some(sum as i64)
}

// Of the adjustment window: where it ends, A and B.
#[tactic(auto, using(crate::proofs::Picking::some_picked, crate::proofs::Picking::none_picked, crate::proofs::Picking::days_picked, method::proofs::Asked::asked_average, method::proofs::Asked::asked_high, crate::proofs::Ways::none_chosen, crate::proofs::Ways::of_average, crate::proofs::Ways::no_window, crate::proofs::Ways::end_told, crate::proofs::Ways::own_told, crate::proofs::Ways::usual_told, crate::proofs::Ways::no_other))]
pub fn tell_adjustment(case: &Case<'_>, place: u32) -> Option<i64>
    ensures { result ≡ by_name (adjustment_numbers (group_of case.now.moves.now) case.now.request (history_of case.now)) place }
{
    let Ok(chosen) = engine_choice::choose(case) else {
        return None;
    };
    match case.request.method() {
        Method::AverageXOfY => None,
        Method::HighXOfY => {
            let end = engine_quarters::adjustment_end(case)?;
            match place {
                END => told(end),
                OWN => told_sum(engine_quarters::own_sum(case, end)),
                USUAL => told_sum(engine_quarters::usual_sum(case, chosen.days, chosen.count, end)),
                _ => None,
            }
        }
    }
}

// The numerator of an event quarter before the floor, of its S(t) and the chosen days; nothing where there is no adjustment window.
#[tactic(auto, using(method::proofs::Asked::asked_average, method::proofs::Asked::asked_high, crate::proofs::Numerators::by_average, crate::proofs::Numerators::without_window))]
fn tell_numerator(case: &Case<'_>, chosen: Chosen, sum: u64) -> Option<i64>
    requires { (chosen.count ≤ 5) × (sum ≤ 21474836475) }
    ensures { result ≡ numerator_of case.now.request (history_of case.now) (take chosen.count chosen.days) chosen.count sum }
{
    match case.request.method() {
        Method::AverageXOfY => told_sum(sum),
        Method::HighXOfY => {
            let end = engine_quarters::adjustment_end(case)?;
            let count = chosen.count;
            let own = engine_quarters::own_sum(case, end);
            let usual = engine_quarters::usual_sum(case, chosen.days, count, end);
            Some((12 * sum + (count as u64) * own) as i64 - usual as i64)
        }
    }
}

// Of a ruler quarter: S(t), and of an event's quarter the numerator before the floor.
#[tactic(auto, using(crate::proofs::Picking::some_picked, crate::proofs::Picking::none_picked, crate::proofs::Picking::days_picked, crate::proofs::Picking::count_picked, engine_choice::proofs::Requested::chosen_five, crate::proofs::Ways::quarter_none, crate::proofs::Ways::sum_told, crate::proofs::Ways::past_ruler, crate::proofs::Ways::numerator_told, crate::proofs::Ways::outside_event, crate::proofs::Ways::past_quarter))]
pub fn tell_quarter(case: &Case<'_>, t: u32, place: u32) -> Option<i64>
    ensures { result ≡ by_name (quarter_numbers (group_of case.now.moves.now) case.now.request (history_of case.now) t) place }
{
    let Ok(chosen) = engine_choice::choose(case) else {
        return None;
    };
    let days = chosen.days;
    let sum = engine_quarters::quarter_sum(case, days, chosen.count, t);
    match place {
        SUM => if t < day_ruler::end(case.request.event) {
            told_sum(sum)
        } else {
            None
        },
        NUMERATOR => if case.request.s <= t && t < case.request.e {
            tell_numerator(case, chosen, sum)
        } else {
            None
        },
        _ => None,
    }
}
