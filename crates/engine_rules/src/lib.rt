// The rules by which a request's method chooses days, as numbers (document 01, "Choosing the days"; document 02, order 3).
#![tactic(auto)]

ghost use Rattle.std.specs.Prelude.{◌≡◌, cond};
ghost use Rattle.method.specs.AverageXofY.{seven_days};
ghost use Rattle.engine_rules.specs.Steps.{first_ranks, middle_ranks, in_high, in_average, in_numbers};

use calendar_groups::Group;
use method::{Method, Request};

// The order in which spare days fill a shortage: the highest first, or the latest.
#[derive(Clone, Copy, Debug, PartialEq, Eq)]
pub enum SpareOrder {
    Highest,
    Latest,
}

// The rules of a request as numbers: Y; up to how many days spares fill the window, and in which order; and by the window's size, 0 to 10, the
// ranks passed over and the days taken. Two tables, and no functions of a size: `rules_of` promises them, whole.
#[derive(Clone, Copy, Debug, PartialEq, Eq)]
pub struct Rules {
    pub most: u32,
    pub fill: u32,
    pub spares: SpareOrder,
    pub passed: [u32; 11],
    pub taken: [u32; 11],
}

// Rules by which no rank is passed over, and the highest spares fill first.
fn first_ranks(most: u32, fill: u32, taken: [u32; 11]) -> Rules
    ensures { result ≡ first_ranks most fill taken }
{
    Rules {
        most,
        fill,
        spares: SpareOrder::Highest,
        passed: [0; 11],
        taken,
    }
}

// Rules by which the middle ranks are taken, the 5th on of ten and the 2nd on of three to nine, and the latest spares fill first.
fn middle_ranks(most: u32, fill: u32, taken: [u32; 11]) -> Rules
    ensures { result ≡ middle_ranks most fill taken }
{
    Rules {
        most,
        fill,
        spares: SpareOrder::Latest,
        passed: [0, 0, 0, 1, 1, 1, 1, 1, 1, 1, 4],
        taken,
    }
}

// High X of Y on a day of this group.
fn high_x_of_y(group: Group) -> Rules
    ensures { result ≡ in_high group }
{
    match group {
        Group::Weekday => first_ranks(10, 5, [0, 0, 0, 0, 0, 5, 5, 5, 5, 5, 5]),
        Group::Saturday | Group::HolidayGroup => {
            first_ranks(3, 2, [0, 0, 2, 2, 2, 2, 2, 2, 2, 2, 2])
        },
    }
}

// So many days, where there are seven calendar days of data from P on, whatever of them is held; else none.
fn after_seven_days(request: Request, days: u32) -> u32
    ensures { result ≡ cond (seven_days request) days 0 }
{
    if 7 <= request.event.saturating_sub(request.participation) {
        days
    } else {
        0
    }
}

// Average X of Y on a day of this group.
fn average_x_of_y(request: Request, group: Group) -> Rules
    ensures { result ≡ in_average group (seven_days request) }
{
    let two = after_seven_days(request, 2);
    let one = after_seven_days(request, 1);
    match group {
        Group::Weekday => middle_ranks(10, 4, [0, 0, two, two, 2, 2, 2, 2, 2, 2, 2]),
        Group::Saturday | Group::HolidayGroup => {
            middle_ranks(4, 0, [0, one, 2, 2, 2, 2, 2, 2, 2, 2, 2])
        },
    }
}

// The rules of a request on a day of this group.
#[tactic(auto, using(method::proofs::Asked::asked_average, method::proofs::Asked::asked_high), unfolding(crate::specs::Steps::in_numbers))]
pub fn rules_of(request: Request, group: Group) -> Rules
    ensures { result ≡ in_numbers group request }
{
    match request.method() {
        Method::HighXOfY => high_x_of_y(group),
        Method::AverageXOfY => average_x_of_y(request, group),
    }
}
