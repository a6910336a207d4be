// The window of an event over a directory of rooms (document 01, "Choosing the days"): its days by rank, and which ranks are chosen. The choice is made
// from the same row.
#![tactic(auto)]

ghost use Rattle.std.specs.Prelude.{◌≡◌, ◌≤◌, length};
ghost use Rattle.calendar_groups.specs.Holidays.{group as group_of};
ghost use Rattle.method.specs.Method.{whole_reach};
ghost use Rattle.method.specs.Requested.{method_of};
ghost use Rattle.engine_rooms.specs.Rooms.{history_of};
ghost use Rattle.engine_window.specs.Steps.{window_of, row_window};

use engine_rooms::Case;
use engine_rules::Rules;

// The window of an event: whether the days held can't tell it (refusal 8), Y, its days by rank, how many they are, and of its ranks how many are passed
// over and taken. It is not an Option by `short`: days and ranks of a short window are promised too, and ten places for the days
// (`window_of`). It begins as `engine_choice::choose` does: one function for both would hand rules and what was found on by value, and be no plainer.
#[derive(Clone, Copy, Debug, PartialEq, Eq)]
pub struct Window {
    pub short: bool,
    pub most: u32,
    pub days: [u32; 10],
    pub size: u32,
    pub passed: u32,
    pub taken: u32,
}

// The window of the words of its days, by rank.
fn of_row(event: u32, rules: Rules, row: &[u64], short: bool) -> Window
    requires { length row.now ≤ 10 }
    ensures { result ≡ row_window event rules row.now (length row.now) short }
{
    let size = row.len();
    Window {
        short,
        most: rules.most,
        days: engine_choice::days_of(event, row),
        size: size as u32,
        passed: rules.passed[size],
        taken: rules.taken[size],
    }
}

// The window of an event, by rank. Where the eligible days do not fill it, spare days are put in, and a relevant day that is not held may have been
// eligible.
pub fn of_event(case: &Case<'_>) -> Window
    ensures { result ≡ window_of (method_of (group_of case.now.moves.now) case.now.request) (history_of case.now) }
{
    let event = case.request.event;
    let group = calendar_groups::group_of(case.moves, event);
    let rules = engine_rules::rules_of(case.request, group);
    let found = engine_look_back::look(case, group, rules.most, rules.spares);
    if found.eligible.count < rules.most {
        let before = case.rooms.held.saturating_sub(1);
        let short = before < engine_relevant::whole_reach(case.moves, case.request);
        let window = engine_choice::filled(rules, found);
        of_row(event, rules, &window.words[..window.count as usize], short)
    } else {
        of_row(
            event,
            rules,
            &found.eligible.words[..rules.most as usize],
            false,
        )
    }
}
