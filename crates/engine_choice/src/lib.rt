// The choice of days over a directory of rooms: the window, the chosen days and the reach (document 01, "Choosing the days"). A table, a ring and
// a shared store make a directory; the choice is the same function.
#![tactic(auto)]

ghost use Rattle.std.specs.Prelude.{◌≡◌, ◌≤◌, ◌<◌, map};
ghost use Rattle.calendar_groups.specs.Holidays.{group as group_of};
ghost use Rattle.method.specs.Method.{whole_reach};
ghost use Rattle.method.specs.Requested.{method_of};
ghost use Rattle.engine_rooms.specs.Rooms.{history_of};
ghost use Rattle.engine_ranking.specs.Steps.{padded};
ghost use Rattle.engine_rules.specs.Steps.{Sound};
ghost use Rattle.engine_choice.specs.Steps.{choice_of, word_day, picked, filled_of, among_few};

use calendar_groups::Group;
use engine_answer::Chosen;
use engine_look_back::Found;
use engine_ranking::Ranking;
use engine_rooms::Case;
use engine_rules::Rules;
use method::Refusal;

// The day of a word.
pub fn day_of(event: u32, word: u64) -> u32
    ensures { result ≡ word_day event word }
{
    let back = engine_words::NEAREST.saturating_sub(engine_words::nearness_of(word));
    event.saturating_sub(back)
}

// The days of a row's words in so many places, with noughts after the last; words past the places have none.
pub fn days_of<const N: usize>(event: u32, words: &[u64]) -> [u32; N]
    ensures { result ≡ padded N (map (word_day event) words.now) }
{
    let words = &words[..N.min(words.len())];
    let mut days = [0; N];
    for (i, &word) in words.iter().enumerate() {
        days[i] = day_of(event, word);
    }
    days
}

// The choice from the ranked row of a window of so many days.
#[tactic(auto, unfolding(crate::specs::Steps::picked))]
fn pick(event: u32, rules: Rules, row: [u64; 10], size: u32, reach: u32) -> Result<Chosen, Refusal>
    requires { Sound rules × (size ≤ 10) }
    ensures { result ≡ picked event rules row size reach }
{
    let count = rules.taken[size as usize];
    if count == 0 {
        return Err(Refusal::TooFew { size, reach });
    }
    let passed = rules.passed[size as usize] as usize;
    Ok(Chosen {
        days: days_of(event, &row[passed..passed + (count as usize)]),
        count,
        reach,
    })
}

// The eligible days found, with the spare days that fill a shortage.
pub fn filled(rules: Rules, found: Found) -> Ranking
    ensures { result ≡ filled_of rules found }
{
    let shortage = rules.fill.saturating_sub(found.eligible.count);
    let fillers = shortage.min(found.spare.count);
    let mut window = found.eligible;
    window.insert_all(&found.spare, fillers as usize);
    window
}

// The choice where the eligible days do not fill the window: spare days are put in, and the reach is that of all relevant days.
#[tactic(auto, unfolding(crate::specs::Steps::among_few))]
fn choose_among_few(
    case: &Case<'_>,
    rules: Rules,
    found: Found,
    before: u32,
) -> Result<Chosen, Refusal>
    requires { Sound rules × (found.eligible.count < rules.most) }
    ensures { result ≡ among_few case.now.request rules found before (whole_reach (method_of (group_of case.now.moves.now) case.now.request)) }
{
    let reach = engine_relevant::whole_reach(case.moves, case.request);
    if before < reach {
        return Err(Refusal::MarginTooShort(reach));
    }
    let window = filled(rules, found);
    pick(case.request.event, rules, window.words, window.count, reach)
}

// The choice of days: refusal 8 or 9, or the chosen days and the reach.
pub fn choose(case: &Case<'_>) -> Result<Chosen, Refusal>
    ensures { result ≡ choice_of (method_of (group_of case.now.moves.now) case.now.request) (history_of case.now) }
{
    let event = case.request.event;
    let before = case.rooms.held.saturating_sub(1);
    let group = calendar_groups::group_of(case.moves, event);
    let rules = engine_rules::rules_of(case.request, group);
    let found = engine_look_back::look(case, group, rules.most, rules.spares);
    if found.eligible.count < rules.most {
        choose_among_few(case, rules, found, before)
    } else {
        pick(event, rules, found.eligible.words, rules.most, found.oldest)
    }
}
