// The look-back over a directory of rooms: which of the days before an event are eligible and which spare, by rank (document 01, "Choosing the
// days"). Total: for any group and any number of days asked for.
#![tactic(auto)]

ghost use Rattle.std.specs.Prelude.{◌≡◌, ◌+◌, ◌-◌, min};
ghost use Rattle.calendar_groups.specs.Holidays.{group as group_of};
ghost use Rattle.engine_relevant.specs.Steps.{relevant_to};
ghost use Rattle.engine_ranking.specs.Steps.{most_words};
ghost use Rattle.engine_rooms.specs.Rooms.{room_day};
ghost use Rattle.engine_look_back.specs.Steps.{held_days, up_to, if_relevant, with_spare, needless, Looked, Further, Adds};

use calendar_groups::Group;
use engine_judging::Judged;
use engine_ranking::Ranking;
use engine_rooms::Case;
use engine_rules::SpareOrder;

// What was found looking back: the eligible days by rank, how far back the last of them lies, and the spare days in the order that they fill a shortage
// in; of those that fill latest first the ten latest alone.
#[derive(Clone, Copy, Debug, PartialEq, Eq)]
pub struct Found {
    pub eligible: Ranking,
    pub oldest: u32,
    pub spare: Ranking,
}

// A spare day's word, put to those that are known.
fn add_spare(spares: SpareOrder, known: &mut Ranking, word: u64)
    ensures words { known.new.words ≡ with_spare spares known.old.words known.old.count word }
    ensures count { known.new.count ≡ min (known.old.count + 1) most_words }
{
    match spares {
        SpareOrder::Highest => known.insert(word),
        SpareOrder::Latest => known.append(word),
    }
}

// Whether a day need not be looked at: it has an event, so it is not eligible, and the latest spares fill first, of which ten are known.
fn is_needless(spares: SpareOrder, count: u32, mark: u8) -> bool
    ensures { result ≡ needless spares count mark }
{
    match spares {
        SpareOrder::Highest => false,
        SpareOrder::Latest => 10 <= count && day_marks::is_event(mark),
    }
}

// One more day is looked at, `back` days before the event.
fn look_at(case: &Case<'_>, group: Group, spares: SpareOrder, back: u32, found: &mut Found)
    requires next { Further case.now.request back found.old }
    ensures { Adds case.now.request spares back (if_relevant (relevant_to (group_of case.now.moves.now) group case.now.request) (case.now.request.event - back, room_day case.now.request.event case.now.rooms.now case.now.readings.now back)) found.old found.new }
{
    let request = case.request;
    let mark = case.rooms.marks[back as usize];
    if is_needless(spares, found.spare.count, mark)
        || !engine_relevant::relevant(case.moves, request, group, request.event - back)
    {
        return;
    }
    let part = case.part(back);
    match engine_judging::judge(request, mark, part, back) {
        Some(Judged::Eligible(word)) => {
            found.eligible.insert(word);
            found.oldest = back;
        }
        Some(Judged::Spare(word)) => add_spare(spares, &mut found.spare, word),
        None => {}
    }
}

// How many days are held before the event and looked at.
fn held_before(event: u32, held: u32) -> u32
    ensures { result ≡ min (held - 1) (min 45 event) }
{
    held.saturating_sub(1).min(method::LOOK_BACK.min(event))
}

// The look back over the days held before an event of this group, nearest first. It ends at the `most`th eligible day.
pub fn look(case: &Case<'_>, group: Group, most: u32, spares: SpareOrder) -> Found
    ensures { Looked case.now.request spares (up_to most (held_days (group_of case.now.moves.now) group case.now.request case.now.rooms.now case.now.readings.now)) result }
{
    let before = held_before(case.request.event, case.rooms.held);
    let mut found = Found {
        eligible: Ranking::new(),
        oldest: 0,
        spare: Ranking::new(),
    };
    // `1..=before` was tried, and is slower by a twentieth
    for nearer in 0..before {
        if found.eligible.count == most {
            return found;
        }
        look_at(case, group, spares, nearer + 1, &mut found);
    }
    found
}
