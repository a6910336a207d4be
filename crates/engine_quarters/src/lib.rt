// The sums of an event's working over a directory of rooms (document 01, "Adjustment and baseline"): S(t), A and B, and where the adjustment window ends.
// Total: a day with no room has no readings, and nothing wraps.
#![tactic(auto)]

ghost use Rattle.std.specs.Prelude.{ℕ, ◌≡◌, ◌-◌, ◌≤◌, ◌++◌, get_or, take};
ghost use Rattle.method.specs.Ruler.{against};
ghost use Rattle.method.specs.Adjustment.{ruler, adjustment_end, S, A as twelve_sum, B};
ghost use Rattle.engine_adjustment.specs.Steps.{found};
ghost use Rattle.engine_rooms.specs.Rooms.{history_of};
ghost use Rattle.engine_baseline.specs.Engine.{with_days};

use engine_rooms::Case;

// The readings of a day, where its room has them.
#[tactic(auto, unfolding(engine_rooms::specs::Rooms::room_history, engine_rooms::specs::Rooms::room_day))]
fn part_of<'a>(case: &Case<'a>, day: u32) -> &'a [u32]
    ensures { result.now ≡ ((history_of case.now).day day).readings }
{
    case.part(case.request.event.saturating_sub(day))
}

// The reading of a day that stands against a ruler quarter; 0 where there is none, as the definition has it.
fn reading_of(case: &Case<'_>, day: u32, t: u32) -> u32
    ensures { result ≡ get_or ((history_of case.now).day day).readings (against case.now.request.event t) 0 }
{
    let quarter = day_ruler::against(case.request.event, t) as usize;
    let part = part_of(case, day);
    part.get(quarter).copied().unwrap_or(0)
}

// S(t) of a ruler quarter: the sum, over the chosen days, of the reading that stands against it. Of more than five days it is of five.
// An array and not a slice: what the contract says of its size rests on five.
pub fn quarter_sum(case: &Case<'_>, days: [u32; 5], count: u32, t: u32) -> u64
    ensures { (result ≡ S case.now.request.event (with_days (history_of case.now) (take count days)) t) × (result ≤ 21474836475) }
{
    let mut sum = 0;
    for &day in &days[..count.min(5) as usize] {
        sum += u64::from(reading_of(case, day, t));
    }
    sum
}

// B: the sum of S over the adjustment window that ends at a place of the ruler.
pub fn usual_sum(case: &Case<'_>, days: [u32; 5], count: u32, end: u32) -> u64
    ensures { (result ≡ B case.now.request.event (with_days (history_of case.now) (take count days)) end) × (result ≤ 257698037700) }
{
    let start = end.saturating_sub(12);
    let mut sum = 0;
    for q in 0..12 {
        sum += quarter_sum(case, days, count, start + q);
    }
    sum
}

// The readings of D-1 and of D; twelve of them are no more than twelve of the largest.
fn ruler_of<'a>(case: &Case<'a>) -> (&'a [u32], &'a [u32])
    ensures line { result.0.now ++ result.1.now ≡ ruler ((history_of case.now).day (case.now.request.event - 1)) ((history_of case.now).day case.now.request.event) }
    ensures most { (end : ℕ) → twelve_sum (result.0.now ++ result.1.now) end ≤ 51539607540 }
{
    let event = case.request.event;
    let yesterday = part_of(case, event.saturating_sub(1));
    let today = part_of(case, event);
    (yesterday, today)
}

// Where the adjustment window ends on the ruler, if there is one.
pub fn adjustment_end(case: &Case<'_>) -> Option<u32>
    ensures { result ≡ found (adjustment_end case.now.request (ruler ((history_of case.now).day (case.now.request.event - 1)) ((history_of case.now).day case.now.request.event))) }
{
    let (yesterday, today) = ruler_of(case);
    engine_adjustment::adjustment_end(case.request, yesterday, today)
}

// A: the sum of the twelve readings that end at a place of the ruler.
pub fn own_sum(case: &Case<'_>, end: u32) -> u64
    ensures { (result ≡ twelve_sum (ruler ((history_of case.now).day (case.now.request.event - 1)) ((history_of case.now).day case.now.request.event)) end) × (result ≤ 51539607540) }
{
    let (yesterday, today) = ruler_of(case);
    engine_adjustment::window_sum(end, yesterday, today)
}
