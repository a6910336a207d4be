// The adjustment window on the ruler of two days: where it ends, and the sum of its twelve readings. Total functions over days of any length.
#![tactic(auto)]

ghost use Rattle.std.specs.Prelude.{◌≡◌, ◌≤◌, ◌++◌, slice_index};
ghost use Rattle.method.specs.Adjustment.{A as twelve_sum, window_ends, latest_end, adjustment_end};
ghost use Rattle.engine_adjustment.specs.Steps.{RunBefore, found};

use method::{MISSING, Request};

// The reading at a place of the two-day ruler; 0 past its end, as the definition has it.
fn reading_at(place: u32, yesterday: &[u32], today: &[u32]) -> u32
    ensures { result ≡ slice_index (yesterday.now ++ today.now) place }
{
    let at = place as usize;
    if at < yesterday.len() {
        yesterday[at]
    } else {
        today.get(at - yesterday.len()).copied().unwrap_or(0)
    }
}

// How many of the twelve readings before `end` are present, counted back from it up to a missing one.
fn present_before(end: u32, yesterday: &[u32], today: &[u32]) -> u32
    requires { 12 ≤ end }
    ensures { RunBefore (yesterday.now ++ today.now) end result }
{
    (0..12)
        .find(|run| reading_at(end - run - 1, yesterday, today) == MISSING)
        .unwrap_or(12)
}

// Whether twelve quarters end at a place of the ruler, with all their readings present.
#[tactic(auto, using(crate::proofs::Windows::run_says, crate::proofs::Windows::too_early))]
fn window_ends(end: u32, yesterday: &[u32], today: &[u32]) -> bool
    ensures { result ≡ window_ends (yesterday.now ++ today.now) end }
{
    end >= 12 && present_before(end, yesterday, today) == 12
}

// The latest place from `last` down where a window ends; none where there is none. No window reaches over a missing reading: the next that can
// end does so before it.
fn latest_end(last: u32, yesterday: &[u32], today: &[u32]) -> Option<u32>
    ensures { result ≡ found (latest_end (yesterday.now ++ today.now) last) }
{
    let mut end = last;
    // no plainer as a chain: it goes down by as many places as it may
    while 12 <= end {
        let run = present_before(end, yesterday, today);
        if run == 12 {
            return Some(end);
        }
        end -= run + 1;
    }
    None
}

// Where the adjustment window ends on the ruler, if there is one.
pub fn adjustment_end(request: Request, yesterday: &[u32], today: &[u32]) -> Option<u32>
    ensures { result ≡ found (adjustment_end request (yesterday.now ++ today.now)) }
{
    if window_ends(request.n, yesterday, today) {
        Some(request.n)
    } else {
        latest_end(request.s, yesterday, today)
    }
}

// The sum of the twelve readings that end at a place of the ruler. Twelve numbers of 32 bits are
// added up exactly.
pub fn window_sum(end: u32, yesterday: &[u32], today: &[u32]) -> u64
    ensures { result ≡ twelve_sum (yesterday.now ++ today.now) end }
{
    let start = (end as usize).saturating_sub(12);
    let last = start + 12;
    let day = yesterday.len();
    let first = base_sums::sum_between(yesterday, start, last);
    let second = base_sums::sum_between(today, start.saturating_sub(day), last.saturating_sub(day));
    first.wrapping_add(second)
}
