// What a record file can say (document 02, orders 1 to 3): the tests of refusals 1 and 13.
#![tactic(auto)]

ghost use Rattle.std.specs.Prelude.{◌≡◌, ◌<◌};
ghost use Rattle.std.specs.List.{list_all};
ghost use Rattle.base_lists.specs.Lists.{all};
ghost use Rattle.file_record.specs.Layout.{fits_day, fits_event};
ghost use Rattle.file_record.specs.Writer.{events_of, matching, days_in_bounds, few_of, sayable};

use file_starts::{MOST_DAYS, MOST_EVENTS, MOST_MOVES};

// How many numbers are lent for an event: D, s, e, n and the method.
pub const EVENT_NUMBERS: usize = 5;

// What two bytes hold, and what one holds, is below these.
const TWO_BYTES: u32 = 65536;

const ONE_BYTE: u32 = 256;

// Whether refusal 1 lets so many days and readings pass.
#[tactic(auto, unfolding(file_record::specs::Writer::matching))]
pub fn is_matching(first: u32, days: usize, readings: usize) -> bool
    ensures { result ≡ matching first days readings }
{
    days <= MOST_DAYS as usize && readings == day_ruler::offset(first, days as u32)
}

// Whether the numbers of an event fit their bytes.
#[tactic(auto, unfolding(file_record::specs::Layout::fits_event))]
fn event_fits(day: u32, s: u32, e: u32, n: u32, method: u32) -> bool
    ensures { result ≡ fits_event (record { day = day; s = s; e = e; n = n; method = method }) }
{
    day < TWO_BYTES && s < ONE_BYTE && e < ONE_BYTE && n < ONE_BYTE && method < ONE_BYTE
}

// Whether those of every event do. `all` took a tenth longer over 64 events.
fn all_fit(events: &[u32]) -> bool
    ensures { result ≡ all fits_event (events_of events.now) }
{
    let (each, _) = events.as_chunks::<EVENT_NUMBERS>();
    for &[day, s, e, n, method] in each {
        if !event_fits(day, s, e, n, method) {
            return false;
        }
    }
    true
}

// Whether every day of a list of moves fits its bytes. A `fold` has no branch, so that it takes several days at a time.
fn moves_fit(moves: &[u32]) -> bool
    ensures { result ≡ list_all fits_day moves.now }
{
    moves.iter().fold(true, |fit, &day| fit & (day < TWO_BYTES))
}

// Whether so many numbers are whole moves or events, `each` numbers for one, and at most `most` of them.
#[tactic(auto, unfolding(file_record::specs::Writer::few_of))]
fn few_of(each: usize, most: usize, numbers: usize) -> bool
    requires { 0 < each }
    ensures { result ≡ few_of each most numbers }
{
    numbers % each == 0 && numbers / each <= most
}

// Whether P and the days fit their bytes.
#[tactic(auto, unfolding(file_record::specs::Writer::days_in_bounds))]
fn in_bounds(participation: u32, first: u32, days: usize) -> bool
    ensures { result ≡ days_in_bounds participation first days }
{
    if (TWO_BYTES as usize) < days {
        return false;
    }
    participation < TWO_BYTES
        && first as usize + days <= TWO_BYTES as usize
        && (0 < days || first == 0)
}

// Whether refusal 13 lets P, so many days from the first on, these moves and these events pass.
#[tactic(auto, using(base_lists::proofs::All::all_is), unfolding(file_record::specs::Writer::sayable))]
pub fn is_sayable(
    participation: u32,
    first: u32,
    days: usize,
    moves: &[u32],
    events: &[u32],
) -> bool
    ensures { result ≡ sayable participation first days moves.now events.now }
{
    in_bounds(participation, first, days)
        && few_of(2, MOST_MOVES as usize, moves.len())
        && few_of(EVENT_NUMBERS, MOST_EVENTS as usize, events.len())
        && moves_fit(moves)
        && all_fit(events)
}
