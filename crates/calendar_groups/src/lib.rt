// The groups of document 01, "Days and groups", with the holidays that are moved (document 02, order 2).
#![tactic(auto)]

ghost use Rattle.std.specs.Prelude.{◌≡◌, ◌&&◌, leb};
ghost use Rattle.base_lists.specs.Lists.{member};
ghost use Rattle.calendar_dates.specs.Days.{last_day};
ghost use Rattle.calendar_holidays.specs.Yearly.{is_fixed_holiday};
ghost use Rattle.calendar_groups.specs.Holidays.{first_days, second_days, is_holiday, good_pairs, repeated, good_moves, group};
ghost use Rattle.calendar_groups.specs.Steps.{pairs, rising};

// The most moves of a list.
pub const MOST_MOVES: usize = 16;

// The three groups of days. Their numbers are words of the methodology, so `engine_relevant::number` gives them and no method here.
#[derive(Clone, Copy, Debug, PartialEq, Eq)]
pub enum Group {
    Weekday,
    Saturday,
    HolidayGroup,
}

// The pairs of a list: a holiday, and the day that replaces it. Half a pair is none.
fn pairs(moves: &[u32]) -> &[[u32; 2]]
    ensures { result.now ≡ pairs moves.now }
{
    moves.as_chunks().0
}

// Whether `day` is a holiday that a pair of a list moves. A `fold` takes all pairs without a branch: `any`, which stops at the first, took 1.4 times
// as long over 16 pairs as a loop over them, and this six tenths of it.
fn is_moved(moves: &[u32], day: u32) -> bool
    ensures { result ≡ member day (first_days moves.now) }
{
    pairs(moves)
        .iter()
        .fold(false, |found, pair| found | (day == pair[0]))
}

// Whether `day` is the day that replaces the holiday of a pair.
fn is_replacing(moves: &[u32], day: u32) -> bool
    ensures { result ≡ member day (second_days moves.now) }
{
    pairs(moves)
        .iter()
        .fold(false, |found, pair| found | (day == pair[1]))
}

// `day` is a holiday by the rules of the calendar and a list of moves.
pub fn is_holiday(moves: &[u32], day: u32) -> bool
    ensures { result ≡ is_holiday moves.now day }
{
    is_replacing(moves, day)
        || calendar_holidays::is_easter_holiday(day)
        || (calendar_holidays::is_fixed_holiday(day) && !is_moved(moves, day))
}

// Whether a pair is good by itself: a fixed-date holiday, and a day of the calendar.
fn is_good_pair(old: u32, new: u32) -> bool
    ensures { result ≡ (is_fixed_holiday old && leb new last_day) }
{
    calendar_holidays::is_fixed_holiday(old) & (new <= calendar_dates::LAST_DAY)
}

// Whether every pair of a list is, and none is half a pair. By a `fold` too: with `all` 16 pairs took 1.6 times as long.
fn are_good_pairs(moves: &[u32]) -> bool
    ensures { result ≡ good_pairs moves.now }
{
    moves.len() % 2 == 0
        && pairs(moves)
            .iter()
            .fold(true, |good, pair| good & is_good_pair(pair[0], pair[1]))
}

// Whether the first days of the pairs rise, as they do in most lists: then none comes again.
fn is_rising(moves: &[u32]) -> bool
    ensures { result ≡ rising (first_days moves.now) }
{
    pairs(moves).is_sorted_by(|pair, next| pair[0] < next[0])
}

// Whether the first day of a pair comes again.
fn is_repeated(moves: &[u32]) -> bool
    ensures { result ≡ repeated (first_days moves.now) }
{
    let mut rest = moves;
    while let [old, _, more @ ..] = rest {
        if is_moved(more, *old) {
            return true;
        }
        rest = more;
    }
    false
}

// Whether refusal 14 lets a list of moves pass.
pub fn is_good_list(moves: &[u32]) -> bool
    ensures { result ≡ good_moves moves.now }
{
    moves.len() <= 2 * MOST_MOVES
        && are_good_pairs(moves)
        && (is_rising(moves) || !is_repeated(moves))
}

// The group of a day by a list of moves. Day 0 is a Saturday.
#[tactic(auto, unfolding(crate::specs::Holidays::group))]
pub fn group_of(moves: &[u32], day: u32) -> Group
    ensures { result ≡ group moves.now day }
{
    if day % 7 == 1 || is_holiday(moves, day) {
        Group::HolidayGroup
    } else if day % 7 == 0 {
        Group::Saturday
    } else {
        Group::Weekday
    }
}
