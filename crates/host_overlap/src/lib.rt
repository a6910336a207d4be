// What a caller written in C is told by include/honeyplank.h of the overlap that an event of a record file needs, and from which day on the file's days may
// be cut.
#![tactic(auto)]

ghost use Rattle.std.specs.Prelude.{ℕ, ◌≡◌, ◌-◌, ◌≤◌, min, true, List, Ok};
ghost use Rattle.std.specs.List.{reduce, filter_map, range_with_len};
ghost use Rattle.calendar_groups.specs.Holidays.{good_moves};
ghost use Rattle.file_record.specs.Reader.{read_file};
ghost use Rattle.file_record.specs.Steps.{event_within};
ghost use Rattle.file_days.specs.Steps.{holds_day};
ghost use Rattle.engine_refusals.specs.Steps.{tested};
ghost use Rattle.host_answer.specs.Names.{by_name, row_from, row_after};
ghost use Rattle.host_overlap.specs.Overlap.{overlap_tests, enough_days, numbers_of, overlap_row, cut_from};
ghost use Rattle.host_overlap.specs.Steps.{needed, needed_there};

use calendar_groups::MOST_MOVES;
use engine_rooms::{DAYS, Directory};
use file_record::Shape;
use host_answer::{names, tell_refusal, told};
use method::{QUARTERS, Refusal, Request};

// 4 and 6 of a request by a good list: what it is refused for where its own day is held and there is room for any event.
fn of_good_list(request: Request) -> Result<(), Refusal>
    ensures { (moves : List ℕ) → good_moves moves ≡ true → result ≡ tested (overlap_tests moves request) }
{
    let own = Directory {
        at: [0; DAYS],
        marks: [0; DAYS],
        held: 1,
    };
    engine_refusals::of_request(request, &own, QUARTERS)
}

// 14, 4 and 6 of a request.
fn of_event(moves: &[u32], request: Request) -> Result<(), Refusal>
    ensures { result ≡ tested (overlap_tests moves.now request) }
{
    if calendar_groups::is_good_list(moves) {
        of_good_list(request)
    } else {
        Err(Refusal::BadMoves)
    }
}

// Of an event day, whether it is held, how many days before it are, and how many always suffice. A flag beside a number, as `numbers_of` has it.
#[tactic(auto, unfolding(host_answer::specs::Names::by_name, host_answer::specs::Names::row_from, crate::specs::Overlap::numbers_of))]
fn tell_numbers(there: bool, before: u32, far: u32, event: u32, name: u32) -> Option<i64>
    requires { far ≤ event }
    ensures { result ≡ by_name (row_from 41 (numbers_of there before far event)) name }
{
    match name {
        names::RESULT => told(0),
        names::OVERLAP_HELD => if there { told(before) } else { None },
        names::OVERLAP_SUFFICES => told(far),
        names::OVERLAP_MORE => if there {
            told(far.saturating_sub(before))
        } else {
            None
        },
        names::OVERLAP_FROM => told(event - far),
        _ => None,
    }
}

// Of an event of a file of this shape and with this list of moves.
#[tactic(auto, using(crate::proofs::Ways::told_refused, crate::proofs::Ways::told_numbers, crate::proofs::Ways::enough_event))]
fn tell_event(shape: Shape, moves: &[u32], request: Request, name: u32) -> Option<i64>
    ensures { result ≡ by_name (row_after (overlap_tests moves.now request) (row_from 41 (numbers_of (holds_day shape request.event) (request.event - shape.first) (enough_days moves.now request) request.event))) name }
{
    match of_event(moves, request) {
        Err(refusal) => tell_refusal(refusal, name),
        Ok(()) => {
            let event = request.event;
            let there = file_days::holds(shape, event);
            let far = engine_relevant::whole_reach(moves, request);
            tell_numbers(there, event.saturating_sub(shape.first), far, event, name)
        }
    }
}

// Of the event at a place of a file of this shape, with its list of moves.
fn tell_at(file: &[u8], shape: Shape, place: usize, name: u32) -> Option<i64>
    requires { read_file file.now ≡ Ok shape }
    ensures { result ≡ by_name (overlap_row file.now place) name }
{
    match file_events::event_within(file, shape, place) {
        Ok(request) => {
            let mut moves = [0u32; 2 * MOST_MOVES];
            file_moves::load_list(file, shape, &mut moves);
            let numbers = 2 * (shape.moves as usize);
            tell_event(shape, &moves[..numbers], request, name)
        }
        Err(refusal) => tell_refusal(refusal, name),
    }
}

// What the event at a place of a file tells of its overlap by name.
#[tactic(auto, using(crate::proofs::Ways::of_refused))]
pub fn tell_overlap(file: &[u8], place: usize, name: u32) -> Option<i64>
    ensures { result ≡ by_name (overlap_row file.now place) name }
{
    match file_reading::read_file(file) {
        Ok(shape) => tell_at(file, shape, place, name),
        Err(refusal) => tell_refusal(refusal, name),
    }
}

// The day from which a request needs days on by a good list, if it does.
#[tactic(auto, using(crate::proofs::Ways::needs_none, crate::proofs::Ways::needs_some))]
fn needed_from(moves: &[u32], request: Request) -> Option<u32>
    requires { good_moves moves.now ≡ true }
    ensures { result ≡ needed moves.now request }
{
    match of_good_list(request) {
        Ok(()) => {
            let far = engine_relevant::whole_reach(moves, request);
            Some(request.event.saturating_sub(far))
        }
        Err(_) => None,
    }
}

// And of the event at a place of a file of this shape.
#[tactic(auto, unfolding(crate::specs::Steps::needed_there))]
fn needed_at(file: &[u8], shape: Shape, moves: &[u32], place: usize) -> Option<u32>
    requires { good_moves moves.now ≡ true }
    ensures { result ≡ needed_there moves.now (event_within shape file.now place) }
{
    match file_events::event_within(file, shape, place) {
        Ok(request) => needed_from(moves, request),
        Err(_no_event) => None,
    }
}

// The least of the events of a file of this shape. The list is tested once for all of them, where there is one: where refusal 14 turns it away,
// none needs a day.
fn least_needed(file: &[u8], shape: Shape, moves: &[u32]) -> Option<u32>
    ensures { result ≡ reduce min (filter_map (λ place. needed_there moves.now (event_within shape file.now place)) (range_with_len 0 shape.events)) }
{
    if shape.events == 0 {
        return None;
    }
    if !calendar_groups::is_good_list(moves) {
        return None;
    }
    let events = 0..shape.events as usize;
    events
        .filter_map(|place| needed_at(file, shape, moves, place))
        .min()
}

// The first day to cut the days of a file of this shape from.
fn cut_within(file: &[u8], shape: Shape) -> Option<i64>
    requires { read_file file.now ≡ Ok shape }
    ensures { result ≡ cut_from (read_file file.now) file.now }
{
    let mut moves = [0u32; 2 * MOST_MOVES];
    file_moves::load_list(file, shape, &mut moves);
    let numbers = 2 * (shape.moves as usize);
    told(least_needed(file, shape, &moves[..numbers])?)
}

// The first day to cut a file's days from so that none of its events is refused 8.
#[tactic(auto, using(crate::proofs::Ways::cut_refused))]
pub fn cut_from(file: &[u8]) -> Option<i64>
    ensures { result ≡ cut_from (read_file file.now) file.now }
{
    match file_reading::read_file(file) {
        Ok(shape) => cut_within(file, shape),
        Err(_bad_file) => None,
    }
}
