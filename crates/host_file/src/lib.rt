// What a caller written in C is told by include/honeyplank.h of a record file, and of a move and an event in it.
#![tactic(auto)]

ghost use Rattle.std.specs.Prelude.{◌≡◌, None, Ok};
ghost use Rattle.host_answer.specs.Names.{by_name};
ghost use Rattle.host_file.specs.OfFile.{shape_row, file_told, days_row, move_told, request_row, event_told};

use file_record::{Move, Shape};
use host_answer::{names, tell_refusal, told};
use method::{Refusal, Request};

// Of a file that is as laid down.
#[tactic(auto, using(crate::proofs::Ways::no_name_of_a_file), unfolding(host_answer::specs::Names::by_name, host_answer::specs::Names::row_from, crate::specs::OfFile::shape_row))]
fn tell_shape(shape: Shape, name: u32) -> Option<i64>
    ensures { result ≡ by_name (shape_row shape) name }
{
    match name {
        names::RESULT => told(0),
        names::FILE_PARTICIPATION => told(shape.participation),
        names::FILE_PORTFOLIO => told(shape.portfolio),
        names::FILE_FIRST => told(shape.first),
        names::FILE_DAYS => told(shape.days),
        names::FILE_EVENTS => told(shape.events),
        names::FILE_MOVES => told(u32::from(shape.moves)),
        _ => None,
    }
}

// Of what reading a file gave: what it holds, or refusal 11. Not one function with the two below: each row is of another type, and a function of all three
// would want the row as a closure with a clause of its own.
#[tactic(auto, using(crate::proofs::Ways::of_read))]
pub fn tell_file(read: Result<Shape, Refusal>, name: u32) -> Option<i64>
    ensures { result ≡ file_told read name }
{
    match read {
        Ok(shape) => tell_shape(shape, name),
        Err(bad_file) => tell_refusal(bad_file, name),
    }
}

// Of the two days of a move.
#[tactic(auto, using(host_answer::proofs::Telling::no_name), unfolding(host_answer::specs::Names::by_name, host_answer::specs::Names::row_from, crate::specs::OfFile::days_row))]
fn tell_days(moved: Move, name: u32) -> Option<i64>
    ensures { result ≡ by_name (days_row moved.old moved.new) name }
{
    match name {
        names::RESULT => told(0),
        names::MOVE_FROM => told(moved.old),
        names::MOVE_TO => told(moved.new),
        _ => None,
    }
}

// Where there is no move at a place: no number but the result.
#[tactic(auto, unfolding(host_answer::specs::Names::by_name, crate::specs::OfFile::move_told))]
fn tell_no_move(name: u32) -> Option<i64>
    ensures { result ≡ move_told (Ok None) name }
{
    match name {
        names::RESULT => told(0),
        _ => None,
    }
}

// Of the move at a place: its two days; none; or refusal 11.
#[tactic(auto, using(crate::proofs::Ways::of_move))]
pub fn tell_move(at: Result<Option<Move>, Refusal>, name: u32) -> Option<i64>
    ensures { result ≡ move_told at name }
{
    match at {
        Ok(Some(moved)) => tell_days(moved, name),
        Ok(None) => tell_no_move(name),
        Err(refusal) => tell_refusal(refusal, name),
    }
}

// Of an event.
#[tactic(auto, unfolding(host_answer::specs::Names::by_name, host_answer::specs::Names::row_from, crate::specs::OfFile::request_row))]
fn tell_request(request: Request, name: u32) -> Option<i64>
    ensures { result ≡ by_name (request_row request) name }
{
    match name {
        names::RESULT => told(0),
        names::EVENT_DAY => told(request.event),
        names::EVENT_START => told(request.s),
        names::EVENT_END => told(request.e),
        names::EVENT_NOTICE => told(request.n),
        names::EVENT_METHOD => told(request.method),
        _ => None,
    }
}

// Of the event at a place: what it asks, or refusal 11 or 12.
#[tactic(auto, using(crate::proofs::Ways::of_event))]
pub fn tell_event(at: Result<Request, Refusal>, name: u32) -> Option<i64>
    ensures { result ≡ event_told at name }
{
    match at {
        Ok(request) => tell_request(request, name),
        Err(refused) => tell_refusal(refused, name),
    }
}
