// The lines of an event over a lent table (document 01, "Record file, listing, host entry").
#![tactic(auto)]

ghost use Rattle.std.specs.Prelude.{◌≤◌, length};
ghost use Rattle.table_days.specs.Lent.{lent};
ghost use Rattle.listing_lines.specs.Lines.{lines_text};
ghost use Rattle.listing_lines.specs.Listing.{event_text};
ghost use Rattle.listing_lines.specs.WriteSteps.{Writes, PutsWithin};
ghost use Rattle.listing_event.specs.Steps.{answer_lines};
ghost use Rattle.listing_event.specs.Room.{lines_room};

use engine_answer::Answer;
use method::Request;
use table_days::LentTable;

// The room that the lines are given: those of any event fit.
pub const LINES_ROOM: usize = listing_event_line::EVENT_ROOM + listing_quarter_lines::QUARTERS_ROOM;

// The lines of an answer, with the numerators of the event's quarters.
fn put_answer(out: &mut [u8], request: Request, answer: Answer, numerators: &[u32]) -> usize
    requires { lines_room ≤ length out.old }
    ensures { Writes out.old 0 (lines_text (answer_lines request answer numerators.now)) result out.new × (result ≤ lines_room) }
{
    let next = listing_event_line::put_event_line(
        out,
        request,
        answer.chosen,
        answer.denominator,
        answer.adjustment,
    );
    listing_quarter_lines::put_quarters(out, next, request, answer.denominator, numerators)
}

// The lines of an event, at the start of the buffer: what the verdict by a list of moves over a table comes to, with room for a day's quarters.
pub fn event(table: &LentTable<'_, '_>, moves: &[u32], request: Request, out: &mut [u8]) -> usize
    ensures { PutsWithin lines_room out.old 0 (event_text moves.now (lent table.now) request) result out.new }
{
    if out.len() < LINES_ROOM {
        return 0;
    }
    let mut numerators = [0u32; method::QUARTERS];
    match table_baseline::baseline(table, moves, request, &mut numerators) {
        Ok(answer) => put_answer(out, request, answer, &numerators),
        Err(refusal) => listing_event_line::put_refusal(out, request, refusal),
    }
}
