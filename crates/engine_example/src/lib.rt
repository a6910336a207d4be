// An example of a store of one's own: a directory that is no table's, and the law that the engine asks of it.
#![tactic(auto)]

ghost use Rattle.std.specs.Prelude.{length};
ghost use Rattle.method.specs.Table.{history};
ghost use Rattle.method.specs.Verdict.{by_list};
ghost use Rattle.engine_rooms.specs.Agree.{Agree};
ghost use Rattle.engine_answer.specs.Answer.{Answers};
ghost use Rattle.engine_baseline.specs.Engine.{in_words};
ghost use Rattle.engine_example.specs.Apart.{apart};

use engine_answer::Answer;
use engine_rooms::{Case, Directory};
use method::{Refusal, Request};

// Where two days stand that lie apart: the event day's readings first, and after a gap those of the day before.
fn rooms_apart(request: Request, before: u8, today: u8, gap: u16, readings: &[u32]) -> Directory
    ensures { Agree request result readings.now (history (apart request.event before today gap readings.now)) }
{
    let event = request.event;
    let start = day_ruler::size(event) + (gap as u32);
    let mut at = [0u32; engine_rooms::DAYS];
    let mut marks = [0u8; engine_rooms::DAYS];
    at[1] = start;
    marks[0] = today;
    marks[1] = before;
    let mut held = 0;
    if event != 0 {
        let end = start + day_ruler::size(event - 1);
        if (end as usize) <= readings.len() {
            held = 2;
        }
    }
    Directory { at, marks, held }
}

// The baseline over two days that lie apart: what the methodology gives, by a list of moves, over the table that they are in the right
// order.
pub fn baseline_apart(
    moves: &[u32],
    request: Request,
    before: u8,
    today: u8,
    gap: u16,
    readings: &[u32],
    out: &mut [u32],
) -> Result<Answer, Refusal>
    ensures { Answers (in_words request (history (apart request.event before today gap readings.now)) (by_list moves.now (history (apart request.event before today gap readings.now)) request (length out.old))) result out.old out.new }
{
    let rooms = rooms_apart(request, before, today, gap, readings);
    let case = Case {
        moves,
        request,
        rooms: &rooms,
        readings,
    };
    engine_baseline::baseline_over(&case, out)
}
