// The engine over the rooms of a lent table, whose refusals are tested elsewhere.
#![tactic(auto)]

ghost use Rattle.std.specs.Prelude.{length};
ghost use Rattle.engine_answer.specs.Answer.{Answers};
ghost use Rattle.table_days.specs.Lent.{lent};
ghost use Rattle.table_engine.specs.Steps.{over_table};

use engine_answer::Answer;
use engine_rooms::Case;
use method::{Refusal, Request};
use table_days::LentTable;

// The engine over the rooms of a lent table, whatever its marks and readings: the first of the refusals 14 and 4 to 10 that applies, or the
// answer, with the numerators in the first places of the output. Refusals 1 to 3 are left to the caller.
pub fn over_table(
    table: &LentTable<'_, '_>,
    moves: &[u32],
    request: Request,
    out: &mut [u32],
) -> Result<Answer, Refusal>
    ensures { Answers (over_table moves.now (lent table.now) request (length out.old)) result out.old out.new }
{
    let rooms = table_directory::directory(table.first, table.marks, request.event);
    let case = Case {
        moves,
        request,
        rooms: &rooms,
        readings: table.readings,
    };
    engine_baseline::baseline_over(&case, out)
}
