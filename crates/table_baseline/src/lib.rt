// The baseline over a lent table: its refusals, and the engine over its directory.
#![tactic(auto)]

ghost use Rattle.std.specs.Prelude.{length};
ghost use Rattle.method.specs.Verdict.{verdict};
ghost use Rattle.table_days.specs.Lent.{lent};
ghost use Rattle.engine_answer.specs.Answer.{Answers};

use engine_answer::Answer;
use method::{Refusal, Request};
use table_days::LentTable;

// The baseline over a lent table: the first refusal that applies, or the answer, with the numerators in the first places of the output.
// Inlined: called, it made a table that refusal 1 turns away take twice as long.
#[inline(always)]
pub fn baseline(
    table: &LentTable<'_, '_>,
    moves: &[u32],
    request: Request,
    out: &mut [u32],
) -> Result<Answer, Refusal>
    ensures { Answers (verdict moves.now (lent table.now) request (length out.old)) result out.old out.new }
{
    table_refusals::of_table(table)?;
    table_engine::over_table(table, moves, request, out)
}
