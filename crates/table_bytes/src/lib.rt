// The engine over the rooms of a lent table, with the numerators as bytes (document 01, "Record file, listing, host entry": "a byte buffer for 4-byte
// little-endian numerators").
#![tactic(auto)]

ghost use Rattle.std.specs.Prelude.{◌/◌, min, ◌≡◌, length};
ghost use Rattle.method.specs.Table.{most_quarters};
ghost use Rattle.table_days.specs.Lent.{lent};
ghost use Rattle.table_engine.specs.Steps.{over_table};
ghost use Rattle.table_bytes.specs.Output.{AnswersInBytes};

use engine_answer::Answer;
use method::{QUARTERS, Refusal, Request};
use table_days::LentTable;

// The answer worked out in a buffer of numbers, and the numerators put as bytes. Not one function with `table_engine::over_table`: it would ask for a trait of
// outputs.
fn through_numbers(
    table: &LentTable<'_, '_>,
    moves: &[u32],
    request: Request,
    numerators: &mut [u32],
    out: &mut [u8],
) -> Result<Answer, Refusal>
    requires { length numerators.old ≡ min (length out.old / 4) most_quarters }
    ensures { AnswersInBytes (over_table moves.now (lent table.now) request (length out.old / 4)) result out.old out.new }
{
    let answer = table_engine::over_table(table, moves, request, numerators)?;
    let quarters = (request.e - request.s) as usize;
    base_bytes::put_numbers(out, &numerators[..quarters]);
    Ok(answer)
}

// The engine over the rooms of a lent table, whatever its marks and readings: the first of the refusals 14 and 4 to 10 that applies, or the
// answer, with the numerators in the first bytes of the output, four bytes each. Refusals 1 to 3 are left to the caller.
pub fn over_table_in_bytes(
    table: &LentTable<'_, '_>,
    moves: &[u32],
    request: Request,
    out: &mut [u8],
) -> Result<Answer, Refusal>
    ensures { AnswersInBytes (over_table moves.now (lent table.now) request (length out.old / 4)) result out.old out.new }
{
    // an event has at most a day's quarters
    let mut numerators = [0u32; QUARTERS];
    let room = (out.len() / 4).min(QUARTERS);
    through_numbers(table, moves, request, &mut numerators[..room], out)
}
