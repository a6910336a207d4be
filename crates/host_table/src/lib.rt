// What a caller written in C is told by include/honeyplank.h of the working of an event over a lent table, by name. Total: any table, any list, any request.
#![tactic(auto)]

ghost use Rattle.std.specs.Prelude.{◌≡◌, Ok};
ghost use Rattle.method.specs.Verdict.{table_refusals};
ghost use Rattle.table_days.specs.Lent.{lent};
ghost use Rattle.engine_refusals.specs.Steps.{tested};
ghost use Rattle.host_answer.specs.Names.{by_name};
ghost use Rattle.host_table.specs.OverTable.{table_sheet};

use engine_rooms::Case;
use host_answer::tell_refusal;
use method::{QUARTERS, Refusal, Request};
use table_days::LentTable;

// Refusals 1 to 3 do not apply: 14 and 4 to 7, or the working over the table's rooms.
#[tactic(auto, using(crate::proofs::Tests::list_told, crate::proofs::Tests::request_told))]
fn tell_extract(
    table: &LentTable<'_, '_>,
    moves: &[u32],
    request: Request,
    at: u32,
    name: u32,
) -> Option<i64>
    requires { tested (table_refusals (lent table.now)) ≡ Ok tt }
    ensures { result ≡ by_name (table_sheet moves.now (lent table.now) request at) name }
{
    if !calendar_groups::is_good_list(moves) {
        return tell_refusal(Refusal::BadMoves, name);
    }
    let rooms = table_directory::directory(table.first, table.marks, request.event);
    match engine_refusals::of_request(request, &rooms, QUARTERS) {
        Err(refusal) => tell_refusal(refusal, name),
        Ok(()) => {
            let case = Case {
                moves,
                request,
                rooms: &rooms,
                readings: table.readings,
            };
            host_rooms::tell_working(&case, at, name)
        }
    }
}

// The number of a name: of the first refusal that applies, or of the working.
#[tactic(auto, using(crate::proofs::Tests::table_told))]
pub fn tell_table(
    table: &LentTable<'_, '_>,
    moves: &[u32],
    request: Request,
    at: u32,
    name: u32,
) -> Option<i64>
    ensures { result ≡ by_name (table_sheet moves.now (lent table.now) request at) name }
{
    match table_refusals::of_table(table) {
        Err(refusal) => tell_refusal(refusal, name),
        Ok(()) => tell_extract(table, moves, request, at, name),
    }
}
