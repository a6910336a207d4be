// The three demands of the order as contracts: for each call that works out a baseline, a function that does nothing but call it. They stand here to
// be read and proved; a caller needs none of them.
#![tactic(auto)]

ghost use Rattle.table_days.specs.Lent.{table_of, lent};
ghost use Rattle.host_entries.specs.Host.{request_of};
ghost use Rattle.demands.specs.Calls.{over_table, of_file};
ghost use Rattle.demands.specs.Demands.{Demands};
ghost use Rattle.demands.specs.Entries.{EntryDemands, Tells};

use engine_answer::Answer;
use method::{Refusal, Request};
use table_days::LentTable;

// A request by a list of moves over a lent table.
pub fn over_table(
    table: &LentTable<'_, '_>,
    moves: &[u32],
    request: Request,
    out: &mut [u32],
) -> Result<Answer, Refusal>
    ensures { Demands (over_table moves.now (lent table.now) request) result out.old out.new }
{
    table_baseline::baseline(table, moves, request, out)
}

// The event at a place of a record file.
pub fn of_file(file: &[u8], place: usize, out: &mut [u8]) -> Result<Answer, Refusal>
    ensures { Demands (of_file file.now place) result out.old out.new }
{
    file_baseline::file_baseline(file, place, out)
}

// That request, from C.
pub fn entry_over_table(
    first: u32,
    marks: &[u8],
    readings: &[u32],
    moves: &[u32],
    participation: u32,
    event: u32,
    s: u32,
    e: u32,
    n: u32,
    method: u32,
    out: &mut [u32],
) -> u32
    ensures { EntryDemands (over_table moves.now (table_of first marks.now readings.now) (request_of participation event s e n method)) result out.old out.new }
{
    host_entries::hp_baseline_table(
        first,
        marks,
        readings,
        moves,
        participation,
        event,
        s,
        e,
        n,
        method,
        out,
    )
}

// That event, from C.
pub fn entry_of_file(file: &[u8], place: usize, out: &mut [u8]) -> u32
    ensures { EntryDemands (of_file file.now place) result out.old out.new }
{
    host_entries::hp_baseline(file, place, out)
}

// What C is told of that request, by name.
#[tactic(auto, using(demands::proofs::Entries::table_tells))]
pub fn told_over_table(
    first: u32,
    marks: &[u8],
    readings: &[u32],
    moves: &[u32],
    participation: u32,
    event: u32,
    s: u32,
    e: u32,
    n: u32,
    method: u32,
    name: u32,
) -> i64
    ensures { Tells (over_table moves.now (table_of first marks.now readings.now) (request_of participation event s e n method)) name result }
{
    host_entries::hp_told_table(
        first,
        marks,
        readings,
        moves,
        participation,
        event,
        s,
        e,
        n,
        method,
        name,
    )
}

// What C is told of that event, by name.
#[tactic(auto, using(demands::proofs::Entries::file_tells))]
pub fn told_of_file(file: &[u8], place: usize, name: u32) -> i64
    ensures { Tells (of_file file.now place) name result }
{
    host_entries::hp_told(file, place, name)
}
