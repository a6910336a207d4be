// The refusals of a lent table, 1 to 3, in their order: the first that applies.
#![tactic(auto)]

ghost use Rattle.std.specs.Prelude.{◌≡◌, ◌≤◌, List, ℕ, length, take, OnOk};
ghost use Rattle.method.specs.Verdict.{table_refusals};
ghost use Rattle.engine_refusals.specs.Steps.{tested};
ghost use Rattle.table_days.specs.Lent.{table_of, lent};

use method::Refusal;
use table_days::LentTable;

// 1 and 2: what is wrong with a table with so many readings, whatever they are: a caller may have them elsewhere.
#[tactic(auto, using(crate::proofs::FirstRefusal::bad_table, crate::proofs::FirstRefusal::bad_mark, crate::proofs::FirstRefusal::good_marks))]
pub fn of_marks(first: u32, marks: &[u8], count: usize) -> Result<(), Refusal>
    ensures first { (readings : List ℕ) → length readings ≡ count → result ≡ tested (take 2 (table_refusals (table_of first marks.now readings))) }
    ensures sized { OnOk result (count ≤ 12800) }
{
    if !table_days::is_extract(first, marks, count) {
        return Err(Refusal::BadTable);
    }
    let mark = day_marks::first_bad_mark(marks);
    if mark < marks.len() {
        return Err(Refusal::BadMark(mark as u32));
    }
    Ok(())
}

// 1, 2 and 3: what is wrong with the table.
#[tactic(auto, using(crate::proofs::FirstRefusal::refused_early, crate::proofs::FirstRefusal::bad_reading, crate::proofs::FirstRefusal::good_readings))]
pub fn of_table(table: &LentTable<'_, '_>) -> Result<(), Refusal>
    ensures { result ≡ tested (table_refusals (lent table.now)) }
{
    of_marks(table.first, table.marks, table.readings.len())?;
    let reading = day_readings::first_bad_reading(table.readings);
    if reading < table.readings.len() {
        return Err(Refusal::BadReading(reading as u32));
    }
    Ok(())
}
