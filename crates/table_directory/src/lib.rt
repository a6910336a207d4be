// The directory of a lent table: where the event day and the days before it stand.
#![tactic(auto)]

ghost use Rattle.std.specs.Prelude.{◌≡◌, List, ℕ};
ghost use Rattle.table_days.specs.Lent.{table_of};
ghost use Rattle.table_directory.specs.Steps.{entries_of, directory_of};

use engine_rooms::Directory;

// How many days have a room in the directory of an event; 0 where it is not held, as `directory_of` has it.
fn entries(first: u32, marks: &[u8], event: u32) -> u32
    ensures { (readings : List ℕ) → result ≡ entries_of (table_of first marks.now readings) event }
{
    if 128 < marks.len() || event < first {
        return 0;
    }
    let before = event - first;
    if (before as usize) < marks.len() {
        method::LOOK_BACK.min(before) + 1
    } else {
        0
    }
}

// Where the event day and the days before it stand, at most 45 of them; no day has a room where the event day is not held, or the table has
// more than 128 days. Readings have no part in it, so it takes no `LentTable`.
pub fn directory(first: u32, marks: &[u8], event: u32) -> Directory
    ensures { (readings : List ℕ) → result ≡ directory_of (table_of first marks.now readings) event }
{
    let entries = entries(first, marks, event);
    let mut at = [0u32; engine_rooms::DAYS];
    let mut kept = [0u8; engine_rooms::DAYS];
    // by how many days back, from which day and place are worked out
    for i in 0..entries {
        let day = event - i;
        let before = day - first;
        at[i as usize] = day_ruler::offset(first, before) as u32;
        kept[i as usize] = marks[before as usize];
    }
    Directory {
        at,
        marks: kept,
        held: entries,
    }
}
