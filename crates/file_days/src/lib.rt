// What a record file holds of one day: its mark, and the reading at a quarter of the day.
#![tactic(auto)]

ghost use Rattle.std.specs.Prelude.{◌≡◌, ◌-◌, ◌≤◌, length};
ghost use Rattle.file_record.specs.Reader.{shape_base, day_start, read_file};
ghost use Rattle.file_record.specs.Steps.{table_within};
ghost use Rattle.file_days.specs.Steps.{holds_day};
ghost use Rattle.file_days.specs.HeldDay.{mark_of, reading_of, mark_in, reading_in};

use byteorder::{ByteOrder, LittleEndian};
use file_record::Shape;
use file_starts::BEFORE_READINGS;

// The bytes of a DY before its mark.
const BEFORE_MARK: usize = 4;

// Whether a file of this shape holds a day.
pub fn holds(shape: Shape, day: u32) -> bool
    ensures { result ≡ holds_day shape day }
{
    shape.first <= day && day - shape.first < shape.days
}

// Where its record starts.
fn start(shape: Shape, day: u32) -> usize
    requires { shape.first ≤ day }
    ensures { result ≡ day_start (shape_base shape) shape.first (day - shape.first) }
{
    file_starts::day_start(file_starts::base(shape), shape.first, day - shape.first)
}

// The mark of a day, in a file of this shape.
#[tactic(auto, using(crate::proofs::Days::held_within))]
fn mark_within(file: &[u8], shape: Shape, day: u32) -> Option<u32>
    requires { day_start (shape_base shape) shape.first shape.days ≤ length file.now }
    ensures { result ≡ mark_of (table_within shape file.now) day }
{
    if !holds(shape, day) {
        return None;
    }
    let at = start(shape, day) + BEFORE_MARK;
    Some(u32::from(file[at]))
}

// The reading of a day at a quarter, in a file of this shape.
#[tactic(auto, using(crate::proofs::Days::held_within))]
fn reading_within(file: &[u8], shape: Shape, day: u32, quarter: u32) -> Option<u32>
    requires { day_start (shape_base shape) shape.first shape.days ≤ length file.now }
    ensures { result ≡ reading_of (table_within shape file.now) day quarter }
{
    if !holds(shape, day) || day_ruler::size(day) <= quarter {
        return None;
    }
    let at = start(shape, day) + BEFORE_READINGS + 4 * (quarter as usize);
    Some(LittleEndian::read_u32(&file[at..]))
}

// The mark of a day of a file.
pub fn mark(file: &[u8], day: u32) -> Option<u32>
    ensures { result ≡ mark_in (read_file file.now) file.now day }
{
    let shape = file_reading::read_file(file).ok()?;
    mark_within(file, shape, day)
}

// The reading of a day of a file at a quarter, 0 to 95.
pub fn reading(file: &[u8], day: u32, quarter: u32) -> Option<u32>
    ensures { result ≡ reading_in (read_file file.now) file.now day quarter }
{
    let shape = file_reading::read_file(file).ok()?;
    reading_within(file, shape, day, quarter)
}
