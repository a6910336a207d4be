// The days of a file: loaded into lent buffers, or tested on their way through one.
#![tactic(auto)]

ghost use Rattle.std.specs.Prelude.{◌≡◌, ◌+◌, ◌-◌, ◌*◌, ◌≤◌, ◌&&◌, ◌++◌, length, drop, leb};
ghost use Rattle.base_lists.specs.Lists.{leading};
ghost use Rattle.method.specs.Table.{good_reading, offset};
ghost use Rattle.file_record.specs.Reader.{shape_base, day_start, numbers};
ghost use Rattle.file_record.specs.Steps.{filled_if, table_within, span_within};
ghost use Rattle.file_loading.specs.Steps.{Stands, stands_within, fits_within, bad_within};

use byteorder::{ByteOrder, LittleEndian};
use file_record::{Shape, Span};
use file_starts::BEFORE_READINGS;
use method::QUARTERS;

// The mark bytes of the days, put first. By their number, from which their place in the file is worked out.
fn load_marks(file: &[u8], shape: Shape, marks: &mut [u8])
    requires { (day_start (shape_base shape) shape.first shape.days ≤ length file.now) × (shape.days ≤ length marks.old) }
    ensures { marks.new ≡ (table_within shape file.now).marks ++ drop shape.days marks.old }
{
    let base = file_starts::base(shape);
    for k in 0..shape.days {
        marks[k as usize] = file[file_starts::day_start(base, shape.first, k) + 4];
    }
}

// The readings that start at a place of the file, as many as the buffer has room for.
fn load_day(file: &[u8], at: usize, readings: &mut [u32])
    requires { at + 4 * length readings.old ≤ length file.now }
    ensures { readings.new ≡ numbers (length readings.old) (drop at file.now) }
{
    LittleEndian::read_u32_into(&file[at..at + 4 * readings.len()], readings);
}

// How many readings stand before a day of a span, among those of the span.
fn place(shape: Shape, span: Span, k: u32) -> usize
    requires { span.start ≤ k }
    ensures { result ≡ offset (shape.first + span.start) (k - span.start) }
{
    day_ruler::offset(shape.first, k) - day_ruler::offset(shape.first, span.start)
}

// The readings of the days of a span, put first.
fn load_readings(file: &[u8], shape: Shape, span: Span, readings: &mut [u32])
    requires { Stands file.now shape span × (offset (shape.first + span.start) (span.end - span.start) ≤ length readings.old) }
    ensures { readings.new ≡ (span_within shape span file.now).readings ++ drop (offset (shape.first + span.start) (span.end - span.start)) readings.old }
{
    let base = file_starts::base(shape);
    for k in span.start..span.end {
        let start = place(shape, span, k);
        let end = place(shape, span, k + 1);
        let at = file_starts::day_start(base, shape.first, k) + BEFORE_READINGS;
        load_day(file, at, &mut readings[start..end]);
    }
}

// Whether a span is one of days of this shape, and the days stand in so many bytes.
#[tactic(auto, unfolding(crate::specs::Steps::stands_within))]
fn stands(shape: Shape, span: Span, size: usize) -> bool
    ensures { result ≡ stands_within shape span size }
{
    let end = file_starts::day_start(file_starts::base(shape), shape.first, shape.days);
    span.start <= span.end && span.end <= shape.days && end <= size
}

// Whether it does, and buffers of these lengths have room for the marks of the days and the readings of the span.
#[tactic(auto, unfolding(crate::specs::Steps::stands_within))]
fn fits(shape: Shape, span: Span, size: usize, marks: usize, readings: usize) -> bool
    ensures { result ≡ (stands_within shape span size && (leb shape.days marks && leb (offset (shape.first + span.start) (span.end - span.start)) readings)) }
{
    stands(shape, span, size)
        && shape.days as usize <= marks
        && place(shape, span, span.end) <= readings
}

// Puts the marks of a file of this shape, and the readings of a span of its days, into lent buffers, and says whether they fit: they stand first,
// the rest is kept. Where they do not fit nothing changes. A bool, and no Result: `filled_if` takes it, and that nothing changes is no refusal.
pub fn load_within(
    file: &[u8],
    shape: Shape,
    span: Span,
    marks: &mut [u8],
    readings: &mut [u32],
) -> bool
    ensures said { result ≡ fits_within shape span file.now (length marks.old) (length readings.old) }
    ensures held_marks { marks.new ≡ filled_if result (table_within shape file.now).marks marks.old }
    ensures held_readings { readings.new ≡ filled_if result (span_within shape span file.now).readings readings.old }
{
    let fits = fits(shape, span, file.len(), marks.len(), readings.len());
    if fits {
        load_marks(file, shape, marks);
        load_readings(file, shape, span, readings);
    }
    fits
}

// How many of the readings that start at a place of the file are good before the first that is not: they pass through a lent buffer.
fn pass_day(file: &[u8], at: usize, day: &mut [u32]) -> usize
    requires { at + 4 * length day.old ≤ length file.now }
    ensures value { result ≡ leading good_reading (numbers (length day.old) (drop at file.now)) }
    ensures day_len_unchanged { length day.new ≡ length day.old }
{
    load_day(file, at, day);
    day_readings::first_bad_reading(day)
}

// The same for the days of a span, one after the other through one buffer.
fn pass_days(file: &[u8], shape: Shape, span: Span) -> usize
    requires { Stands file.now shape span }
    ensures { result ≡ leading good_reading (span_within shape span file.now).readings }
{
    let base = file_starts::base(shape);
    let mut day = [0u32; QUARTERS];
    for k in span.start..span.end {
        let start = place(shape, span, k);
        let size = place(shape, span, k + 1) - start;
        let at = file_starts::day_start(base, shape.first, k) + BEFORE_READINGS;
        let good = pass_day(file, at, &mut day[..size]);
        if good < size {
            return start + good;
        }
    }
    place(shape, span, span.end)
}

// The place of the first bad reading of a span of days, among its own readings; their number where there is none, as `leading` has it. The days are tested on their way
// through one buffer, and none is kept. Where the span does not stand in the file it is 0.
pub fn first_bad_reading(file: &[u8], shape: Shape, span: Span) -> usize
    ensures { result ≡ bad_within shape span file.now }
{
    // no buffer is filled for no days
    if span.end <= span.start || !stands(shape, span, file.len()) {
        return 0;
    }
    pass_days(file, shape, span)
}
