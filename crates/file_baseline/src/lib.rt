// The baseline of an event of a record file, with the numerators as bytes (document 01, "Record file, listing, host entry", the entry that a metering
// platform calls).
#![tactic(auto)]

ghost use Rattle.std.specs.Prelude.{◌/◌, ◌≡◌, length};
ghost use Rattle.base_lists.specs.Lists.{leading};
ghost use Rattle.method.specs.Table.{good_reading};
ghost use Rattle.method.specs.Verdict.{table_refusals, verdict};
ghost use Rattle.engine_refusals.specs.Steps.{tested};
ghost use Rattle.file_record.specs.Reader.{list_in, table_in};
ghost use Rattle.table_bytes.specs.Output.{AnswersInBytes};
ghost use Rattle.file_baseline.specs.Reply.{file_reply};
ghost use Rattle.file_baseline.specs.Steps.{LaidDown, Loaded, asked as days_asked};

use calendar_groups::MOST_MOVES;
use engine_answer::Answer;
use file_record::{Shape, Span};
use method::{QUARTERS, Refusal, Request};
use table_days::LentTable;

// Room for the readings of any days that an event can ask for, and for two more: the compiler then places the buffer at a multiple of 16 bytes, and
// where it does not a call takes a tenth longer (docs/BENCHMARKS.md).
const ROOM: usize = QUARTERS * engine_rooms::DAYS + 2;

// The days that an event can ask for: D and the 45 days before it, as far as the file holds them; none where it does not hold D.
#[tactic(auto, unfolding(crate::specs::Steps::asked))]
fn asked(shape: Shape, event: u32) -> Span
    ensures { result ≡ days_asked shape event }
{
    if shape.first <= event && event - shape.first < shape.days {
        let before = event - shape.first;
        Span {
            start: before.saturating_sub(method::LOOK_BACK),
            end: before + 1,
        }
    } else {
        Span { start: 0, end: 0 }
    }
}

// The place of the first bad reading of a file's table, of which the readings of a span are loaded; their number where there is none, as `leading` has
// it.
fn first_bad_reading(file: &[u8], shape: Shape, span: Span, rooms: &[u32]) -> usize
    requires { Loaded file.now shape span rooms.now }
    ensures { result ≡ leading good_reading (table_in file.now).readings }
{
    let before = Span {
        start: 0,
        end: span.start,
    };
    let start = day_ruler::offset(shape.first, span.start);
    let bad = file_loading::first_bad_reading(file, shape, before);
    if bad < start {
        return bad;
    }
    let inside = day_readings::first_bad_reading(rooms);
    if inside < rooms.len() {
        return start + inside;
    }
    let after = Span {
        start: span.end,
        end: shape.days,
    };
    start + rooms.len() + file_loading::first_bad_reading(file, shape, after)
}

// Refusals 1 to 3 over the whole table of a file, of which the marks and the readings of a span are loaded.
fn of_file(
    file: &[u8],
    shape: Shape,
    span: Span,
    marks: &[u8],
    rooms: &[u32],
) -> Result<(), Refusal>
    requires { Loaded file.now shape span rooms.now × (marks.now ≡ (table_in file.now).marks) }
    ensures { result ≡ tested (table_refusals (table_in file.now)) }
{
    let count = day_ruler::offset(shape.first, shape.days);
    table_refusals::of_marks(shape.first, marks, count)?;
    let reading = first_bad_reading(file, shape, span, rooms);
    if reading < count {
        return Err(Refusal::BadReading(reading as u32));
    }
    Ok(())
}

// The baseline of an event over the table of a file of this shape, whose marks and the days that the event can ask for are loaded. Its
// list of moves is loaded where refusals 1 to 3 let it pass.
fn loaded_baseline(
    file: &[u8],
    shape: Shape,
    request: Request,
    span: Span,
    marks: &[u8],
    rooms: &[u32],
    out: &mut [u8],
) -> Result<Answer, Refusal>
    requires { Loaded file.now shape span rooms.now × (marks.now ≡ (table_in file.now).marks) × (span ≡ days_asked shape request.event) }
    ensures { AnswersInBytes (verdict (list_in file.now) (table_in file.now) request (length out.old / 4)) result out.old out.new }
{
    of_file(file, shape, span, marks, rooms)?;
    let start = span.start as usize;
    let end = span.end as usize;
    let mut moves = [0u32; 2 * MOST_MOVES];
    file_moves::load_list(file, shape, &mut moves);
    let numbers = 2 * (shape.moves as usize);
    let part = LentTable {
        first: shape.first + span.start,
        marks: &marks[start..end],
        readings: rooms,
    };
    table_bytes::over_table_in_bytes(&part, &moves[..numbers], request, out)
}

// The baseline of an event over the table of a file of this shape: what the event can ask for goes into rooms, and the other days are only
// tested.
fn event_baseline(
    file: &[u8],
    shape: Shape,
    request: Request,
    out: &mut [u8],
) -> Result<Answer, Refusal>
    requires { LaidDown file.now shape }
    ensures { AnswersInBytes (verdict (list_in file.now) (table_in file.now) request (length out.old / 4)) result out.old out.new }
{
    let span = asked(shape, request.event);
    let mut marks = [0u8; 128];
    let mut rooms = [0u32; ROOM];
    if !file_loading::load_within(file, shape, span, &mut marks, &mut rooms) {
        return Err(Refusal::BadTable);
    }
    let days = shape.days as usize;
    let count = day_ruler::offset(shape.first, span.end)
        - day_ruler::offset(shape.first, span.start);
    loaded_baseline(
        file,
        shape,
        request,
        span,
        &marks[..days],
        &rooms[..count],
        out,
    )
}

// The baseline of the event at a place, counted from 0: the first refusal that applies, or the answer, with the numerators in the first bytes of
// the output. The file is read once.
pub fn file_baseline(file: &[u8], place: usize, out: &mut [u8]) -> Result<Answer, Refusal>
    ensures { AnswersInBytes (file_reply file.now place (length out.old)) result out.old out.new }
{
    let shape = file_reading::read_file(file)?;
    let request = file_events::event_within(file, shape, place)?;
    event_baseline(file, shape, request, out)
}
