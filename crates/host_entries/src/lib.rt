// The entries for C. Each is total: any bytes, any numbers, any lengths. host_entries_c exports them.
#![tactic(auto)]

ghost use Rattle.std.specs.Prelude.{◌≡◌, length};
ghost use Rattle.method.specs.Table.{most_quarters};
ghost use Rattle.method.specs.Verdict.{verdict};
ghost use Rattle.table_days.specs.Lent.{table_of};
ghost use Rattle.table_days.specs.Part.{part_place};
ghost use Rattle.file_record.specs.Reader.{read_file, event_at_place, move_at_place};
ghost use Rattle.file_record.specs.Writer.{lent};
ghost use Rattle.engine_answer.specs.Answer.{answer_of};
ghost use Rattle.file_baseline.specs.Reply.{file_reply};
ghost use Rattle.host_answer.specs.Telling.{told_by};
ghost use Rattle.host_file.specs.OfFile.{file_told, move_told, event_told};
ghost use Rattle.host_numbers.specs.Numbers.{number_told};
ghost use Rattle.file_days.specs.HeldDay.{mark_in, reading_in};
ghost use Rattle.host_answer.specs.Names.{by_name};
ghost use Rattle.host_calendar.specs.Calendar.{calendar_row};
ghost use Rattle.host_overlap.specs.Overlap.{overlap_row, cut_from};
ghost use Rattle.host_sheet.specs.Sheets.{file_sheet};
ghost use Rattle.calendar_dates.specs.Days.{numbered, dated};
ghost use Rattle.host_plain.specs.Plain.{date_written, day_told, date_told, version};
ghost use Rattle.host_entries.specs.Host.{or_nothing, most_bytes, request_of, TableCall, FileCall, WriteCall, ListingCall};

use host_answer::NOTHING;
use method::Request;
use table_days::LentTable;

// Room for the numerators of any event, four bytes each.
const MOST_BYTES: usize = 4 * method::QUARTERS;

// The baseline of an event of a record file: 0 or the refusal number, and the numerators into `out`, four bytes each, the lowest first.
pub fn hp_baseline(file: &[u8], place: usize, out: &mut [u8]) -> u32
    ensures { FileCall (file_reply file.now place (length out.old)) result out.old out.new }
{
    host_answer::number_of(file_baseline::file_baseline(file, place, out))
}

// What that result tells by name, with room for any event.
pub fn hp_told(file: &[u8], place: usize, name: u32) -> i64
    ensures { result ≡ or_nothing (told_by (answer_of (file_reply file.now place most_bytes)) name) }
{
    let mut out = [0u8; MOST_BYTES];
    let answer = file_baseline::file_baseline(file, place, &mut out);
    host_answer::tell(answer, name).unwrap_or(NOTHING)
}

fn request_of(participation: u32, event: u32, s: u32, e: u32, n: u32, method: u32) -> Request
    ensures { result ≡ request_of participation event s e n method }
{
    Request {
        participation,
        event,
        s,
        e,
        n,
        method,
    }
}

// The baseline by a list of moves over a table in memory: 0 or the refusal number, and the numerators into `out`.
pub fn hp_baseline_table(
    first: u32,
    marks: &[u8],
    readings: &[u32],
    moves: &[u32],
    participation: u32,
    event: u32,
    s: u32,
    e: u32,
    n: u32,
    method: u32,
    out: &mut [u32],
) -> u32
    ensures { TableCall (verdict moves.now (table_of first marks.now readings.now) (request_of participation event s e n method) (length out.old)) result out.old out.new }
{
    let request = request_of(participation, event, s, e, n, method);
    let table = LentTable {
        first,
        marks,
        readings,
    };
    let answer = table_baseline::baseline(&table, moves, request, out);
    host_answer::number_of(answer)
}

// What that result tells by name, with room for any event.
pub fn hp_told_table(
    first: u32,
    marks: &[u8],
    readings: &[u32],
    moves: &[u32],
    participation: u32,
    event: u32,
    s: u32,
    e: u32,
    n: u32,
    method: u32,
    name: u32,
) -> i64
    ensures { result ≡ or_nothing (told_by (answer_of (verdict moves.now (table_of first marks.now readings.now) (request_of participation event s e n method) most_quarters)) name) }
{
    let request = request_of(participation, event, s, e, n, method);
    let mut out = [0u32; method::QUARTERS];
    let table = LentTable {
        first,
        marks,
        readings,
    };
    let answer = table_baseline::baseline(&table, moves, request, &mut out);
    host_answer::tell(answer, name).unwrap_or(NOTHING)
}

// The place of a day's first reading in a table in memory.
pub fn hp_day_part(first: u32, marks: &[u8], readings: &[u32], day: u32) -> i64
    ensures { result ≡ or_nothing (number_told (part_place (table_of first marks.now readings.now) day)) }
{
    let table = LentTable {
        first,
        marks,
        readings,
    };
    host_numbers::tell_number(table.part_place(day)).unwrap_or(NOTHING)
}

// What a record file tells by name: what it holds, or refusal 11.
pub fn hp_file(file: &[u8], name: u32) -> i64
    ensures { result ≡ or_nothing (file_told (read_file file.now) name) }
{
    host_file::tell_file(file_reading::read_file(file), name).unwrap_or(NOTHING)
}

// What the move at a place of a record file tells by name: its two days, nothing where there is none, or refusal 11.
pub fn hp_move(file: &[u8], place: usize, name: u32) -> i64
    ensures { result ≡ or_nothing (move_told (move_at_place (read_file file.now) file.now place) name) }
{
    host_file::tell_move(file_moves::move_at(file, place), name).unwrap_or(NOTHING)
}

// What the event at a place of a record file tells by name: the event, or refusal 11 or 12.
pub fn hp_event(file: &[u8], place: usize, name: u32) -> i64
    ensures { result ≡ or_nothing (event_told (event_at_place (read_file file.now) file.now place) name) }
{
    host_file::tell_event(file_events::event_at(file, place), name).unwrap_or(NOTHING)
}

// What the working of the event at a place of a record file tells by name, of the day `at` days before the event or of the ruler quarter `at`.
pub fn hp_working(file: &[u8], place: usize, at: u32, name: u32) -> i64
    ensures { result ≡ or_nothing (by_name (file_sheet file.now place at) name) }
{
    host_sheet::tell_sheet(file, place, at, name).unwrap_or(NOTHING)
}

// What the overlap of the event at a place of a record file tells by name.
pub fn hp_overlap(file: &[u8], place: usize, name: u32) -> i64
    ensures { result ≡ or_nothing (by_name (overlap_row file.now place) name) }
{
    host_overlap::tell_overlap(file, place, name).unwrap_or(NOTHING)
}

// The first day to cut the days of a record file from.
pub fn hp_cut_from(file: &[u8]) -> i64
    ensures { result ≡ or_nothing (cut_from (read_file file.now) file.now) }
{
    host_overlap::cut_from(file).unwrap_or(NOTHING)
}

// A reading of a day of a record file.
pub fn hp_reading(file: &[u8], day: u32, quarter: u32) -> i64
    ensures { result ≡ or_nothing (number_told (reading_in (read_file file.now) file.now day quarter)) }
{
    host_numbers::tell_number(file_days::reading(file, day, quarter)).unwrap_or(NOTHING)
}

// The mark of a day of a record file.
pub fn hp_mark(file: &[u8], day: u32) -> i64
    ensures { result ≡ or_nothing (number_told (mark_in (read_file file.now) file.now day)) }
{
    host_numbers::tell_number(file_days::mark(file, day)).unwrap_or(NOTHING)
}

// The listing of a record file: its length, and the text into `out`; minus 7 where it does not fit.
pub fn hp_listing(file: &[u8], out: &mut [u8]) -> i64
    ensures { ListingCall file.now result out.old out.new }
{
    host_numbers::tell_length(listing_whole::listing(file, out))
}

// A record file written into `out`: its length, or minus the number of a refusal.
pub fn hp_write(
    participation: u32,
    portfolio: u32,
    first: u32,
    marks: &[u8],
    readings: &[u32],
    moves: &[u32],
    events: &[u32],
    out: &mut [u8],
) -> i64
    ensures { WriteCall (lent participation portfolio first marks.now readings.now moves.now events.now) result out.old out.new }
{
    let written = file_writing::write(
        participation,
        portfolio,
        first,
        marks,
        readings,
        moves,
        events,
        out,
    );
    host_numbers::tell_length(written)
}

// The day number of a date.
pub fn hp_day(year: u32, month: u32, day: u32) -> i64
    ensures { result ≡ or_nothing (day_told (numbered (date_written year month day))) }
{
    host_plain::day_of(year, month, day).unwrap_or(NOTHING)
}

// The date of a day number: year, month and day as one number.
pub fn hp_date(day: u32) -> i64
    ensures { result ≡ or_nothing (date_told (dated day)) }
{
    host_plain::date_of(day).unwrap_or(NOTHING)
}

// What a day of the calendar tells by name, where no holiday was moved.
pub fn hp_calendar(day: u32, name: u32) -> i64
    ensures { result ≡ or_nothing (by_name (calendar_row day) name) }
{
    host_calendar::tell_calendar(day, name).unwrap_or(NOTHING)
}

// The version of these entries, as one number.
pub fn hp_version() -> u32
    ensures { result ≡ version }
{
    host_plain::version()
}
