// The entries for C, exported under their names: each is that of host_entries, with the same contract. include/honeyplank.h says what each does.
#![tactic(auto)]

ghost use Rattle.std.specs.Prelude.{◌≡◌, length};
ghost use Rattle.method.specs.Table.{most_quarters};
ghost use Rattle.method.specs.Verdict.{verdict};
ghost use Rattle.table_days.specs.Lent.{table_of};
ghost use Rattle.table_days.specs.Part.{part_place};
ghost use Rattle.file_record.specs.Reader.{read_file, event_at_place, move_at_place};
ghost use Rattle.file_record.specs.Writer.{lent};
ghost use Rattle.engine_answer.specs.Answer.{answer_of};
ghost use Rattle.file_baseline.specs.Reply.{file_reply};
ghost use Rattle.host_answer.specs.Telling.{told_by};
ghost use Rattle.host_file.specs.OfFile.{file_told, move_told, event_told};
ghost use Rattle.host_numbers.specs.Numbers.{number_told};
ghost use Rattle.file_days.specs.HeldDay.{mark_in, reading_in};
ghost use Rattle.host_answer.specs.Names.{by_name};
ghost use Rattle.host_calendar.specs.Calendar.{calendar_row};
ghost use Rattle.host_overlap.specs.Overlap.{overlap_row, cut_from};
ghost use Rattle.host_sheet.specs.Sheets.{file_sheet};
ghost use Rattle.calendar_dates.specs.Days.{numbered, dated};
ghost use Rattle.host_plain.specs.Plain.{date_written, day_told, date_told, version};
ghost use Rattle.host_entries.specs.Host.{or_nothing, most_bytes, request_of, TableCall, FileCall, WriteCall, ListingCall};

#[unsafe(no_mangle)]
pub extern "C" fn hp_baseline(file: &[u8], place: usize, out: &mut [u8]) -> u32
    ensures { FileCall (file_reply file.now place (length out.old)) result out.old out.new }
{
    host_entries::hp_baseline(file, place, out)
}

#[unsafe(no_mangle)]
pub extern "C" fn hp_told(file: &[u8], place: usize, name: u32) -> i64
    ensures { result ≡ or_nothing (told_by (answer_of (file_reply file.now place most_bytes)) name) }
{
    host_entries::hp_told(file, place, name)
}

#[unsafe(no_mangle)]
pub extern "C" fn hp_baseline_table(
    first: u32,
    marks: &[u8],
    readings: &[u32],
    moves: &[u32],
    participation: u32,
    event: u32,
    s: u32,
    e: u32,
    n: u32,
    method: u32,
    out: &mut [u32],
) -> u32
    ensures { TableCall (verdict moves.now (table_of first marks.now readings.now) (request_of participation event s e n method) (length out.old)) result out.old out.new }
{
    host_entries::hp_baseline_table(
        first,
        marks,
        readings,
        moves,
        participation,
        event,
        s,
        e,
        n,
        method,
        out,
    )
}

#[unsafe(no_mangle)]
pub extern "C" fn hp_told_table(
    first: u32,
    marks: &[u8],
    readings: &[u32],
    moves: &[u32],
    participation: u32,
    event: u32,
    s: u32,
    e: u32,
    n: u32,
    method: u32,
    name: u32,
) -> i64
    ensures { result ≡ or_nothing (told_by (answer_of (verdict moves.now (table_of first marks.now readings.now) (request_of participation event s e n method) most_quarters)) name) }
{
    host_entries::hp_told_table(
        first,
        marks,
        readings,
        moves,
        participation,
        event,
        s,
        e,
        n,
        method,
        name,
    )
}

#[unsafe(no_mangle)]
pub extern "C" fn hp_day_part(first: u32, marks: &[u8], readings: &[u32], day: u32) -> i64
    ensures { result ≡ or_nothing (number_told (part_place (table_of first marks.now readings.now) day)) }
{
    host_entries::hp_day_part(first, marks, readings, day)
}

#[unsafe(no_mangle)]
pub extern "C" fn hp_file(file: &[u8], name: u32) -> i64
    ensures { result ≡ or_nothing (file_told (read_file file.now) name) }
{
    host_entries::hp_file(file, name)
}

#[unsafe(no_mangle)]
pub extern "C" fn hp_move(file: &[u8], place: usize, name: u32) -> i64
    ensures { result ≡ or_nothing (move_told (move_at_place (read_file file.now) file.now place) name) }
{
    host_entries::hp_move(file, place, name)
}

#[unsafe(no_mangle)]
pub extern "C" fn hp_event(file: &[u8], place: usize, name: u32) -> i64
    ensures { result ≡ or_nothing (event_told (event_at_place (read_file file.now) file.now place) name) }
{
    host_entries::hp_event(file, place, name)
}

#[unsafe(no_mangle)]
pub extern "C" fn hp_working(file: &[u8], place: usize, at: u32, name: u32) -> i64
    ensures { result ≡ or_nothing (by_name (file_sheet file.now place at) name) }
{
    host_entries::hp_working(file, place, at, name)
}

#[unsafe(no_mangle)]
pub extern "C" fn hp_overlap(file: &[u8], place: usize, name: u32) -> i64
    ensures { result ≡ or_nothing (by_name (overlap_row file.now place) name) }
{
    host_entries::hp_overlap(file, place, name)
}

#[unsafe(no_mangle)]
pub extern "C" fn hp_cut_from(file: &[u8]) -> i64
    ensures { result ≡ or_nothing (cut_from (read_file file.now) file.now) }
{
    host_entries::hp_cut_from(file)
}

#[unsafe(no_mangle)]
pub extern "C" fn hp_reading(file: &[u8], day: u32, quarter: u32) -> i64
    ensures { result ≡ or_nothing (number_told (reading_in (read_file file.now) file.now day quarter)) }
{
    host_entries::hp_reading(file, day, quarter)
}

#[unsafe(no_mangle)]
pub extern "C" fn hp_mark(file: &[u8], day: u32) -> i64
    ensures { result ≡ or_nothing (number_told (mark_in (read_file file.now) file.now day)) }
{
    host_entries::hp_mark(file, day)
}

#[unsafe(no_mangle)]
pub extern "C" fn hp_listing(file: &[u8], out: &mut [u8]) -> i64
    ensures { ListingCall file.now result out.old out.new }
{
    host_entries::hp_listing(file, out)
}

#[unsafe(no_mangle)]
pub extern "C" fn hp_write(
    participation: u32,
    portfolio: u32,
    first: u32,
    marks: &[u8],
    readings: &[u32],
    moves: &[u32],
    events: &[u32],
    out: &mut [u8],
) -> i64
    ensures { WriteCall (lent participation portfolio first marks.now readings.now moves.now events.now) result out.old out.new }
{
    host_entries::hp_write(
        participation,
        portfolio,
        first,
        marks,
        readings,
        moves,
        events,
        out,
    )
}

#[unsafe(no_mangle)]
pub extern "C" fn hp_day(year: u32, month: u32, day: u32) -> i64
    ensures { result ≡ or_nothing (day_told (numbered (date_written year month day))) }
{
    host_entries::hp_day(year, month, day)
}

#[unsafe(no_mangle)]
pub extern "C" fn hp_date(day: u32) -> i64
    ensures { result ≡ or_nothing (date_told (dated day)) }
{
    host_entries::hp_date(day)
}

#[unsafe(no_mangle)]
pub extern "C" fn hp_calendar(day: u32, name: u32) -> i64
    ensures { result ≡ or_nothing (by_name (calendar_row day) name) }
{
    host_entries::hp_calendar(day, name)
}

#[unsafe(no_mangle)]
pub extern "C" fn hp_version() -> u32
    ensures { result ≡ version }
{
    host_entries::hp_version()
}
