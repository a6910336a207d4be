// What a caller written in C is told by include/honeyplank.h of the working of the event at a place of a record file, by name. Total: any bytes, any place.
#![tactic(auto)]

ghost use Rattle.std.specs.Prelude.{◌≡◌, Ok};
ghost use Rattle.file_record.specs.Reader.{read_file, list_in, table_in};
ghost use Rattle.host_answer.specs.Names.{by_name};
ghost use Rattle.host_table.specs.OverTable.{table_sheet};
ghost use Rattle.host_sheet.specs.Sheets.{file_sheet};

use calendar_groups::MOST_MOVES;
use file_record::{Shape, Span};
use host_answer::tell_refusal;
use method::{QUARTERS, Refusal, Request};
use table_days::LentTable;

// Of an event over a file of this shape, of which the moves and the whole table are loaded.
fn tell_event(file: &[u8], shape: Shape, request: Request, at: u32, name: u32) -> Option<i64>
    requires { read_file file.now ≡ Ok shape }
    ensures { result ≡ by_name (table_sheet (list_in file.now) (table_in file.now) request at) name }
{
    let mut moves = [0u32; 2 * MOST_MOVES];
    file_moves::load_list(file, shape, &mut moves);
    let numbers = 2 * (shape.moves as usize);
    let mut marks = [0u8; 128];
    let mut readings = [0u32; QUARTERS * 128];
    let whole = Span {
        start: 0,
        end: shape.days,
    };
    file_loading::load_within(file, shape, whole, &mut marks, &mut readings);
    let days = shape.days as usize;
    let count = day_ruler::offset(shape.first, shape.days);
    let table = LentTable {
        first: shape.first,
        marks: &marks[..days],
        readings: &readings[..count],
    };
    host_table::tell_table(&table, &moves[..numbers], request, at, name)
}

// The number of a name, of the event at a place of the file, counted from 0.
pub fn tell_sheet(file: &[u8], place: usize, at: u32, name: u32) -> Option<i64>
    ensures { result ≡ by_name (file_sheet file.now place at) name }
{
    match file_reading::read_file(file) {
        Ok(shape) => match file_events::event_within(file, shape, place) {
            Ok(request) => tell_event(file, shape, request, at, name),
            Err(no_event) => tell_refusal(no_event, name),
        },
        Err(bad_file) => tell_refusal(bad_file, name),
    }
}
