// The whole listing of a record file in one lent buffer (document 01, "Record file, listing, host entry").
#![tactic(auto)]

ghost use Rattle.std.specs.Prelude.{◌≡◌, ◌+◌, ◌*◌, ◌≤◌, ◌<◌, length, Ok};
ghost use Rattle.file_record.specs.Reader.{read_file, list_in, table_in, request_at};
ghost use Rattle.listing_lines.specs.Listing.{listing, event_text};
ghost use Rattle.listing_lines.specs.WriteSteps.{event_texts};
ghost use Rattle.listing_lines.specs.WriteSteps.{Writes, PutsWithin};
ghost use Rattle.listing_event.specs.Room.{lines_room};
ghost use Rattle.listing_whole.specs.Steps.{IsLoaded};
ghost use Rattle.listing_whole.specs.Lists.{most_listing, Lists};

use calendar_groups::MOST_MOVES;
use file_record::{Shape, Span};
use file_starts::{MOST_DAYS, MOST_EVENTS};
use method::{QUARTERS, Refusal};
use table_days::LentTable;

// The room that any listing fits: the first line, and the lines of each event.
pub const MOST_LISTING: usize = listing_first_line::OPENING_ROOM
    + MOST_EVENTS as usize * listing_event::LINES_ROOM;

// A file, its table and its list of moves.
#[derive(Clone, Copy)]
struct Loaded<'a> {
    file: &'a [u8],
    shape: Shape,
    marks: &'a [u8],
    readings: &'a [u32],
    moves: &'a [u32],
}

// The lines of the event at a place of the file, over the file's own table, at the start of the buffer.
fn put_event(loaded: &Loaded<'_>, place: usize, out: &mut [u8]) -> usize
    requires { IsLoaded loaded.now × (place < loaded.now.shape.events) }
    ensures { PutsWithin lines_room out.old 0 (event_text (list_in loaded.now.file.now) (table_in loaded.now.file.now) (request_at loaded.now.file.now place)) result out.new }
{
    let table = LentTable {
        first: loaded.shape.first,
        marks: loaded.marks,
        readings: loaded.readings,
    };
    match file_events::event_within(loaded.file, loaded.shape, place) {
        Ok(request) => listing_event::event(&table, loaded.moves, request, out),
        Err(_) => 0,
    }
}

// The lines of the events in their order, each after the one before it, from place `at` on.
fn put_events(loaded: &Loaded<'_>, out: &mut [u8], at: usize) -> usize
    requires { IsLoaded loaded.now × (at + lines_room * loaded.now.shape.events ≤ length out.old) }
    ensures { Writes out.old at (event_texts loaded.now.file.now loaded.now.shape.events 0) result out.new × (result ≤ at + lines_room * loaded.now.shape.events) }
{
    let mut next = at;
    for place in 0..loaded.shape.events as usize {
        next += put_event(loaded, place, &mut out[next..]);
    }
    next
}

// The listing of a file of this shape: its moves and its table are loaded once.
fn put_file(file: &[u8], shape: Shape, out: &mut [u8]) -> usize
    requires { (read_file file.now ≡ Ok shape) × (most_listing ≤ length out.old) }
    ensures { Writes out.old 0 (listing file.now) result out.new × (result ≤ most_listing) }
{
    let mut moves = [0u32; 2 * MOST_MOVES];
    file_moves::load_list(file, shape, &mut moves);
    let numbers = 2 * (shape.moves as usize);
    let mut marks = [0u8; MOST_DAYS as usize];
    let mut readings = [0u32; QUARTERS * MOST_DAYS as usize];
    let whole = Span {
        start: 0,
        end: shape.days,
    };
    file_loading::load_within(file, shape, whole, &mut marks, &mut readings);
    let days = shape.days as usize;
    let count = day_ruler::offset(shape.first, shape.days);
    let next = listing_first_line::opening(Ok(shape), out);
    let loaded = Loaded {
        file,
        shape,
        marks: &marks[..days],
        readings: &readings[..count],
        moves: &moves[..numbers],
    };
    put_events(&loaded, out, next)
}

// The listing, at the start of a buffer that any listing fits.
fn put_listing(file: &[u8], out: &mut [u8]) -> usize
    requires { most_listing ≤ length out.old }
    ensures { Writes out.old 0 (listing file.now) result out.new × (result ≤ most_listing) }
{
    match file_reading::read_file(file) {
        Ok(shape) => put_file(file, shape, out),
        Err(refusal) => listing_first_line::opening(Err(refusal), out),
    }
}

// By way of a buffer that any listing fits, where the lent one may be too short.
fn copied(file: &[u8], out: &mut [u8]) -> Result<u32, Refusal>
    ensures { Lists file.now out.old result out.new }
{
    let mut own = [0u8; MOST_LISTING];
    let end = put_listing(file, &mut own);
    if out.len() < end {
        return Err(Refusal::NoRoom);
    }
    out[..end].copy_from_slice(&own[..end]);
    Ok(end as u32)
}

// The listing of a file: it stands first in `out` and the rest is kept, where it fits, and its length is given; else nothing is written.
pub fn listing(file: &[u8], out: &mut [u8]) -> Result<u32, Refusal>
    ensures { Lists file.now out.old result out.new }
{
    if out.len() < MOST_LISTING {
        return copied(file, out);
    }
    Ok(put_listing(file, out) as u32)
}
