// A whole record file written into a lent buffer (document 02, orders 1 to 3), or why it is not.
#![tactic(auto)]

ghost use Rattle.std.specs.Prelude.{◌≡◌, true, ◌++◌, ◌+◌, ◌*◌, ◌/◌, ◌^◌, ◌≤◌, length};
ghost use Rattle.base_lists.specs.Lists.{all};
ghost use Rattle.method.specs.Table.{offset};
ghost use Rattle.file_record.specs.Layout.{pf_record, mv_records, dy_records, ev_records, fits_event, file_of};
ghost use Rattle.file_record.specs.Reader.{mv_length, ev_length, shape_base, day_start};
ghost use Rattle.file_record.specs.Writer.{events_of, lent, said, Writes};
ghost use Rattle.file_writing.specs.Steps.{lent_by, Shaped};

use file_record::Shape;
use file_starts::{EV_LENGTH, MV_LENGTH, PF_LENGTH};
use file_writable::EVENT_NUMBERS;
use method::Refusal;

// The MV of the moves, into as many bytes as they have. The parts are cut by their places, here and below: of those of `chunks_exact_mut` no clause says
// what they hold afterwards.
fn put_moves(out: &mut [u8], moves: &[u32])
    requires { length out.old ≡ mv_length * (length moves.now / 2) }
    ensures { out.new ≡ mv_records moves.now }
{
    for i in 0..moves.len() / 2 {
        let start = MV_LENGTH * i;
        let end = start + MV_LENGTH;
        file_putting::put_move(&mut out[start..end], moves[2 * i], moves[2 * i + 1]);
    }
}

// What stands before the days, the PF and the MV, into as many bytes as they have.
fn put_opening(out: &mut [u8], shape: Shape, moves: &[u32])
    requires { (length out.old ≡ shape_base shape) × (shape.moves ≡ length moves.now / 2) }
    ensures { out.new ≡ pf_record shape.participation shape.portfolio ++ mv_records moves.now }
{
    let end = out.len();
    file_putting::put_opening(&mut out[0..PF_LENGTH], shape.participation, shape.portfolio);
    put_moves(&mut out[PF_LENGTH..end], moves);
}

// The DY of the days, into as many bytes as they have.
fn put_days(out: &mut [u8], first: u32, marks: &[u8], readings: &[u32])
    requires { (length marks.now ≤ 128) × (first + length marks.now ≤ 256 ^ 2) × (length readings.now ≡ offset first (length marks.now)) × (length out.old ≡ day_start 0 first (length marks.now)) }
    ensures { out.new ≡ dy_records first marks.now readings.now }
{
    for k in 0..marks.len() as u32 {
        let start = file_starts::day_start(0, first, k);
        let end = file_starts::day_start(0, first, k + 1);
        let from = day_ruler::offset(first, k);
        let to = day_ruler::offset(first, k + 1);
        file_putting::put_day(
            &mut out[start..end],
            first + k,
            marks[k as usize],
            &readings[from..to],
        );
    }
}

// The EV of the events, into as many bytes as they have.
fn put_events(out: &mut [u8], events: &[u32])
    requires { (length out.old ≡ ev_length * (length events.now / 5)) × (all fits_event (events_of events.now) ≡ true) }
    ensures { out.new ≡ ev_records (events_of events.now) }
{
    for i in 0..events.len() / EVENT_NUMBERS {
        let start = EV_LENGTH * i;
        let end = start + EV_LENGTH;
        let at = EVENT_NUMBERS * i;
        file_putting::put_event(
            &mut out[start..end],
            events[at],
            events[at + 1] as u8,
            events[at + 2] as u8,
            events[at + 3] as u8,
            events[at + 4] as u8,
        );
    }
}

// The whole file, into as many bytes as it has; its days end at `start`.
fn put_file(
    out: &mut [u8],
    shape: Shape,
    start: usize,
    marks: &[u8],
    readings: &[u32],
    moves: &[u32],
    events: &[u32],
)
    requires { Shaped shape start marks.now readings.now moves.now events.now out.old }
    ensures { out.new ≡ file_of (said (lent_by shape marks.now readings.now moves.now events.now)) }
{
    let base = file_starts::base(shape) as usize;
    let end = out.len();
    put_opening(&mut out[0..base], shape, moves);
    put_days(&mut out[base..start], shape.first, marks, readings);
    put_events(&mut out[start..end], events);
}

// Writes a record file: its length, with the file first in the buffer and the rest kept; or 1, 13 or 7, and the buffer kept.
pub fn write(
    participation: u32,
    portfolio: u32,
    first: u32,
    marks: &[u8],
    readings: &[u32],
    moves: &[u32],
    events: &[u32],
    out: &mut [u8],
) -> Result<u32, Refusal>
    ensures { Writes (lent participation portfolio first marks.now readings.now moves.now events.now) out.old result out.new }
{
    let matching = file_writable::is_matching(first, marks.len(), readings.len());
    let sayable = file_writable::is_sayable(participation, first, marks.len(), moves, events);
    if !matching {
        return Err(Refusal::BadTable);
    }
    if !sayable {
        return Err(Refusal::Unwritable);
    }
    let count = events.len() / EVENT_NUMBERS;
    let shape = Shape {
        participation,
        portfolio,
        moves: (moves.len() / 2) as u8,
        first,
        days: marks.len() as u32,
        events: count as u32,
    };
    let start = file_starts::day_start(file_starts::base(shape), first, shape.days);
    let end = start + EV_LENGTH * count;
    if out.len() < end {
        return Err(Refusal::NoRoom);
    }
    put_file(
        &mut out[0..end],
        shape,
        start,
        marks,
        readings,
        moves,
        events,
    );
    Ok(end as u32)
}
