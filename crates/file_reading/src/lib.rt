// A whole file read: what it holds, or where it is not as laid down.
#![tactic(auto)]

ghost use Rattle.std.specs.Prelude.{◌≡◌, ◌+◌, ◌*◌, ◌^◌, ◌≤◌, ◌<◌, cond, length, drop};
ghost use Rattle.std.specs.Bool.{IsTrue};
ghost use Rattle.std.specs.List.{prefix_len, range_with_len};
ghost use Rattle.method.specs.Table.{most_quarters};
ghost use Rattle.file_record.specs.Reader.{dy_bytes, number_at, is_record, is_mv, dy_length, dy_day, is_dy, is_ev, ev_length, is_dy_of, move_start, days_from, read_file};

use byteorder::{ByteOrder, LittleEndian};
use file_record::Shape;
use file_starts::{
    BEFORE_READINGS, BESIDE_READINGS, EV_LENGTH, MOST_DAYS, MOST_EVENTS, MOST_MOVES, MV_LENGTH,
    PF_LENGTH,
};
use method::Refusal;

// The bytes of the DY of a day.
#[tactic(auto, using(method::proofs::Tables::size_most))]
fn day_length(day: u32) -> usize
    ensures value { result ≡ dy_length day }
    ensures most { result ≤ dy_bytes most_quarters }
{
    BESIDE_READINGS + 4 * (day_ruler::size(day) as usize)
}

// Whether a record of `size` bytes stands at a place, whole and with its mark. Its two letters are compared one by one: both at once, as one number, took
// twice as long on some processors.
#[tactic(auto, unfolding(file_record::specs::Reader::is_record, file_record::specs::Reader::opens_with))]
fn is_record(file: &[u8], at: usize, size: usize, mark: &[u8; 2]) -> bool
    requires { (2 ≤ size) × (at + size < 2 ^ 40) }
    ensures value { result ≡ is_record size mark.now (drop at file.now) }
    ensures whole { IsTrue result → at + size ≤ length file.now }
{
    at + size <= file.len() && (file[at] == mark[0]) & (file[at + 1] == mark[1])
}

// Whether an MV stands at a place.
#[tactic(auto, unfolding(file_record::specs::Reader::is_mv))]
fn is_move(file: &[u8], at: usize) -> bool
    requires { at < 2 ^ 39 }
    ensures { result ≡ is_mv (drop at file.now) }
{
    is_record(file, at, MV_LENGTH, b"MV")
}

// Whether an EV stands at a place.
#[tactic(auto, unfolding(file_record::specs::Reader::is_ev))]
fn is_event(file: &[u8], at: usize) -> bool
    requires { at < 2 ^ 39 }
    ensures { result ≡ is_ev (drop at file.now) }
{
    is_record(file, at, EV_LENGTH, b"EV")
}

// The number of two bytes that stands in a record behind its mark.
fn number(file: &[u8], at: usize) -> u32
    requires { at + 4 ≤ length file.now }
    ensures value { result ≡ number_at 2 2 (drop at file.now) }
    ensures small { result < 65536 }
{
    u32::from(LittleEndian::read_u16(&file[at + 2..]))
}

// Whether a DY of this day stands at a place, with its zero byte zero.
#[tactic(auto, using(file_record::proofs::Records::day_at))]
fn is_day_of(file: &[u8], at: usize, day: u32) -> bool
    requires { at < 2 ^ 39 }
    ensures { result ≡ is_dy_of day (drop at file.now) }
{
    is_record(file, at, day_length(day), b"DY") && (file[at + 5] == 0) & (number(file, at) == day)
}

// How many MV stand one after the other behind the PF.
fn count_moves(file: &[u8]) -> u8
    ensures counted { result ≡ prefix_len (λ k. is_mv (drop (move_start k) file.now)) (range_with_len 0 16) }
    ensures few { result ≤ 16 }
{
    (0..MOST_MOVES)
        .take_while(|&k| is_move(file, file_starts::move_start(k) as usize))
        .count() as u8
}

// The first day, 0 where there is no DY, as `read_file` has it.
#[tactic(auto, using(file_record::proofs::Files::first_cut, file_record::proofs::Files::first_named, file_record::proofs::Files::first_other))]
fn first_in(file: &[u8], base: u32) -> u32
    ensures value { result ≡ cond (is_dy (drop base file.now)) (dy_day (drop base file.now)) 0 }
    ensures small { result < 65536 }
{
    let at = base as usize;
    if file.len() < at + BEFORE_READINGS {
        return 0;
    }
    let day = number(file, at);
    if is_day_of(file, at, day) { day } else { 0 }
}

// How many DY stand one after the other, of consecutive days, from a place on. Each opens what is left behind those before it: looked for by their
// places, with `take_while`, they took 1.2 to 1.7 times as long, by where the code came to lie.
#[tactic(auto, using(file_record::proofs::Records::day_whole))]
fn count_days(file: &[u8], base: u32, first: u32) -> u32
    requires { first < 65536 }
    ensures counted { result ≡ days_from first (drop base file.now) }
    ensures few { result ≤ 128 }
{
    let mut rest = &file[(base as usize).min(file.len())..];
    for days in 0..MOST_DAYS {
        let day = first + days;
        if !is_day_of(rest, 0, day) {
            return days;
        }
        rest = &rest[day_length(day)..];
    }
    MOST_DAYS
}

// How many EV stand one after the other from a place on.
fn count_events(file: &[u8], start: usize) -> u32
    requires { start < 60000 }
    ensures counted { result ≡ prefix_len (λ i. is_ev (drop (start + ev_length * i) file.now)) (range_with_len 0 64) }
    ensures few { result ≤ 64 }
{
    (0..MOST_EVENTS)
        .take_while(|&i| is_event(file, start + EV_LENGTH * (i as usize)))
        .count() as u32
}

// Reads a whole file: what it holds, or where it is refused.
pub fn read_file(file: &[u8]) -> Result<Shape, Refusal>
    ensures { result ≡ read_file file.now }
{
    if !is_record(file, 0, PF_LENGTH, b"PF") {
        return Err(Refusal::BadFile(0));
    }
    let moves = count_moves(file);
    let base = file_starts::move_start(moves);
    let first = first_in(file, base);
    let days = count_days(file, base, first);
    let start = file_starts::day_start(base, first, days);
    let events = count_events(file, start);
    let end = start + EV_LENGTH * (events as usize);
    if end != file.len() {
        return Err(Refusal::BadFile(end as u32));
    }
    Ok(Shape {
        participation: number(file, 0),
        portfolio: LittleEndian::read_u32(&file[4..]),
        moves,
        first,
        days,
        events,
    })
}
