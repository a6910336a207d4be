// The events of a record file, as requests.
#![tactic(auto)]

ghost use Rattle.std.specs.Prelude.{◌≡◌, ◌≤◌, length};
ghost use Rattle.file_record.specs.Reader.{ev_length, read_file, event_of, request_of, event_at_place};
ghost use Rattle.file_record.specs.Steps.{event_within};

use byteorder::{ByteOrder, LittleEndian};
use file_record::Shape;
use file_starts::EV_LENGTH;
use method::{Refusal, Request};

// The request that an EV makes.
fn request_of(ev: &[u8], participation: u32) -> Request
    requires { ev_length ≤ length ev.now }
    ensures { result ≡ request_of participation (event_of ev.now) }
{
    Request {
        participation,
        event: u32::from(LittleEndian::read_u16(&ev[2..])),
        s: u32::from(ev[4]),
        e: u32::from(ev[5]),
        n: u32::from(ev[6]),
        method: u32::from(ev[7]),
    }
}

// The event at a place, counted from 0, as a request: in a file of this shape.
pub fn event_within(file: &[u8], shape: Shape, place: usize) -> Result<Request, Refusal>
    ensures { result ≡ event_within shape file.now place }
{
    if place >= shape.events as usize {
        return Err(Refusal::NoEvent);
    }
    let at = file_starts::day_start(file_starts::base(shape), shape.first, shape.days)
        + EV_LENGTH * place;
    let Some(ev) = file.get(at..at + EV_LENGTH) else {
        return Err(Refusal::NoEvent);
    };
    Ok(request_of(ev, shape.participation))
}

// The event at a place of a file.
pub fn event_at(file: &[u8], place: usize) -> Result<Request, Refusal>
    ensures { result ≡ event_at_place (read_file file.now) file.now place }
{
    let shape = file_reading::read_file(file)?;
    event_within(file, shape, place)
}
