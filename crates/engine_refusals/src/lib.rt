// The refusals of a request, 4 to 7, in their order: the first that applies, over a directory of rooms.
#![tactic(auto)]

ghost use Rattle.std.specs.Prelude.{◌≡◌, ◌-◌, ◌<◌, ◌≤◌, true, List, ℕ, OnOk};
ghost use Rattle.method.specs.Verdict.{good_request, request_refusals};
ghost use Rattle.engine_rooms.specs.Rooms.{room_history};
ghost use Rattle.engine_refusals.specs.Steps.{tested};

use engine_rooms::Directory;
use method::{Method, Refusal, Request};

// Whether P, s, e and n are in their ranges, and the method is known.
#[tactic(auto, using(crate::proofs::FirstRefusal::good_is, crate::proofs::FirstRefusal::good_ordered))]
fn is_good(request: Request) -> bool
    ensures good { result ≡ good_request request }
    ensures ordered { result ≡ true → request.s < request.e }
{
    let s = request.s;
    let e = request.e;
    let start = day_ruler::start(request.event);
    let end = day_ruler::end(request.event);
    ((((request.participation <= calendar_dates::LAST_DAY) & ((start <= s) & (s < end)))
        & ((s < e) & (e <= end)))
        & (request.n <= s))
        & Method::try_from(request.method).is_ok()
}

// 4 to 7: what is wrong with the request, for the rooms of its event and so much room for the output. D is not held where no room is.
#[tactic(auto, using(engine_rooms::proofs::Held::event_held, engine_rooms::proofs::Held::event_not), unfolding(crate::specs::Steps::tested, method::specs::Verdict::request_refusals))]
pub fn of_request(request: Request, rooms: &Directory, room: usize) -> Result<(), Refusal>
    ensures first { (readings : List ℕ) → result ≡ tested (request_refusals (room_history request rooms.now readings) request room) }
    ensures fits { OnOk result ((request.s < request.e) × (request.e - request.s ≤ room)) }
{
    if !is_good(request) {
        return Err(Refusal::BadRequest);
    }
    if rooms.held == 0 {
        return Err(Refusal::NotHeld);
    }
    if request.event < request.participation {
        return Err(Refusal::NotYetParticipating);
    }
    if room < ((request.e - request.s) as usize) {
        return Err(Refusal::NoRoom);
    }
    Ok(())
}
