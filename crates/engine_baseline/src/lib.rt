// The baseline over any list of moves, any directory of rooms and any lent readings: refusal 14, refusals 4 to 10, or the answer. A table, a ring
// and a shared store call it with their own directory.
#![tactic(auto)]

ghost use Rattle.std.specs.Prelude.{◌≡◌, true, false, length, Ok};
ghost use Rattle.method.specs.Adjustment.{is_average};
ghost use Rattle.engine_rooms.specs.Rooms.{history_of};
ghost use Rattle.engine_answer.specs.Answer.{Answers};
ghost use Rattle.engine_baseline.specs.Engine.{in_words, over_rooms};
ghost use Rattle.engine_baseline.specs.Steps.{Ready, reply_of};

use engine_answer::{Answer, Chosen};
use engine_rooms::Case;
use method::{Method, Refusal};

// The answer of High X of Y: refusal 10, or the adjustment, with the numerators in the output.
fn adjusted(case: &Case<'_>, chosen: Chosen, out: &mut [u32]) -> Result<Answer, Refusal>
    requires { Ready case.now.request (length out.old) chosen × (is_average case.now.request ≡ false) }
    ensures { Answers (in_words case.now.request (history_of case.now) (reply_of case.now.request (history_of case.now) chosen)) result out.old out.new }
{
    let request = case.request;
    let yesterday = case.part(1);
    let today = case.part(0);
    let Some(end) = engine_adjustment::adjustment_end(request, yesterday, today) else {
        return Err(Refusal::NoAdjustmentWindow(chosen.reach));
    };
    let places = engine_places::placed(case, chosen.days, chosen.count, end);
    let length = (request.e - request.s) as usize;
    let part = &mut out[..length];
    let adjustment = engine_numerators::write(case.readings, places, yesterday, today, part);
    Ok(Answer {
        chosen,
        denominator: 12 * chosen.count,
        adjustment,
    })
}

// The answer of Average X of Y: the sums of the averaged days, over their number.
fn average(case: &Case<'_>, chosen: Chosen, out: &mut [u32]) -> Answer
    requires { Ready case.now.request (length out.old) chosen × (is_average case.now.request ≡ true) }
    ensures { Answers (in_words case.now.request (history_of case.now) (reply_of case.now.request (history_of case.now) chosen)) (Ok result) out.old out.new }
{
    let request = case.request;
    let places = engine_places::placed(case, chosen.days, chosen.count, 0);
    let part = &mut out[..(request.e - request.s) as usize];
    engine_sums::sum_days(
        case.readings,
        places.starts(),
        places.quarters,
        places.start as usize,
        part,
    );
    Answer {
        chosen,
        denominator: chosen.count,
        adjustment: 0,
    }
}

// The baseline over rooms: the first of the refusals 14 and 4 to 10 that applies, or the answer, with the numerators in the first places of the
// output.
pub fn baseline_over(case: &Case<'_>, out: &mut [u32]) -> Result<Answer, Refusal>
    ensures { Answers (over_rooms case.now.moves.now case.now.request case.now.rooms.now case.now.readings.now (length out.old)) result out.old out.new }
{
    if !calendar_groups::is_good_list(case.moves) {
        return Err(Refusal::BadMoves);
    }
    engine_refusals::of_request(case.request, case.rooms, out.len())?;
    let chosen = engine_choice::choose(case)?;
    match case.request.method() {
        Method::AverageXOfY => Ok(average(case, chosen, out)),
        Method::HighXOfY => adjusted(case, chosen, out),
    }
}
