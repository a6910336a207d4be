// What a caller written in C is told of an answer by include/honeyplank.h.
#![tactic(auto)]

ghost use Rattle.std.specs.Prelude.{◌≡◌, map, take};
ghost use Rattle.host_answer.specs.Names.{told, by_name, refusal_row};
ghost use Rattle.host_answer.specs.Telling.{number_of, answer_row, told_by};

use engine_answer::Answer;
use method::Refusal;

pub mod names;

// HP_NOTHING of include/honeyplank.h: what C gets where nothing is told.
pub const NOTHING: i64 = i64::MIN;

// A number that is told.
pub fn told(number: u32) -> Option<i64>
    ensures { result ≡ told number }
{
    Some(i64::from(number))
}

// 0 for an answer, else the refusal's number.
pub fn number_of(answer: Result<Answer, Refusal>) -> u32
    ensures { result ≡ number_of answer }
{
    match answer {
        Ok(_) => 0,
        Err(refusal) => refusal.number(),
    }
}

// The number at a place of the first `count`; nothing past them.
#[tactic(auto, using(crate::proofs::Telling::number_past, crate::proofs::Telling::number_there))]
fn number_at(numbers: &[u32], count: usize, place: usize) -> Option<i64>
    ensures { result ≡ by_name (map told (take count numbers.now)) place }
{
    if count <= place {
        return None;
    }
    told(*numbers.get(place)?)
}

// Of a refusal: its number, and what it carries.
#[tactic(auto, using(crate::proofs::Telling::first_carried, crate::proofs::Telling::second_carried, crate::proofs::Telling::no_first, crate::proofs::Telling::no_second, crate::proofs::Telling::nothing_carried), unfolding(crate::specs::Names::by_name, crate::specs::Names::refusal_row))]
pub fn tell_refusal(refusal: Refusal, name: u32) -> Option<i64>
    ensures { result ≡ by_name (refusal_row refusal) name }
{
    let [first, second] = refusal.carried();
    match name {
        names::RESULT => told(refusal.number()),
        names::CARRIED => told(first?),
        names::CARRIED_SECOND => told(second?),
        _ => None,
    }
}

// Of an answer that is not refused.
#[tactic(auto, using(crate::proofs::Telling::no_name, crate::proofs::Telling::day_told), unfolding(crate::specs::Names::by_name, crate::specs::Names::row_from, crate::specs::Telling::answer_row))]
fn tell_answered(answer: Answer, name: u32) -> Option<i64>
    ensures { result ≡ by_name (answer_row answer) name }
{
    let chosen = answer.chosen;
    match name {
        names::RESULT => told(0),
        names::COUNT => told(chosen.count),
        names::DAY_1..=names::DAY_5 => number_at(
            &chosen.days,
            chosen.count as usize,
            (name - names::DAY_1) as usize,
        ),
        names::REACH => told(chosen.reach),
        names::DENOMINATOR => told(answer.denominator),
        names::ADJUSTMENT => Some(answer.adjustment),
        _ => None,
    }
}

// What an answer tells by name.
#[tactic(auto, using(crate::proofs::Telling::by_answer))]
pub fn tell(answer: Result<Answer, Refusal>, name: u32) -> Option<i64>
    ensures { result ≡ told_by answer name }
{
    match answer {
        Ok(answer) => tell_answered(answer, name),
        Err(refusal) => tell_refusal(refusal, name),
    }
}
