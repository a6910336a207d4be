// What a day's mark and readings make of it: eligible or spare with its word, or neither (document 01, "Choosing the days").
#![tactic(auto)]

ghost use Rattle.std.specs.Prelude.{◌≡◌, ◌+◌, ◌*◌, ◌-◌, ◌%◌, ◌^◌, min, length, take, drop};
ghost use Rattle.method.specs.Ruler.{against};
ghost use Rattle.method.specs.Eligible.{event_sum};
ghost use Rattle.engine_judging.specs.Steps.{day_from, judged_at};

use method::Request;

// What the readings and marks of a relevant day can make of it, with its word.
#[derive(Clone, Copy, Debug, PartialEq, Eq)]
pub enum Judged {
    Eligible(u64),
    Spare(u64),
}

// The readings of a day over the event's own quarters, as far as it has them, as that part of the day's readings itself.
pub fn event_quarters<'a>(request: Request, part: &'a [u32]) -> &'a [u32]
    ensures list { result.now ≡ take (request.e - request.s) (drop (against request.event request.s) part.now) }
    ensures block { result.ref_ptr.0 ≡ part.entry.ref_ptr.0 }
    ensures byte { result.ref_ptr.1 ≡ part.entry.ref_ptr.1 + 4 * min (against request.event request.s) (length part.now) }
{
    let start = day_ruler::against(request.event, request.s) as usize;
    let count = request.e.saturating_sub(request.s) as usize;
    let from = start.min(part.len());
    &part[from..(start + count).min(part.len())]
}

// The sum of a day's readings over the event's own quarters, as a number of 64 bits.
#[tactic(auto, unfolding(method::specs::Eligible::event_sum))]
fn event_sum(request: Request, part: &[u32]) -> u64
    ensures { result ≡ event_sum request (day_from 0 part.now) % 2 ^ 64 }
{
    let quarters = event_quarters(request, part);
    base_sums::sum(quarters)
}

// What the mark and the readings of the day `back` days before the event make of it; nothing where it is out or a reading is missing.
#[tactic(auto, using(crate::proofs::Judging::judged_out, crate::proofs::Judging::judged_lacking))]
pub fn judge(request: Request, mark: u8, part: &[u32], back: u32) -> Option<Judged>
    ensures { result ≡ judged_at request back (day_from mark part.now) }
{
    if day_marks::is_out(mark) || !day_readings::complete(part) {
        return None;
    }
    let nearness = engine_words::NEAREST.saturating_sub(back);
    let word = engine_words::word(event_sum(request, part), nearness);
    if day_marks::is_event(mark) {
        Some(Judged::Spare(word))
    } else {
        Some(Judged::Eligible(word))
    }
}
