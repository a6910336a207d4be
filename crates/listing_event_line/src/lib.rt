// The line of an event. 01: "Event line: D, s, e, N, chosen days by rank, reach, denominator, adjustment numerator." and "Refusal line: D, s, e,
// number and what it carries."
#![tactic(auto)]

ghost use Rattle.std.specs.Prelude.{[], ◌∷◌, ◌++◌, map, ◌+◌, ◌*◌, ◌≤◌, length, take};
ghost use Rattle.base_lists.specs.Ascii.{ascii};
ghost use Rattle.base_digits.specs.Digits.{dec, decimal};
ghost use Rattle.base_text.specs.TextSteps.{Keeps};
ghost use Rattle.listing_lines.specs.Lines.{newline, spaced, line_text};
ghost use Rattle.listing_lines.specs.Listing.{numbers, event_line, refusal_line};
ghost use Rattle.listing_lines.specs.WriteSteps.{Writes, PutsWithin};
ghost use Rattle.listing_event_line.specs.Carried.{there};
ghost use Rattle.listing_event_line.specs.Room.{event_room, refusal_room};

use base_text::Text;
use engine_answer::Chosen;
use method::{Refusal, Request};

// The longest that each line gets.
pub const EVENT_ROOM: usize = 162;

const REFUSAL_ROOM: usize = 100;

// D, s and e, by which the line opens.
fn put_three(text: &mut Text<'_>, request: Request)
    requires { text.old.at + 32 ≤ length text.old.out.now }
    ensures keeps { Keeps text.old text.new }
    ensures writes { Writes text.old.out.now text.old.at (dec request.event ++ spaced (dec request.s ∷ dec request.e ∷ [])) text.new.at text.new.out.now }
    ensures most { text.new.at ≤ text.old.at + 32 }
{
    text.put_number(request.event);
    text.put_field(b" ", request.s);
    text.put_field(b" ", request.e);
}

// Numbers, each after a space.
fn put_numbers(text: &mut Text<'_>, numbers: &[u32])
    requires { text.old.at + 11 * length numbers.now ≤ length text.old.out.now }
    ensures keeps { Keeps text.old text.new }
    ensures writes { Writes text.old.out.now text.old.at (spaced (map dec numbers.now)) text.new.at text.new.out.now }
    ensures most { text.new.at ≤ text.old.at + 11 * length numbers.now }
{
    for &number in numbers {
        text.put_field(b" ", number);
    }
}

// What stands after the days, to the line's end.
fn put_close(text: &mut Text<'_>, reach: u32, denominator: u32, adjustment: i64)
    requires { text.old.at + 59 ≤ length text.old.out.now }
    ensures keeps { Keeps text.old text.new }
    ensures writes { Writes text.old.out.now text.old.at (spaced (ascii "reach" ∷ dec reach ∷ ascii "over" ∷ dec denominator ∷ ascii "adj" ∷ decimal adjustment ∷ []) ++ (newline ∷ [])) text.new.at text.new.out.now }
    ensures most { text.new.at ≤ text.old.at + 59 }
{
    text.put_field(b" reach ", reach);
    text.put_field(b" over ", denominator);
    text.put_bytes(b" adj ");
    text.put_signed(adjustment);
    text.put_bytes(b"\n");
}

// The line of an event that is answered: at most five days are told.
fn put_answered(
    text: &mut Text<'_>,
    request: Request,
    chosen: Chosen,
    denominator: u32,
    adjustment: i64,
)
    requires { text.old.at + event_room ≤ length text.old.out.now }
    ensures keeps { Keeps text.old text.new }
    ensures writes { Writes text.old.out.now text.old.at (line_text (event_line request (take chosen.count chosen.days) chosen.reach denominator adjustment)) text.new.at text.new.out.now }
    ensures most { text.new.at ≤ text.old.at + event_room }
{
    let count = chosen.count.min(5);
    put_three(text, request);
    text.put_field(b" days ", count);
    put_numbers(text, &chosen.days[..count as usize]);
    put_close(text, chosen.reach, denominator, adjustment);
}

// A number that a refusal carries, after a space, where there is one.
fn put_carried(text: &mut Text<'_>, carried: Option<u32>)
    requires { text.old.at + 11 ≤ length text.old.out.now }
    ensures keeps { Keeps text.old text.new }
    ensures writes { Writes text.old.out.now text.old.at (spaced (map dec (there carried))) text.new.at text.new.out.now }
    ensures most { text.new.at ≤ text.old.at + 11 }
{
    if let Some(number) = carried {
        text.put_field(b" ", number);
    }
}

// The line of an event that is refused.
fn put_refused(text: &mut Text<'_>, request: Request, refusal: Refusal)
    requires { text.old.at + refusal_room ≤ length text.old.out.now }
    ensures keeps { Keeps text.old text.new }
    ensures writes { Writes text.old.out.now text.old.at (line_text (refusal_line request refusal)) text.new.at text.new.out.now }
    ensures most { text.new.at ≤ text.old.at + refusal_room }
{
    let [first, second] = refusal.carried();
    put_three(text, request);
    text.put_field(b" refused ", refusal.number());
    put_carried(text, first);
    put_carried(text, second);
    text.put_bytes(b"\n");
}

// The line of an event that is answered, at the start of the buffer.
pub fn put_event_line(
    out: &mut [u8],
    request: Request,
    chosen: Chosen,
    denominator: u32,
    adjustment: i64,
) -> usize
    ensures { PutsWithin event_room out.old 0 (line_text (event_line request (take chosen.count chosen.days) chosen.reach denominator adjustment)) result out.new }
{
    if out.len() < EVENT_ROOM {
        return 0;
    }
    let mut text = Text { out, at: 0 };
    put_answered(&mut text, request, chosen, denominator, adjustment);
    text.at
}

// The line of an event that is refused, at the start of the buffer.
pub fn put_refusal(out: &mut [u8], request: Request, refusal: Refusal) -> usize
    ensures { PutsWithin refusal_room out.old 0 (line_text (refusal_line request refusal)) result out.new }
{
    if out.len() < REFUSAL_ROOM {
        return 0;
    }
    let mut text = Text { out, at: 0 };
    put_refused(&mut text, request, refusal);
    text.at
}
