// The quarter lines of an event. 01: "Quarter line: t, numerator, rounded kW."
#![tactic(auto)]

ghost use Rattle.std.specs.Prelude.{◌≡◌, ◌+◌, ◌-◌, ◌*◌, ◌^◌, ◌≤◌, ◌<◌, min, length, take};
ghost use Rattle.method.specs.Table.{most_quarters};
ghost use Rattle.method.specs.Adjustment.{rounded};
ghost use Rattle.base_text.specs.TextSteps.{Keeps};
ghost use Rattle.listing_lines.specs.Lines.{line_text, lines_text};
ghost use Rattle.listing_lines.specs.Listing.{quarter_line, quarter_lines};
ghost use Rattle.listing_lines.specs.WriteSteps.{Writes, PutsWithin};
ghost use Rattle.listing_quarter_lines.specs.Room.{line_room, quarters_room};

use base_text::Text;
use method::Request;

// The longest that the line of a quarter gets, and those of a day's quarters.
const LINE_ROOM: usize = 33;

pub const QUARTERS_ROOM: usize = LINE_ROOM * method::QUARTERS;

// The nearest whole number of kW, halves up; 0 over 0.
fn rounded(numerator: u32, denominator: u32) -> u32
    ensures { result ≡ rounded numerator denominator }
{
    if denominator == 0 {
        return 0;
    }
    let over = u64::from(denominator);
    ((2 * u64::from(numerator) + over) / (2 * over)) as u32
}

// The line of quarter t.
fn put_quarter(text: &mut Text<'_>, denominator: u32, t: u32, numerator: u32)
    requires { text.old.at + line_room ≤ length text.old.out.now }
    ensures keeps { Keeps text.old text.new }
    ensures writes { Writes text.old.out.now text.old.at (line_text (quarter_line denominator t numerator)) text.new.at text.new.out.now }
    ensures most { text.new.at ≤ text.old.at + line_room }
{
    text.put_number(t);
    text.put_field(b" ", numerator);
    text.put_field(b" ", rounded(numerator, denominator));
    text.put_bytes(b"\n");
}

// The lines of the quarters from `first` on, one for each numerator. The quarter is counted beside them: `enumerate` gives a usize, to be cast to it.
fn put_lines(text: &mut Text<'_>, denominator: u32, first: u32, numerators: &[u32])
    requires room { text.old.at + line_room * length numerators.now ≤ length text.old.out.now }
    requires quarters { first + length numerators.now < 2 ^ 32 }
    ensures keeps { Keeps text.old text.new }
    ensures writes { Writes text.old.out.now text.old.at (lines_text (quarter_lines denominator first numerators.now)) text.new.at text.new.out.now }
    ensures most { text.new.at ≤ text.old.at + line_room * length numerators.now }
{
    let mut t = first;
    for &numerator in numerators {
        put_quarter(text, denominator, t, numerator);
        t += 1;
    }
}

// The lines of the event's quarters, a day's at most, from place `at` on; the numerators are those of the quarters from s.
pub fn put_quarters(
    out: &mut [u8],
    at: usize,
    request: Request,
    denominator: u32,
    numerators: &[u32],
) -> usize
    ensures { PutsWithin quarters_room out.old at (lines_text (quarter_lines denominator request.s (take (min (request.e - request.s) most_quarters) numerators.now))) result out.new }
{
    if out.len().saturating_sub(at) < QUARTERS_ROOM {
        return at;
    }
    let quarters = request.e.saturating_sub(request.s) as usize;
    let count = quarters.min(method::QUARTERS).min(numerators.len());
    let mut text = Text { out, at };
    put_lines(&mut text, denominator, request.s, &numerators[..count]);
    text.at
}
