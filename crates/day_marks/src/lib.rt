// The mark byte of a day: which bits are set, and the first mark that is not as 01 says ("Bit 0: .. Bit 1: ..").
#![tactic(auto)]

ghost use Rattle.std.specs.Prelude.{◌≡◌};
ghost use Rattle.base_lists.specs.Lists.{all, leading};
ghost use Rattle.method.specs.Table.{good_mark, event_bit, outage_bit};

// Whether mark bit 0 is set: a demand response event was recorded.
pub fn is_event(mark: u8) -> bool
    ensures { result ≡ event_bit mark }
{
    mark & 1 != 0
}

// Whether mark bit 1 is set: outage or force majeure.
pub fn is_out(mark: u8) -> bool
    ensures { result ≡ outage_bit mark }
{
    mark & 2 != 0
}

// Whether no mark has another bit. A `fold` has no branch, so that it takes several marks at a time; `all`, which stops at the first, took nine times as
// long over 128.
fn all_good(marks: &[u8]) -> bool
    ensures { result ≡ all good_mark marks.now }
{
    marks.iter().fold(true, |good, &mark| good & (mark < 4))
}

// The place of the first mark with another bit; the number of marks where there is none, as `leading` has it.
pub fn first_bad_mark(marks: &[u8]) -> usize
    ensures { result ≡ leading good_mark marks.now }
{
    if all_good(marks) {
        return marks.len();
    }
    let bad = marks.iter().position(|&mark| mark & 252 != 0);
    bad.unwrap_or(marks.len())
}
