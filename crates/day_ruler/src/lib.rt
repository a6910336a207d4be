// How many quarters a day has, how many stand before a day of a table, and the two-day ruler of an event (document 01, "The lent table and the request").
#![tactic(auto)]

ghost use Rattle.std.specs.Prelude.{◌≡◌};
ghost use Rattle.method.specs.Table.{size as size_of, offset};
ghost use Rattle.method.specs.Ruler.{ruler_start, ruler_end, against as stands_against};

// How many readings a day has.
pub fn size(day: u32) -> u32
    ensures { result ≡ size_of day }
{
    method::QUARTERS as u32
}

// How many readings stand before the day after so many days, of a table that starts at `first`.
pub fn offset(first: u32, days: u32) -> usize
    ensures { result ≡ offset first days }
{
    (size(first) as usize) * (days as usize)
}

// Where day D starts on the ruler of an event, after the quarters of D-1.
pub fn start(event: u32) -> u32
    ensures { result ≡ ruler_start event }
{
    size(event.saturating_sub(1))
}

// Where day D, and with it the ruler, ends.
pub fn end(event: u32) -> u32
    ensures { result ≡ ruler_end event }
{
    start(event) + size(event)
}

// Which reading of a window day stands against a ruler quarter.
pub fn against(event: u32, quarter: u32) -> u32
    ensures { result ≡ stands_against event quarter }
{
    let today = start(event);
    if quarter < today {
        quarter
    } else {
        quarter - today
    }
}
