// The lent table: whether refusal 1 lets it pass, which days it holds, and where their readings stand.
#![tactic(auto)]

ghost use Rattle.std.specs.Prelude.{◌≡◌, ◌+◌, ◌-◌, ◌≤◌, true, List, ℕ, length};
ghost use Rattle.method.specs.Table.{is_extract, held, history, offset, size};
ghost use Rattle.table_days.specs.Lent.{table_of, lent};
ghost use Rattle.table_days.specs.Part.{has_day, DayPart, part_place};

// A lent table: its first day, a mark byte a day, and the readings of the same days, in order. Marks and readings are lent apart, so that a part of
// the readings may outlive the marks.
#[derive(Clone, Copy, Debug, PartialEq, Eq)]
pub struct LentTable<'m, 'r> {
    pub first: u32,
    pub marks: &'m [u8],
    pub readings: &'r [u32],
}

// Whether refusal 1 lets a table with so many readings pass, whatever they are: a caller may have them elsewhere.
#[tactic(auto, using(crate::proofs::Extracts::many, crate::proofs::Extracts::empty, crate::proofs::Extracts::unmatched, crate::proofs::Extracts::matched, method::proofs::Tables::offset_most))]
pub fn is_extract(first: u32, marks: &[u8], count: usize) -> bool
    ensures extract { (readings : List ℕ) → length readings ≡ count → result ≡ is_extract (table_of first marks.now readings) }
    ensures few { result ≡ true → length marks.now ≤ 128 }
    ensures sized { result ≡ true → count ≤ 12800 }
{
    let days = marks.len();
    if 128 < days || days == 0 {
        return false;
    }
    if count != day_ruler::offset(first, days as u32) {
        return false;
    }
    (first as usize) + days - 1 <= (calendar_dates::LAST_DAY as usize)
}

impl<'r> LentTable<'_, 'r> {
    // Whether the table holds a day.
    fn is_held(&self, day: u32) -> bool
        ensures { result ≡ held (history (lent self.now)) day }
    {
        self.first <= day && ((day - self.first) as usize) < self.marks.len()
    }

    // Whether there are readings of a day to give.
    #[tactic(auto, using(crate::proofs::Extracts::has_none))]
    fn has(&self, day: u32) -> bool
        ensures is { result ≡ has_day (lent self.now) day }
        ensures inside { result ≡ true → (self.now.first ≤ day) × (offset self.now.first (day - self.now.first) + size day ≤ length self.now.readings.now) }
    {
        is_extract(self.first, self.marks, self.readings.len()) && self.is_held(day)
    }

    // The readings of a day, as that part of the lent readings itself; an empty part for a day that is not held, or a table that
    // refusal 1 turns away.
    pub fn day_part(&self, day: u32) -> &'r [u32]
        ensures { DayPart (lent self.now) day self.now.readings.ref_ptr result.now result.ref_ptr }
    {
        if self.has(day) {
            let at = day_ruler::offset(self.first, day - self.first);
            let end = at + (day_ruler::size(day) as usize);
            &self.readings[at..end]
        } else {
            &self.readings[..0]
        }
    }

    // Where that part stands in the lent readings; an empty part stands nowhere.
    #[tactic(auto, using(crate::proofs::Extracts::place_nowhere, crate::proofs::Extracts::place_from))]
    pub fn part_place(&self, day: u32) -> Option<u32>
        ensures { result ≡ part_place (lent self.now) day }
    {
        let part = self.day_part(day);
        if part.is_empty() {
            return None;
        }
        Some(day_ruler::offset(self.first, day - self.first) as u32)
    }
}
