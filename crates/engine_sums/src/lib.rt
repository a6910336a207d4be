// The sums of quarters over chosen days that are read where they stand in lent readings. Total: a day that runs past the end has no readings, and
// sums of 32 bits wrap.
#![tactic(auto)]

ghost use Rattle.std.specs.Prelude.{◌≡◌, ◌+◌, ◌%◌, ◌^◌, map, length, slice_index};
ghost use Rattle.base_lists.specs.Lists.{places};
ghost use Rattle.engine_sums.specs.QuarterSteps.{quarter_sum};

// The readings of a part are added to the sums, quarter by quarter. By index: of a zip over the sums nothing is known of what was written.
fn add_part(sums: &mut [u32], part: &[u32])
    requires { length part.now ≡ length sums.old }
    ensures { sums.new ≡ map (λ q. (slice_index sums.old q + slice_index part.now q) % 2 ^ 32) (places (length sums.old) 0) }
{
    for (q, sum) in sums.iter_mut().enumerate() {
        *sum = sum.wrapping_add(part[q]);
    }
}

// What a day has from `start` on is added to the sums.
fn add_day(sums: &mut [u32], day: &[u32], start: usize)
    ensures { sums.new ≡ map (λ q. (slice_index sums.old q + slice_index day.now (start + q)) % 2 ^ 32) (places (length sums.old) 0) }
{
    let from = start.min(day.len());
    let length = (day.len() - from).min(sums.len());
    let part = &mut sums[..length];
    add_part(part, &day[from..from + length]);
}

// The sums over days of `size` readings, of the quarters from `start` on.
pub fn sum_days(readings: &[u32], at: &[u32], size: u32, start: usize, sums: &mut [u32])
    ensures { sums.new ≡ map (λ q. quarter_sum size readings.now at.now (start + q) % 2 ^ 32) (places (length sums.old) 0) }
{
    sums.fill(0);
    for &place in at {
        let day = engine_rooms::readings_at(readings, place, size);
        add_day(sums, day, start);
    }
}
