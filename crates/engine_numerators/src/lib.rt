// The adjustment and the numerators of days that are read where they stand in lent readings. Total: a day that runs past the end has no
// readings, and numbers of 32 bits wrap.
#![tactic(auto)]

ghost use Rattle.std.specs.Prelude.{◌≡◌, map, ◌%◌, ◌^◌, ◌≤◌, ◌<◌, length, get_or};
ghost use Rattle.std.specs.Int.Signed.{mag};
ghost use Rattle.base_lists.specs.Lists.{places};
ghost use Rattle.method.specs.Adjustment.{unfloored, floored, adjustment as adjusted};
ghost use Rattle.engine_numerators.specs.NumeratorSteps.{window_sums, counted, chosen_at, Written};

use engine_places::Places;

// A numerator: twelve times a sum and the adjustment's numerator, floored at zero.
fn numerator(sum: u32, adjustment: i64) -> u32
    requires { mag adjustment < 2 ^ 40 }
    ensures { result ≡ floored (unfloored 12 sum adjustment) % 2 ^ 32 }
{
    let raw = 12 * i64::from(sum) + adjustment;
    (raw.max(0) as u64 % 4294967296) as u32
}

// Every sum becomes its numerator.
fn floor(sums: &mut [u32], adjustment: i64)
    requires { mag adjustment < 2 ^ 40 }
    ensures { sums.new ≡ map (λ q. floored (unfloored 12 (get_or sums.old q 0) adjustment) % 2 ^ 32) (places (length sums.old) 0) }
{
    for sum in sums.iter_mut() {
        *sum = numerator(*sum, adjustment);
    }
}

// B: what the chosen days have in the adjustment window.
fn sum_windows(readings: &[u32], chosen: &Places) -> u64
    ensures sum { result ≡ window_sums chosen.now.quarters readings.now (chosen_at chosen.now) chosen.now.end }
    ensures bound { result ≤ 257698037700 }
{
    let mut total = 0;
    for &place in chosen.starts() {
        let day = engine_rooms::readings_at(readings, place, chosen.quarters);
        total += engine_adjustment::window_sum(chosen.end, day, day);
    }
    total
}

// The adjustment's numerator, N·A - B, of A and the chosen days.
fn adjustment(readings: &[u32], chosen: &Places, own: u64) -> i64
    requires { own ≤ 51539607540 }
    ensures value { result ≡ adjusted (counted chosen.now) own (window_sums chosen.now.quarters readings.now (chosen_at chosen.now) chosen.now.end) }
    ensures bound { mag result < 2 ^ 40 }
{
    let count = u64::from(chosen.count.min(5));
    (count * own) as i64 - sum_windows(readings, chosen) as i64
}

// The adjustment's numerator, and into the output the numerators of the quarters from the event's first on.
pub fn write(
    readings: &[u32],
    chosen: Places,
    yesterday: &[u32],
    today: &[u32],
    out: &mut [u32],
) -> i64
    ensures { Written readings.now chosen yesterday.now today.now (length out.old) result out.new }
{
    let own = engine_adjustment::window_sum(chosen.end, yesterday, today);
    let adjustment = adjustment(readings, &chosen, own);
    engine_sums::sum_days(
        readings,
        chosen.starts(),
        chosen.quarters,
        chosen.start as usize,
        out,
    );
    floor(out, adjustment);
    adjustment
}
