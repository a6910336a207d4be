// Sums of lent numbers. Total functions over slices of any length and any values.
#![tactic(auto)]

ghost use Rattle.std.specs.Prelude.{◌≡◌, ◌-◌, take, drop};
ghost use Rattle.base_sums.specs.Steps.{Summed};

// The sum of numbers, as a number of 64 bits: of fewer than 2 ^ 32 numbers it is exact.
pub fn sum(xs: &[u32]) -> u64
    ensures { Summed xs.now result }
{
    xs.iter()
        .fold(0, |total: u64, &x| total.wrapping_add(u64::from(x)))
}

// The sum of what there is from `start` up to `end`.
pub fn sum_between(xs: &[u32], start: usize, end: usize) -> u64
    ensures { Summed (take (end - start) (drop start xs.now)) result }
{
    let last = end.min(xs.len());
    if start < last {
        sum(&xs[start..last])
    } else {
        0
    }
}
