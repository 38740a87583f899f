//! Round numbers.

/// A step of 1, 2 or 5 and noughts that goes into a range so many times at most.
pub fn round_step(range: u64, most: u64) -> u64 {
    let most = most.max(1);
    let mut power: u64 = 1;
    for _ in 0..19 {
        for factor in [1, 2, 5] {
            let step = power.saturating_mul(factor);
            if range / step.max(1) <= most {
                return step;
            }
        }
        power = power.saturating_mul(10);
    }
    power
}

/// The first multiple of a step that is not below a number.
pub fn first_from(number: u64, step: u64) -> u64 {
    number.div_ceil(step.max(1)).saturating_mul(step)
}
