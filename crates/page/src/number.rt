//! The numbers of an axis.

use std::fmt;

/// A value in a unit of so many, with so many digits behind the point.
#[derive(Clone, Copy)]
pub struct Number {
    whole: u64,
    // the digits behind the point as a number, and how many they are
    part: u64,
    digits: usize,
}

impl Number {
    /// A value of a grid with this step: with a digit behind the point, if the grid needs it.
    pub fn at_grid(value: u64, step: u64, unit: u64) -> Number {
        let digits = if step.is_multiple_of(unit) { 0 } else { 1 };
        Number::new(value, unit, digits)
    }

    /// A value to the last of its digits, if one alone is not enough.
    pub fn exact(value: u64, unit: u64) -> Number {
        if value.is_multiple_of(unit / 10) {
            return Number::at_grid(value, value, unit);
        }
        Number::new(value, unit, unit.max(1).ilog10())
    }

    /// A unit is a power of ten.
    fn new(value: u64, unit: u64, digits: u32) -> Number {
        let unit = unit.max(1);
        let last = unit / 10_u64.saturating_pow(digits).max(1);
        Number {
            whole: value / unit,
            part: value % unit / last.max(1),
            digits: digits as usize,
        }
    }
}

impl fmt::Display for Number {
    fn fmt<W: fmt::Write>(&self, f: &mut fmt::Formatter<W>) -> fmt::Result {
        let Number {
            whole,
            part,
            digits,
        } = *self;
        if digits == 0 {
            write!(f, "{whole}")
        } else {
            write!(f, "{whole}.{part:0digits$}")
        }
    }
}
