//! The axes: a grid of lines at round numbers, and what the numbers are.

use crate::number::Number;
use crate::point::{FOOT, FRAME_FOOT, FRAME_LEFT, FRAME_RIGHT, FRAME_TOP, LEFT, Point, RIGHT, TOP};
use crate::round::{first_from, round_step};
use crate::scale::Scale;
use std::alloc::AllocError;
use std::fmt;

/// The range of values goes into the steps of the grid so many times at most.
const LINES: u64 = 12;

/// Where numbers left of the frame end.
const NUMBERS: u64 = FRAME_LEFT - 50;

/// Level lines at round values up to the cut, and at the highest value if that is above it, with their numbers in a
/// unit, which is a power of ten.
pub fn write_levels(out: &mut String, scale: Scale, unit: u64) -> Result<(), AllocError> {
    let step = round_step(scale.cut.saturating_sub(scale.lowest), LINES);
    let mut value = first_from(scale.lowest, step);
    for _ in 0..=LINES {
        if value > scale.cut {
            break;
        }
        let number = Number::at_grid(value, step, unit);
        write_level(out, scale.point(0, value), number)?;
        value = value.saturating_add(step);
    }
    if scale.cut < scale.highest {
        let y = scale.point(0, scale.cut).y;
        writeln!(
            out,
            "<path class=\"cut\" d=\"M{FRAME_LEFT},{y}H{FRAME_RIGHT}\"/>"
        )?;
        let number = Number::exact(scale.highest, unit);
        write_level(out, scale.point(0, scale.highest), number)?;
    }
    Ok(())
}

fn write_level(out: &mut String, at: Point, number: Number) -> Result<(), AllocError> {
    let y = at.y;
    writeln!(
        out,
        "<path class=\"grid\" d=\"M{FRAME_LEFT},{y}H{FRAME_RIGHT}\"/>"
    )?;
    let foot = at.y + 55;
    writeln!(
        out,
        "<text class=\"to\" x=\"{NUMBERS}\" y=\"{foot}\">{number}</text>"
    )
}

/// An upright line through a point, as high as the frame.
pub fn write_upright(out: &mut String, class: &str, at: Point) -> Result<(), AllocError> {
    let x = at.x;
    writeln!(
        out,
        "<path class=\"{class}\" d=\"M{x},{FRAME_TOP}V{FRAME_FOOT}\"/>"
    )
}

/// Numbers below the frame under a point, one large and one small, or left of it what those numbers are.
pub fn write_below(
    out: &mut String,
    at: Option<Point>,
    large: impl fmt::Display + Drop,
    small: impl fmt::Display + Drop,
) -> Result<(), AllocError> {
    let (class, x) = match at {
        Some(at) => ("on", at.x),
        None => ("to", NUMBERS),
    };
    let y = FRAME_FOOT + 200;
    write!(
        out,
        "<text class=\"{class}\" x=\"{x}\" y=\"{y}\">{large}</text>"
    )?;
    let y = FRAME_FOOT + 400;
    writeln!(
        out,
        "<text class=\"{class} small\" x=\"{x}\" y=\"{y}\">{small}</text>"
    )
}

/// What the values are, and what the steps are.
pub fn write_axis_names(out: &mut String, values: &str, steps: &str) -> Result<(), AllocError> {
    let y = (TOP + FOOT) / 2;
    writeln!(
        out,
        "<text class=\"on\" transform=\"translate(330,{y}) rotate(-90)\">{values}</text>"
    )?;
    let x = (LEFT + RIGHT) / 2;
    let y = FOOT + 700;
    writeln!(out, "<text class=\"on\" x=\"{x}\" y=\"{y}\">{steps}</text>")
}
