//! Lines through points, and the area between two of them.

use crate::point::Point;
use std::alloc::AllocError;

/// A line through points. Those that stand level between their neighbours are left out.
pub fn write_line(out: &mut String, class: &str, points: &[Point]) -> Result<(), AllocError> {
    write!(out, "<polyline class=\"{class}\" points=\"")?;
    for at in 0..points.len() {
        write_turn(out, points, at)?;
    }
    out.push_str("\"/>\n")
}

/// The area between two lines: through the points of one, and back through those of the other.
pub fn write_band(
    out: &mut String,
    class: &str,
    one: &[Point],
    other: &[Point],
) -> Result<(), AllocError> {
    write!(out, "<polygon class=\"{class}\" points=\"")?;
    for at in 0..one.len() {
        write_turn(out, one, at)?;
    }
    for at in (0..other.len()).rev() {
        write_turn(out, other, at)?;
    }
    out.push_str("\"/>\n")
}

/// One of some points, unless it stands level between its neighbours.
fn write_turn(out: &mut String, points: &[Point], at: usize) -> Result<(), AllocError> {
    let Some(point) = points.get(at) else {
        return Ok(());
    };
    let before = points.get(at.wrapping_sub(1));
    let after = points.get(at.saturating_add(1));
    if let (Some(before), Some(after)) = (before, after) {
        if before.y == point.y && point.y == after.y {
            return Ok(());
        }
    }
    write!(out, "{point} ")
}
