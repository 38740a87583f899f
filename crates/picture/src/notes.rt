//! What is pointed out in a picture: where a refused day stops, and the smallest gap.

use crate::drawing::Drawing;
use page::point::{FRAME_TOP, LEFT, RIGHT};
use page::write_upright;
use std::alloc::AllocError;

/// Half of the words over the smallest gap are not longer.
const HALF: u64 = 2_600;

/// Where a refused day stops.
pub fn write_stop(out: &mut String, drawing: &Drawing) -> Result<(), AllocError> {
    write_upright(out, "stop", drawing.scale.point(drawing.events, 0))
}

/// A line from the front up to the rear, a circle around it, a line from the edge of the frame that points at it, and
/// how large it is.
pub fn write_smallest_gap(out: &mut String, drawing: &Drawing) -> Result<(), AllocError> {
    let Some(nearest) = drawing.nearest else {
        return Ok(());
    };
    let gap = nearest.gap;
    let rear = drawing.scale.point(nearest.events, gap.rear).y;
    let front = drawing.scale.point(nearest.events, gap.front);
    let x = front.x;
    write!(out, "<path class=\"gap\" d=\"M{front}V{rear}\"/>")?;
    let middle = (rear + front.y) / 2;
    write!(
        out,
        "<circle class=\"gap\" cx=\"{x}\" cy=\"{middle}\" r=\"90\"/>"
    )?;
    writeln!(out, "<path class=\"point\" d=\"M{x},{FRAME_TOP}V{rear}\"/>")?;
    // by their end or beginning, where the frame leaves no room for half of them
    let anchor = if x > RIGHT - HALF {
        "to"
    } else if x < LEFT + HALF {
        ""
    } else {
        "on"
    };
    let y = FRAME_TOP - 60;
    write!(out, "<text class=\"{anchor}\" x=\"{x}\" y=\"{y}\">")?;
    let size = gap.size();
    let ahead = gap.ahead;
    let behind = ahead.saturating_add(1);
    write!(out, "smallest gap {size} decimetres")?;
    writeln!(out, ": train {behind} behind train {ahead}</text>")
}
