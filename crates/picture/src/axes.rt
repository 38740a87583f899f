//! The axes of a picture: places upwards, and to the right the events in their order.

use crate::drawing::Moment;
use page::{Scale, write_axis_names, write_below, write_levels, write_upright};
use std::alloc::AllocError;

/// A metre and a kilometre, in decimetres.
const METRE: u64 = 10;

const KILOMETRE: u64 = 10_000;

/// The grid, with its numbers, and what the axes are.
pub fn write_axes(out: &mut String, scale: Scale, moments: &[Moment]) -> Result<(), AllocError> {
    let in_kilometres = scale.cut.saturating_sub(scale.lowest) >= 2 * KILOMETRE;
    let (unit, places) = if in_kilometres {
        (KILOMETRE, "place, in kilometres from the foot of the line")
    } else {
        (METRE, "place, in metres from the foot of the line")
    };
    write_levels(out, scale, unit)?;
    write_below(out, None, "events", "of them ticks")?;
    for moment in moments {
        let at = scale.point(moment.events, 0);
        write_upright(out, "grid", at)?;
        write_below(out, Some(at), moment.events, moment.ticks)?;
    }
    write_axis_names(out, places, "time: the events in their order")
}
