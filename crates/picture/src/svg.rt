//! A drawing written as SVG.

use crate::axes::write_axes;
use crate::drawing::Drawing;
use crate::glyphs::RESTART;
use crate::heading::{Heading, write_heading};
use crate::legend::write_legend;
use crate::message_lines::{write_hearings, write_lines, write_sendings};
use crate::notes::{write_smallest_gap, write_stop};
use crate::train_lines::{write_happenings, write_names, write_trains};
use page::{write_end, write_frame, write_glyphs, write_head};
use std::alloc::AllocError;

/// Writes a whole picture, after what was written before.
pub fn write_picture(
    out: &mut String,
    drawing: &Drawing,
    heading: Heading<'_, '_>,
) -> Result<(), AllocError> {
    write_head(out)?;
    write_heading(out, drawing, heading)?;
    write_axes(out, drawing.scale, &drawing.moments)?;
    write_day(out, drawing)?;
    write_frame(out)?;
    if heading.refusal.is_some() {
        write_stop(out, drawing)?;
    }
    write_smallest_gap(out, drawing)?;
    write_names(out, &drawing.tracks)?;
    write_legend(out, drawing.scale, &drawing.messages)?;
    write_end(out)
}

/// What is drawn of trains, messages and controllers, one over the other.
fn write_day(out: &mut String, drawing: &Drawing) -> Result<(), AllocError> {
    let messages = &drawing.messages;
    write_lines(out, true, &messages.hearings)?;
    write_trains(out, &drawing.tracks)?;
    write_lines(out, false, &messages.hearings)?;
    write_sendings(out, &messages.sendings)?;
    write_hearings(out, &messages.hearings)?;
    write_glyphs(out, RESTART, &drawing.restarts)?;
    write_happenings(out, &drawing.tracks)
}
