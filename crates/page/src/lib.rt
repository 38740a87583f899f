//! A page with a frame, and in the frame a graph: values upwards, and steps to the right.
//!
//! All is written as SVG, after what was written before. How it looks is left to the caller's style sheet, by classes.
#![tactic(auto)]

mod axes;
mod glyph;
mod laws;
mod lines;
mod number;
pub mod point;
mod round;
mod scale;
mod svg;
mod words;

pub use axes::{write_axis_names, write_below, write_levels, write_upright};
pub use glyph::{Glyph, write_glyph, write_glyphs, write_shapes};
pub use laws::scale_laws;
pub use lines::{write_band, write_line};
pub use point::Point;
pub use round::round_step;
pub use scale::Scale;
pub use svg::{write_end, write_frame, write_head, write_page};
pub use words::{broken, write_end_of, write_escaped};
