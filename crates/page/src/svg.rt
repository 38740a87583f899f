//! What makes a text SVG, and the page and its frame.

use crate::point::{FRAME_FOOT, FRAME_LEFT, FRAME_RIGHT, FRAME_TOP, PAGE_HEIGHT, PAGE_WIDTH};
use std::alloc::AllocError;

/// What stands before all else.
pub fn write_head(out: &mut String) -> Result<(), AllocError> {
    let width = PAGE_WIDTH / 10;
    let height = PAGE_HEIGHT / 10;
    out.push_str("<?xml version=\"1.0\" encoding=\"UTF-8\"?>\n")?;
    out.push_str("<svg xmlns=\"http://www.w3.org/2000/svg\"")?;
    writeln!(
        out,
        " width=\"{width}\" height=\"{height}\" viewBox=\"0 0 {PAGE_WIDTH} {PAGE_HEIGHT}\">"
    )
}

/// The page itself, under all that is drawn on it.
pub fn write_page(out: &mut String) -> Result<(), AllocError> {
    writeln!(
        out,
        "<rect class=\"page\" width=\"{PAGE_WIDTH}\" height=\"{PAGE_HEIGHT}\"/>"
    )
}

/// The frame around the graph.
pub fn write_frame(out: &mut String) -> Result<(), AllocError> {
    let width = FRAME_RIGHT - FRAME_LEFT;
    let height = FRAME_FOOT - FRAME_TOP;
    writeln!(
        out,
        "<rect class=\"frame\" x=\"{FRAME_LEFT}\" y=\"{FRAME_TOP}\" width=\"{width}\" height=\"{height}\"/>"
    )
}

/// What stands after all else.
pub fn write_end(out: &mut String) -> Result<(), AllocError> {
    out.push_str("</svg>\n")
}
