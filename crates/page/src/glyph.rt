//! Glyphs: small shapes that stand at many points.

use crate::point::Point;
use std::alloc::AllocError;

/// A small shape.
#[derive(Clone, Copy)]
pub struct Glyph {
    /// What the text of the page calls it.
    pub name: &'static str,
    /// Its lines around the point 0,0, no farther from it than the margin of the frame is wide.
    pub outline: &'static str,
    /// How they are drawn, as attributes.
    pub look: &'static str,
}

/// What glyphs look like at so much of their size, and, under their name written twice, at all of it.
pub fn write_shapes(out: &mut String, glyphs: &[Glyph], percent: u64) -> Result<(), AllocError> {
    let whole = percent / 100;
    let part = percent % 100;
    for glyph in glyphs {
        let Glyph {
            name,
            outline,
            look,
        } = *glyph;
        writeln!(out, "<path id=\"{name}{name}\" d=\"{outline}\" {look}/>")?;
        writeln!(
            out,
            "<path id=\"{name}\" transform=\"scale({whole}.{part:02})\" d=\"{outline}\" {look}/>"
        )?;
    }
    Ok(())
}

/// A glyph at a point.
pub fn write_glyph(out: &mut String, glyph: Glyph, at: Point) -> Result<(), AllocError> {
    let name = glyph.name;
    let x = at.x;
    let y = at.y;
    writeln!(out, "<use href=\"#{name}\" x=\"{x}\" y=\"{y}\"/>")
}

/// The same glyph at each of some points.
pub fn write_glyphs(out: &mut String, glyph: Glyph, points: &[Point]) -> Result<(), AllocError> {
    for point in points {
        write_glyph(out, glyph, *point)?;
    }
    Ok(())
}
