//! What stands above a picture.

use crate::drawing::Drawing;
use crate::style::write_style;
use page::point::LEFT;
use page::{broken, write_end_of, write_escaped, write_page};
use std::alloc::AllocError;

#[derive(Clone, Copy)]
pub struct Heading<'a, 'r> {
    /// What the day is called.
    pub title: &'a str,
    /// The gaps between trains, in words.
    pub gaps: &'a str,
    /// Why the day ends where the picture does, if it was refused.
    pub refusal: Option<&'r str>,
}

/// No title is longer on the page, in signs; of a longer one its end is written.
const TITLE: usize = 45;

/// The first line of a refusal is not longer, in bytes, if it has a blank.
const REFUSAL: usize = 120;

/// What a picture is called, how it looks, how much of what it shows, and why its day ends there, if that was refused.
pub fn write_heading(
    out: &mut String,
    drawing: &Drawing,
    heading: Heading<'_, '_>,
) -> Result<(), AllocError> {
    out.push_str("<title>")?;
    write_escaped(out, heading.title)?;
    out.push_str("</title>\n")?;
    write_style(out, drawing)?;
    write_page(out)?;
    write!(out, "<text class=\"name\" x=\"{LEFT}\" y=\"450\">")?;
    write_end_of(out, heading.title, TITLE)?;
    write!(out, "</text>\n<text x=\"{LEFT}\" y=\"730\">")?;
    write_counts(out, drawing)?;
    write_escaped(out, heading.gaps)?;
    out.push_str("</text>\n")?;
    if let Some(refusal) = heading.refusal {
        let (first, rest) = broken(refusal, REFUSAL);
        write_wrong(out, first, 960)?;
        if !rest.is_empty() {
            write_wrong(out, rest, 1_160)?;
        }
    }
    Ok(())
}

fn write_wrong(out: &mut String, text: &str, y: u64) -> Result<(), AllocError> {
    write!(out, "<text class=\"wrong\" x=\"{LEFT}\" y=\"{y}\">")?;
    write_escaped(out, text)?;
    out.push_str("</text>\n")
}

fn write_counts(out: &mut String, drawing: &Drawing) -> Result<(), AllocError> {
    write_count(out, drawing.tracks.len() as u64, "train", ", ")?;
    write_count(out, drawing.events, "event", ": ")?;
    write_count(out, drawing.ticks, "tick", ", ")?;
    write_count(out, drawing.messages.count() as u64, "message", " sent; ")
}

/// So many of something, in the plural where they are not one.
fn write_count(out: &mut String, count: u64, name: &str, after: &str) -> Result<(), AllocError> {
    let plural = if count == 1 { "" } else { "s" };
    write!(out, "{count} {name}{plural}{after}")
}
