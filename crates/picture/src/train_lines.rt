//! The trains of a picture: bands, lines and names.
ghost use Rattle.std.specs.Prelude.{◌≤◌};

use crate::glyphs::{BRAKED, MARKED};
use crate::track::Track;
use page::point::{FOOT, FRAME_FOOT, FRAME_RIGHT, TOP};
use page::{write_band, write_glyphs, write_line};
use std::alloc::AllocError;

/// There are so many colours; trains that follow one another have different ones.
const COLOURS: usize = 6;

/// The bands from the rears to the fronts of trains, and their lines.
pub fn write_trains(out: &mut String, tracks: &[Track]) -> Result<(), AllocError> {
    for (train, track) in tracks.iter().enumerate() {
        let colour = train % COLOURS;
        let lines = &track.lines;
        writeln!(out, "<g class=\"c{colour}\"><title>train {train}</title>")?;
        write_band(out, "band", &lines.fronts, &lines.rears)?;
        write_line(out, "edge", &lines.fronts)?;
        write_line(out, "edge", &lines.rears)?;
        write_line(out, "known", &lines.lows)?;
        write_line(out, "known", &lines.highs)?;
        write_line(out, "may", &lines.ends)?;
        out.push_str("</g>\n")?;
    }
    Ok(())
}

/// Where trains passed marks, and where units braked.
pub fn write_happenings(out: &mut String, tracks: &[Track]) -> Result<(), AllocError> {
    for track in tracks {
        write_glyphs(out, MARKED, &track.marked)?;
        write_glyphs(out, BRAKED, &track.braked)?;
    }
    Ok(())
}

/// The names of trains, at the right of the frame beside where they are at the end, and not one over another.
pub fn write_names(out: &mut String, tracks: &[Track]) -> Result<(), AllocError> {
    let trains = tracks.len() as u64;
    let apart = ((FOOT - TOP) / trains.max(1)).clamp(60, 190);
    let mut next = TOP;
    for (train, track) in tracks.iter().enumerate() {
        let Some(end) = track.lines.fronts.last() else {
            continue;
        };
        // with room for the names to come
        let to_come = trains.saturating_sub(train as u64).saturating_sub(1);
        let lowest = FRAME_FOOT.saturating_sub(to_come.saturating_mul(apart));
        let level = end.y.max(next).min(lowest);
        write_name(out, train, end.y, level, (apart * 9 / 10).min(150))?;
        next = level + apart;
    }
    Ok(())
}

/// A name at a level, with a line that leads to it from where the front of the train is.
fn write_name(
    out: &mut String,
    train: usize,
    front: u64,
    level: u64,
    size: u64,
) -> Result<(), AllocError>
    requires { (level ≤ 9000) × (size ≤ 150) }
{
    let colour = train % COLOURS;
    let middle = FRAME_RIGHT + 180;
    let to = FRAME_RIGHT + 240;
    let x = FRAME_RIGHT + 280;
    let y = level + size / 3;
    write!(
        out,
        "<path class=\"lead c{colour}\" d=\"M{FRAME_RIGHT},{front}L{middle},{level}H{to}\"/>"
    )?;
    writeln!(
        out,
        "<text style=\"font-size:{size}px\" x=\"{x}\" y=\"{y}\">train {train}</text>"
    )
}
