//! The lines of one train.
ghost use Rattle.picture.specs.Tracks.{Drawn, Followed, GoesOn, MarkedIf, NoLines, StepsOn};
ghost use Rattle.std.specs.Prelude.{OnOk};

use onboard::Train;
use page::{Point, Scale};
use std::alloc::{AllocError, Global};

#[derive(Drop)]
pub struct Lines {
    /// where the train really is
    pub fronts: Vec<Point>,
    pub rears: Vec<Point>,
    /// where its unit knows its front to be
    pub lows: Vec<Point>,
    pub highs: Vec<Point>,
    /// how far it may go, in steps
    pub ends: Vec<Point>,
}

impl Lines {
    fn new(alloc: Global) -> Lines
        ensures { NoLines result }
    {
        Lines {
            fronts: Vec::new(alloc),
            rears: Vec::new(alloc),
            lows: Vec::new(alloc),
            highs: Vec::new(alloc),
            ends: Vec::new(alloc),
        }
    }

    /// Draws the lines on to where the train is after so many events.
    fn draw(&mut self, scale: Scale, events: u64, train: &Train) -> Result<(), AllocError>
        ensures { OnOk result (Followed scale events train.now self.old self.new) }
    {
        let rear = train.front.saturating_sub(train.unit.length);
        go_on(&mut self.fronts, scale, events, train.front)?;
        go_on(&mut self.rears, scale, events, rear)?;
        go_on(&mut self.lows, scale, events, train.unit.low)?;
        go_on(&mut self.highs, scale, events, train.unit.high)?;
        step_on(&mut self.ends, scale, events, train.unit.end)
    }
}

#[derive(Drop)]
pub struct Track {
    pub lines: Lines,
    /// where its unit braked, and where it passed a mark
    pub braked: Vec<Point>,
    pub marked: Vec<Point>,
}

/// What happened to a train since its lines were drawn on.
#[derive(Clone, Copy, PartialEq, Eq, Debug)]
pub struct Since {
    pub braked: bool,
    pub marked: bool,
}

impl Track {
    pub fn new(alloc: Global) -> Track
        ensures { NoLines result.lines }
    {
        Track {
            lines: Lines::new(alloc),
            braked: Vec::new(alloc),
            marked: Vec::new(alloc),
        }
    }

    /// Draws the train on to where it is after so many events.
    pub fn draw(
        &mut self,
        scale: Scale,
        events: u64,
        train: &Train,
        since: Since,
    ) -> Result<(), AllocError>
        ensures { OnOk result (Drawn scale events train.now since self.old self.new) }
    {
        self.lines.draw(scale, events, train)?;
        mark_if(since.braked, &mut self.braked, scale, events, train.front)?;
        mark_if(since.marked, &mut self.marked, scale, events, train.front)
    }
}

/// Puts a mark where a place is after so many events, if there is something to mark.
pub(crate) fn mark_if(
    holds: bool,
    marks: &mut Vec<Point>,
    scale: Scale,
    events: u64,
    place: u64,
) -> Result<(), AllocError>
    ensures { OnOk result (MarkedIf holds scale events place marks.old.items marks.new.items) }
{
    if holds {
        go_on(marks, scale, events, place)?;
    }
    Ok(())
}

fn go_on(line: &mut Vec<Point>, scale: Scale, events: u64, place: u64) -> Result<(), AllocError>
    ensures { OnOk result (GoesOn scale events place line.old.items line.new.items) }
{
    line.push(scale.point(events, place))?;
    Ok(())
}

/// Goes level to below or above the next point, and then straight to it.
fn step_on(line: &mut Vec<Point>, scale: Scale, events: u64, place: u64) -> Result<(), AllocError>
    ensures { OnOk result (StepsOn scale events place line.old.items line.new.items) }
{
    let next = scale.point(events, place);
    if let Some(last) = line.last() {
        let turn = next.level_with(*last);
        line.push(turn)?;
    }
    line.push(next)?;
    Ok(())
}
