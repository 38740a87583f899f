//! A random day.
ghost use Rattle.line.specs.Steps.{state};
ghost use Rattle.random.specs.Days.{Follow, IsDay, new_line_of};
ghost use Rattle.std.specs.Prelude.{◌≡◌, IfOk, Ok};

use crate::beginning::random_beginning;
use crate::chance::Chance;
use crate::kinds::Kinds;
use crate::next::random_event;
use line::Line;
use safety::Event;
use scenario::{Head, HeadLine};
use std::alloc::{AllocError, Global};

/// How large a day is: so many trains and controllers at most, and so many events.
#[derive(Clone, Copy, PartialEq, Eq, Debug)]
pub struct Extent {
    pub trains: u64,
    pub controllers: u64,
    pub events: u64,
}

/// Its scenario.
#[derive(Drop)]
pub struct Day {
    pub head: Vec<HeadLine>,
    pub events: Vec<Event>,
}

/// The day of a seed: as many events as are wanted, each of which can be; none where there is
/// neither train nor controller.
pub fn random_day(alloc: Global, seed: u64, extent: Extent) -> Result<Day, AllocError>
    ensures is { IfOk result (IsDay extent) }
{
    let mut chance = Chance::new(seed);
    let head = random_beginning(alloc, extent, &mut chance)?;
    let mut line = new_line_of(alloc, &head)?;
    let kinds = Kinds::any(&mut chance);
    let events = some_events(alloc, &mut line, extent.events, kinds, &mut chance)?;
    Ok(Day { head, events })
}

fn new_line_of(alloc: Global, head: &[HeadLine]) -> Result<Line, AllocError>
    ensures { IfOk result (λ line. new_line_of head.now ≡ Ok (state line.parts)) }
{
    let head = Head::of(alloc, head)?;
    Line::new(alloc, head.brakes, &head.trains, head.controllers as usize).map_err(|_| AllocError)
}

// So many events, one after another, up to one after which there can be none.
fn some_events(
    alloc: Global,
    line: &mut Line,
    count: u64,
    kinds: Kinds,
    chance: &mut Chance,
) -> Result<Vec<Event>, AllocError>
    ensures { IfOk result (λ events. Follow count (state line.old.parts) events.items) }
{
    let mut events = Vec::new(alloc);
    for _ in 0..count {
        let Some(event) = random_event(line, kinds, chance) else {
            return Ok(events);
        };
        let Ok(_) = line.step(event) else {
            return Err(AllocError);
        };
        events.push(event)?;
    }
    Ok(events)
}
