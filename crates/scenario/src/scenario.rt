// A scenario that is read whole.
ghost use Rattle.scenario.specs.Ends.{IsRead};
ghost use Rattle.std.specs.Prelude.{IfOk};

use crate::entry::HeadLine;
use crate::lines::{Stop, read_events, read_head};
use safety::Event;
use std::alloc::{AllocError, Global};
use text::Reader;

// The lines of its head, its events with the numbers of their lines, and why there are no more.
#[derive(Drop)]
pub struct Scenario {
    pub head: Vec<HeadLine>,
    pub events: Vec<Event>,
    pub lines: Vec<u64>,
    pub stop: Stop,
}

pub fn read(alloc: Global, text: &str) -> Result<Scenario, AllocError>
    ensures { IfOk result (λ s. IsRead text.now s.head.items s.lines.items s.events.items s.stop) }
{
    let mut reader = Reader::new(text);
    let head = read_head(&mut reader, alloc)?;
    let mut events = Vec::new(alloc);
    let mut lines = Vec::new(alloc);
    let Some(stop) = read_events(&mut reader, usize::MAX, &mut events, &mut lines)? else {
        unreachable!()
    };
    Ok(Scenario {
        head,
        events,
        lines,
        stop,
    })
}
