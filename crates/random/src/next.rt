//! What happens next on a random day.
ghost use Rattle.line.specs.Steps.{state};
ghost use Rattle.safety.specs.declared.event.Event.{Event};
ghost use Rattle.safety.specs.Events.{can_be};
ghost use Rattle.scenario.specs.Lines.{EventFits};
ghost use Rattle.std.specs.Prelude.{◌≡◌, IfNone, IfSome, false, true};

use crate::chance::Chance;
use crate::driver::{some_speed, some_wish};
use crate::kinds::{Kind, Kinds};
use line::Line;
use reasons::why_not;
use safety::Event;

// So many draws may come to nothing, as where a message is to be taken and is no grant.
const TRIES: u64 = 16;

/// An event that can be next, if any can, and that can be written.
#[tactic(auto, using(crate::proofs::Nothing::nothing_can))]
pub fn random_event(line: &Line, kinds: Kinds, chance: &mut Chance) -> Option<Event>
    ensures can_be { IfSome result (λ event. can_be (state line.now.parts) event ≡ true) }
    ensures fits { IfSome result (λ event. EventFits event) }
    ensures none { IfNone result ((event : Event) → can_be (state line.now.parts) event ≡ false) }
{
    for _ in 0..TRIES {
        let event = some_event(line, kinds, chance);
        if why_not(line, event).is_none() {
            return Some(event);
        }
    }
    // Where there is a train or a controller, one of these can always be.
    if !line.trains().is_empty() {
        Some(Event::Report { train: 0 })
    } else if !line.controllers().is_empty() {
        Some(Event::Restart { controller: 0 })
    } else {
        None
    }
}

// An event that mostly can be.
fn some_event(line: &Line, kinds: Kinds, chance: &mut Chance) -> Event
    ensures { EventFits result }
{
    let train = chance.below(line.trains().len());
    let controller = chance.below(line.controllers().len());
    match kinds.one(chance) {
        Kind::Tick => some_tick(line, train, chance),
        Kind::Mark => Event::Mark { train },
        Kind::Report => Event::Report { train },
        Kind::Hear => Event::Hear {
            controller,
            message: some_message(line, chance),
        },
        Kind::Tell => Event::Tell { controller, train },
        Kind::Grant => Event::Grant { controller, train },
        Kind::Take => Event::Take {
            message: some_message(line, chance),
        },
        Kind::Restart => Event::Restart { controller },
    }
}

fn some_tick(line: &Line, train: u64, chance: &mut Chance) -> Event
    ensures { EventFits result }
{
    let Some(here) = line.trains().get(train as usize) else {
        return Event::Report { train };
    };
    let wish = some_wish(here.unit, chance);
    let speed = some_speed(here.unit, wish, chance);
    Event::Tick { train, wish, speed }
}

// One of the last messages, or of the first, or any: so old ones come late, and many come again.
fn some_message(line: &Line, chance: &mut Chance) -> u64 {
    let last = (line.sent().len() as u64).saturating_sub(1);
    match chance.up_to(5) {
        0..=2 => last.saturating_sub(chance.up_to(3)),
        3 => chance.up_to(last.min(15)),
        _ => chance.up_to(last),
    }
}
