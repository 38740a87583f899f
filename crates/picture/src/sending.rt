//! A message that was sent, and one that was heard or taken.
ghost use Rattle.page.specs.Scales.{across};
ghost use Rattle.std.specs.Prelude.{◌≡◌};

use page::{Point, Scale};

/// What was sent: a unit's report, a controller's words on a train, or a grant.
#[derive(Clone, Copy, PartialEq, Eq, Debug)]
pub enum Kind {
    Report,
    Words,
    Grant,
}

/// A message at the place that it says, by its number.
#[derive(Clone, Copy, PartialEq, Eq, Debug)]
pub struct Sending {
    pub number: u64,
    pub kind: Kind,
    pub place: u64,
    pub at: Point,
}

/// A message comes to a controller, which hears it, or to a train, which takes it. It always carries the fact that it
/// is drawn level with its sending.
#[derive(Clone, Copy, PartialEq, Eq, Debug)]
pub struct Hearing {
    pub sending: Sending,
    pub at: Point,
    pub taken: bool,
    ghost level: { at.y ≡ sending.at.y },
}

impl Hearing {
    /// After so many events the message is heard or taken.
    pub(crate) fn of(sending: Sending, scale: Scale, events: u64, taken: bool) -> Hearing
        ensures of { (result.sending ≡ sending) × (result.taken ≡ taken) }
        ensures across { result.at.x ≡ across scale events }
    {
        Hearing {
            sending,
            at: scale.point(events, sending.place).level_with(sending.at),
            taken,
        }
    }
}
