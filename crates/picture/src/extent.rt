//! What a picture of a day has to hold. It is known when the day was played once.
ghost use Rattle.picture.specs.Extents.{nothing, one_event, scale_for, with_train, with_trains};
ghost use Rattle.std.specs.Prelude.{◌≡◌};

use onboard::Train;
use page::Scale;

#[derive(Clone, Copy, PartialEq, Eq, Debug)]
pub struct Extent {
    pub events: u64,
    /// the lowest rear
    pub lowest: u64,
    /// the farthest place where a train may be, as far as its unit knows
    pub farthest: u64,
    /// the highest end
    pub highest: u64,
}

impl Extent {
    /// As the day begins.
    pub fn of(trains: &[Train]) -> Extent
        ensures { result ≡ with_trains nothing trains.now }
    {
        let nothing = Extent {
            events: 0,
            lowest: u64::MAX,
            farthest: 0,
            highest: 0,
        };
        nothing.with_trains(trains)
    }

    /// After one event more.
    pub fn after(self, trains: &[Train]) -> Extent
        ensures { result ≡ with_trains (one_event self) trains.now }
    {
        let more = Extent {
            events: self.events.saturating_add(1),
            ..self
        };
        more.with_trains(trains)
    }

    /// The scale of a picture that holds it. Where the highest end lies much farther than any train came, the places are
    /// cut above the trains.
    pub(crate) fn scale(self) -> Scale
        ensures { result ≡ scale_for self }
    {
        Scale::of(self.events, self.lowest, self.farthest, self.highest)
    }

    fn with_trains(mut self, trains: &[Train]) -> Extent
        ensures { result ≡ with_trains self trains.now }
    {
        for train in trains {
            self = self.with_train(train);
        }
        self
    }

    fn with_train(self, train: &Train) -> Extent
        ensures { result ≡ with_train self train.now }
    {
        let rear = train.front.saturating_sub(train.unit.length);
        Extent {
            events: self.events,
            lowest: self.lowest.min(rear),
            farthest: self.farthest.max(train.unit.high),
            highest: self.highest.max(train.unit.end),
        }
    }
}
