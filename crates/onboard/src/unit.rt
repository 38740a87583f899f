// The unit, and its steps: each hands the unit back, with what it answers. A step that refuses hands it back as it was.
ghost use Rattle.braking.specs.Refusals.{done, kept};
ghost use Rattle.onboard.specs.Steps.{after_mark, after_take, after_tick, asked, reported};
ghost use Rattle.std.specs.Prelude.{◌≡◌};

use crate::word::Word;
use braking::limits::{check_place, check_speed};
use braking::refusal::{check, handed_back};
use braking::{Brakes, Refusal};

// What the computer on a train knows. Plain numbers that may lie in memory lent from elsewhere and
// hold anything: each step checks what it relies on.
#[derive(Clone, Copy, PartialEq, Eq, Debug)]
pub struct Onboard {
    // the number of its train
    pub train: u64,
    pub brakes: Brakes,
    // how long the train is
    pub length: u64,
    // how far the front came in the last tick
    pub speed: u64,
    // the front is not behind low and not past high
    pub low: u64,
    pub high: u64,
    // how far the front may go
    pub end: u64,
}

// Says to a train how far its front may go. This layer knows nothing of messages; the cases of `Message` hold their numbers
// themselves, as was asked.
#[derive(Clone, Copy, PartialEq, Eq, Debug)]
pub struct Grant {
    pub train: u64,
    pub place: u64,
}

impl Onboard {
    // May the driver have `wish` in the next tick?
    pub fn ask(self, wish: u64) -> (Self, Result<Word, Refusal>)
        ensures state { result.0 ≡ self }
        ensures word { result.1 ≡ asked self wish }
    {
        (self, self.asked(wish))
    }

    // A tick is over, and the front came by `speed`.
    pub fn moved(self, speed: u64) -> (Self, Result<(), Refusal>)
        ensures state { result.0 ≡ kept self (after_tick self speed) }
        ensures word { result.1 ≡ done (after_tick self speed) }
    {
        handed_back(self, self.after_tick(speed))
    }

    // The front passes a mark, which tells its place.
    pub fn mark(self, place: u64) -> (Self, Result<(), Refusal>)
        ensures state { result.0 ≡ kept self (after_mark self place) }
        ensures word { result.1 ≡ done (after_mark self place) }
    {
        handed_back(self, self.after_mark(place))
    }

    // The place that the train's rear is not behind.
    pub fn report(self) -> (Self, Result<u64, Refusal>)
        ensures state { result.0 ≡ self }
        ensures word { result.1 ≡ reported self }
    {
        (self, self.rear())
    }

    // A grant has come: the end becomes the grant's, if that is farther.
    pub fn take(self, grant: Grant) -> (Self, Result<(), Refusal>)
        ensures state { result.0 ≡ kept self (after_take self grant) }
        ensures word { result.1 ≡ done (after_take self grant) }
    {
        handed_back(self, self.after_take(grant))
    }

    // It looks at the speed that is wished, not at the one that the train has.
    fn asked(self, wish: u64) -> Result<Word, Refusal>
        ensures { result ≡ asked self wish }
    {
        let distance = self.brakes.braking_distance(wish)?;
        check_place(self.high)?;
        check_place(self.end)?;
        let lets = wish == 0 || self.high + wish + self.brakes.blur + distance <= self.end;
        Ok(if lets { Word::Drive } else { Word::Brake })
    }

    fn after_tick(self, speed: u64) -> Result<Self, Refusal>
        ensures { result ≡ after_tick self speed }
    {
        self.brakes.check()?;
        check_speed(speed)?;
        // so that the sum stays under the limit; the answer is the same
        check_place(self.high)?;
        let blur = if speed == 0 { 0 } else { self.brakes.blur };
        let high = self.high + speed + blur;
        check_place(high)?;
        check_place(self.low)?;
        let low = (self.low + speed).saturating_sub(blur);
        Ok(Onboard {
            speed,
            low,
            high,
            ..self
        })
    }

    fn after_mark(self, place: u64) -> Result<Self, Refusal>
        ensures { result ≡ after_mark self place }
    {
        check_place(place)?;
        Ok(Onboard {
            low: place,
            high: place,
            ..self
        })
    }

    fn rear(self) -> Result<u64, Refusal>
        ensures { result ≡ reported self }
    {
        check_place(self.low)?;
        Ok(self.low.saturating_sub(self.length))
    }

    fn after_take(self, grant: Grant) -> Result<Self, Refusal>
        ensures { result ≡ after_take self grant }
    {
        check_place(grant.place)?;
        check(
            grant.train == self.train,
            Refusal::OtherTrain { train: grant.train },
        )?;
        Ok(Onboard {
            end: self.end.max(grant.place),
            ..self
        })
    }
}
