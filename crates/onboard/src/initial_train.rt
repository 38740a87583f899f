// A train as it stands when its day begins.
ghost use Rattle.onboard.specs.InitialTrain.{fits, train_of};
ghost use Rattle.std.specs.Prelude.{◌≡◌};

use crate::train::Train;
use crate::unit::Onboard;
use braking::Brakes;

// Where its front is, between which places its unit knows that, how far it may go, and how long it is.
#[derive(Clone, Copy, PartialEq, Eq, Debug)]
pub struct InitialTrain {
    pub low: u64,
    pub front: u64,
    pub high: u64,
    pub end: u64,
    pub length: u64,
}

impl InitialTrain {
    // All of it is on the line, and low, front, high, end and the limit are in this order.
    pub fn fits(self, limit: u64) -> bool
        ensures { result ≡ fits limit self }
    {
        self.length <= self.front
            && self.low <= self.front
            && self.front <= self.high
            && self.high <= self.end
            && self.end <= limit
    }

    // The train of this number, standing.
    pub fn train(self, brakes: Brakes, number: u64) -> Train
        ensures { result ≡ train_of brakes number self }
    {
        let unit = Onboard {
            train: number,
            brakes,
            length: self.length,
            speed: 0,
            low: self.low,
            high: self.high,
            end: self.end,
        };
        Train {
            front: self.front,
            unit,
        }
    }
}
