// What a line of a scenario says.
ghost use Rattle.scenario.specs.Texts.{same_kind};
ghost use Rattle.std.specs.Prelude.{◌≡◌};

use onboard::InitialTrain;
use safety::Event;

// A line of the head: how a day begins.
#[derive(Clone, Copy, PartialEq, Eq, Debug)]
pub enum HeadLine {
    Brake(u64),
    Blur(u64),
    Controllers(u64),
    Train(InitialTrain),
}

impl HeadLine {
    // Whether it gives what the other line gives: brake, blur or controllers.
    pub fn gives_as(self, other: HeadLine) -> bool
        ensures { result ≡ same_kind self other }
    {
        matches!(
            (self, other),
            (HeadLine::Brake(_), HeadLine::Brake(_))
                | (HeadLine::Blur(_), HeadLine::Blur(_))
                | (HeadLine::Controllers(_), HeadLine::Controllers(_))
        )
    }
}

#[derive(Clone, Copy, PartialEq, Eq, Debug)]
pub enum Entry {
    Head(HeadLine),
    Event(Event),
}
