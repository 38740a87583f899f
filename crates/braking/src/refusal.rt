// Why something is turned away: one enum for the whole project; and what a step that may refuse hands back.
ghost use Rattle.braking.specs.Refusals.{check, done, kept, listed};
ghost use Rattle.braking.specs.Words.{reason, refusal_text};
ghost use Rattle.std.specs.Prelude.{◌≡◌, Some};

use std::{error, fmt};

// A case for each reason of the list in docs/FORMATS.md.
#[derive(Clone, Copy, PartialEq, Eq, Debug)]
pub enum Refusal {
    BrakeRange,
    BlurRange,
    SpeedTooHigh,
    PlaceTooFar,
    MessageLength { length: usize },
    MessageCheck,
    FirstByte,
    ThirdByte,
    FourthByte,
    TrainTooHigh,
    GrantToForemost,
    OtherTrain { train: u64 },
    TooManyTrains,
    TooManyControllers,
    NotInitial { train: u64 },
    Impossible { line: u64 },
}

impl Refusal {
    // Its number in the list, 1 to 10.
    pub fn number(self) -> u64
        ensures { result ≡ (listed self).0 }
    {
        self.listed().0
    }

    // Where it applies, counted from 0: which of two numbers, which byte, how many bytes, which train, which line.
    pub fn place(self) -> u64
        ensures { result ≡ (listed self).1 }
    {
        self.listed().1
    }

    fn listed(self) -> (u64, u64)
        ensures { result ≡ listed self }
    {
        match self {
            Refusal::BrakeRange => (1, 0),
            Refusal::BlurRange => (1, 1),
            Refusal::SpeedTooHigh => (2, 0),
            Refusal::PlaceTooFar => (3, 0),
            Refusal::MessageLength { length } => (4, length as u64),
            Refusal::MessageCheck => (4, 8),
            Refusal::FirstByte => (5, 0),
            Refusal::ThirdByte => (5, 2),
            Refusal::FourthByte => (5, 3),
            Refusal::TrainTooHigh => (6, 1),
            Refusal::GrantToForemost => (6, 1),
            Refusal::OtherTrain { train } => (7, train),
            Refusal::TooManyTrains => (8, 0),
            Refusal::TooManyControllers => (8, 1),
            Refusal::NotInitial { train } => (9, train),
            Refusal::Impossible { line } => (10, line),
        }
    }

    // What would be right, in words; where that is not told in a few, what is wrong.
    #[tactic(auto, unfolding(crate::specs::Words::reason))]
    fn reason(self) -> &'static str
        ensures { result.now ≡ reason self }
    {
        match self {
            Refusal::BrakeRange => "a brake is from 1 to 100",
            Refusal::BlurRange => "a blur is from 0 to 100",
            Refusal::SpeedTooHigh => "a speed is at most 10000",
            Refusal::PlaceTooFar => "a place is at most 1000000000",
            Refusal::MessageLength { .. } => "a message has 12 bytes",
            Refusal::MessageCheck => "a message ends with the check of its first 8 bytes",
            Refusal::FirstByte => "a message begins with 1 for a report or 2 for a grant",
            Refusal::ThirdByte | Refusal::FourthByte => "a message's third and fourth bytes are 0",
            Refusal::TrainTooHigh => "a train's number is at most 63",
            Refusal::GrantToForemost => "nobody grants to train 0, the foremost",
            Refusal::OtherTrain { .. } => "a unit takes only grants for its own train",
            Refusal::TooManyTrains => "there are at most 64 trains",
            Refusal::TooManyControllers => "there are at most 8 controllers",
            Refusal::NotInitial { .. } => "no day can begin with this train as it is given",
            Refusal::Impossible { .. } => "this event cannot be",
        }
    }
}

// A check: passes where its test holds, and else refuses for the reason given.
pub fn check(holds: bool, why: Refusal) -> Result<(), Refusal>
    ensures { result ≡ check holds why }
{
    if holds { Ok(()) } else { Err(why) }
}

// What a step that may refuse hands back: what it makes of the state, or the state as it was and why.
pub fn handed_back<S: Copy>(state: S, after: Result<S, Refusal>) -> (S, Result<(), Refusal>)
    ensures state { result.0 ≡ kept state after }
    ensures word { result.1 ≡ done after }
{
    match after {
        Ok(next) => (next, Ok(())),
        Err(why) => (state, Err(why)),
    }
}

impl fmt::Display for Refusal {
    ghost output = { λ refusal. Some (refusal_text refusal) };

    #[tactic(auto, unfolding(crate::specs::Words::refusal_text))]
    fn fmt<W: fmt::Write>(&self, f: &mut fmt::Formatter<W>) -> fmt::Result {
        let number = self.number();
        let place = self.place();
        let reason = self.reason();
        write!(f, "refused {number} at {place}: {reason}")
    }
}

impl error::Error for Refusal {}
