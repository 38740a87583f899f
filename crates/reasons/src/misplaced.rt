// Why a day cannot begin with a train as it is given, and what would be right.
ghost use Rattle.onboard.specs.InitialTrain.{fits};
ghost use Rattle.reasons.specs.Reasons.{misplaced_by};
ghost use Rattle.reasons.specs.Told.{misplaced_text};
ghost use Rattle.std.specs.Prelude.{◌≡◌, Some, is_none};

use onboard::InitialTrain;
use std::fmt;

// What is not as it has to be.
#[derive(Clone, Copy, PartialEq, Eq, Debug)]
pub enum Misplaced {
    Length,
    Low,
    Front,
    High,
    End { limit: u64 },
}

// The first of these that the train does not keep; its end is to be at most the limit.
pub fn misplaced_by(train: InitialTrain, limit: u64) -> Option<Misplaced>
    ensures value { result ≡ misplaced_by train limit }
    ensures none { is_none result ≡ fits limit train }
{
    if train.length > train.front {
        Some(Misplaced::Length)
    } else if train.low > train.front {
        Some(Misplaced::Low)
    } else if train.front > train.high {
        Some(Misplaced::Front)
    } else if train.high > train.end {
        Some(Misplaced::High)
    } else if train.end > limit {
        Some(Misplaced::End { limit })
    } else {
        None
    }
}

impl fmt::Display for Misplaced {
    ghost output = { λ it. Some (misplaced_text it) };

    fn fmt<W: fmt::Write>(&self, f: &mut fmt::Formatter<W>) -> fmt::Result {
        match *self {
            Misplaced::Length => f.write_str("a train's length is at most its front"),
            Misplaced::Low => f.write_str("low is at most the front"),
            Misplaced::Front => f.write_str("the front is at most high"),
            Misplaced::High => f.write_str("high is at most the end"),
            Misplaced::End { limit } => write!(f, "the end is at most {limit}"),
        }
    }
}
