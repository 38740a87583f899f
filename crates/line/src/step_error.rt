// Why an event was not done.
ghost use Rattle.line.specs.Words.{step_error_text};
ghost use Rattle.std.specs.Prelude.{Some};

use std::{error, fmt};

#[derive(Clone, Copy, PartialEq, Eq, Debug)]
pub enum StepError {
    // it cannot be
    Impossible,
    // there is no memory to keep what it sends, or in a run for what is seen of it
    NoMemory,
}

impl fmt::Display for StepError {
    ghost output = { λ error. Some (step_error_text error) };

    #[tactic(auto, unfolding(crate::specs::Words::step_error_text))]
    fn fmt<W: fmt::Write>(&self, f: &mut fmt::Formatter<W>) -> fmt::Result {
        f.write_str(match self {
            StepError::Impossible => "this event cannot be",
            StepError::NoMemory => "there is not enough memory",
        })
    }
}

impl error::Error for StepError {}
