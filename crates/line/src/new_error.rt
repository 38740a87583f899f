// Why there is no new line.
ghost use Rattle.line.specs.Words.{new_error_text};
ghost use Rattle.std.specs.Prelude.{Some};

use braking::Refusal;
use std::{error, fmt};

#[derive(Clone, Copy, PartialEq, Eq, Debug)]
pub enum NewError {
    Refused(Refusal),
    NoMemory,
}

impl fmt::Display for NewError {
    ghost output = { λ error. Some (new_error_text error) };

    #[tactic(auto, unfolding(crate::specs::Words::new_error_text))]
    fn fmt<W: fmt::Write>(&self, f: &mut fmt::Formatter<W>) -> fmt::Result {
        match self {
            NewError::Refused(why) => why.fmt(f),
            NewError::NoMemory => f.write_str("there is not enough memory"),
        }
    }
}

impl error::Error for NewError {}
