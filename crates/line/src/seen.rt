// What is seen of a tick.
ghost use Rattle.line.specs.Words.{seen_text, word_text};
ghost use Rattle.std.specs.Prelude.{◌≡◌, Some};

use onboard::Word;
use std::fmt;

// The train, what its unit says to the driver, the speed that the train then has, and where its front is
// afterwards.
#[derive(Clone, Copy, PartialEq, Eq, Debug)]
pub struct Seen {
    pub train: u64,
    pub word: Word,
    pub speed: u64,
    pub front: u64,
}

impl fmt::Display for Seen {
    ghost output = { λ seen. Some (seen_text seen) };

    #[tactic(auto, unfolding(crate::specs::Words::seen_text))]
    fn fmt<W: fmt::Write>(&self, f: &mut fmt::Formatter<W>) -> fmt::Result {
        let Seen {
            train,
            word,
            speed,
            front,
        } = *self;
        let says = match word {
            Word::Drive => "drives",
            Word::Brake => "brakes",
        };
        write!(f, "{train} {says} {speed} at {front}")
    }
}
