//! A refusal of a scenario, as it is told to people.
ghost use Rattle.braking.specs.declared.refusal.Refusal.TheVariants.{Impossible};
ghost use Rattle.std.specs.Prelude.{◌≡◌, Some};

use braking::Refusal;
use reasons::{Misplaced, WhyNot};
use scenario::{Fault, HeadLine};
use std::fmt;

/// Why something is refused, and what would be right.
#[derive(Clone, Copy)]
pub enum Reason<'a> {
    // as the list has it
    Listed,
    // no day can begin with this train
    Misplaced(Misplaced),
    // the line is no line of a scenario
    Fault(Fault<'a>),
    // the line is this one of the head, and the head has ended
    AfterHead(HeadLine),
    // the event cannot be
    WhyNot(WhyNot),
}

/// Where the refusal is at a line, that line is counted from 0.
#[derive(Clone, Copy)]
pub struct Refused<'a> {
    pub line: Option<u64>,
    pub refusal: Refusal,
    pub reason: Reason<'a>,
}

impl<'a> Refused<'a> {
    pub fn at_line(line: u64, reason: Reason<'a>) -> Refused<'a>
        ensures { (result.line ≡ Some line) × (result.refusal ≡ Impossible line) × (result.reason ≡ reason.entry) }
    {
        Refused {
            line: Some(line),
            refusal: Refusal::Impossible { line },
            reason,
        }
    }
}

impl<'a> fmt::Display for Refused<'a> {
    fn fmt<W: fmt::Write>(&self, f: &mut fmt::Formatter<W>) -> fmt::Result {
        let refusal = self.refusal;
        let number = refusal.number();
        let place = refusal.place();
        match self.reason {
            Reason::Listed => write!(f, "{refusal}"),
            Reason::Misplaced(wrong) => write!(f, "refused {number} at {place}: {wrong}"),
            Reason::Fault(fault) => write!(f, "refused {number} at {place}: {fault}"),
            Reason::AfterHead(line) => {
                let comes = when_it_comes(line);
                write!(
                    f,
                    "refused {number} at {place}: {comes} before the first event"
                )
            }
            Reason::WhyNot(why) => write!(f, "refused {number} at {place}: {why}"),
        }
    }
}

// Where a line of the head has its place.
fn when_it_comes(line: HeadLine) -> &'static str {
    match line {
        HeadLine::Brake(_) => "brake comes once,",
        HeadLine::Blur(_) => "blur comes once,",
        HeadLine::Controllers(_) => "controllers comes once,",
        HeadLine::Train(_) => "train comes",
    }
}
