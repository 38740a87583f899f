// Events that no scenario file can give, and what is told in words of what no run of the program shows.
use crate::setting::{FIRST, SECOND};
use braking::{Brakes, Refusal};
use line::{Line, NewError, Seen, StepError};
use onboard::Word;
use safety::Event;
use scenario::{Entry, HeadLine};
use std::test::Fail;

// A wish above 10,000 is refused, so the train brakes: a train that stands stays where it is.
#[test]
fn refused_wish_brakes(rt: HostRuntime) -> Result<(), Fail> {
    let brakes = Brakes { brake: 3, blur: 1 };
    let mut line = Line::new(rt.alloc(), brakes, &[FIRST, SECOND], 2).map_err(|_| Fail::new(
        "no line",
    ))?;
    let tick = |speed| Event::Tick {
        train: 1,
        wish: 10_001,
        speed,
    };
    assert_eq!(&rt; line.step(tick(1)), Err(StepError::Impossible));
    let braked = Seen {
        train: 1,
        word: Word::Brake,
        speed: 0,
        front: 380,
    };
    assert_eq!(&rt; line.step(tick(0)), Ok(Some(braked)));
    Ok(())
}

#[test]
fn errors_and_entries_in_words(rt: HostRuntime) -> Result<(), Fail> {
    let told = format!(in rt.alloc(); "{}; {}", StepError::Impossible, StepError::NoMemory)?;
    assert_eq!(&rt;
        told.as_str(),
        "this event cannot be; there is not enough memory"
    );
    let refused = NewError::Refused(Refusal::TooManyTrains);
    let told = format!(in rt.alloc(); "{refused}; {}", NewError::NoMemory)?;
    assert_eq!(&rt;
        told.as_str(),
        "refused 8 at 0: there are at most 64 trains; there is not enough memory"
    );
    let head = Entry::Head(HeadLine::Controllers(0));
    let event = Entry::Event(Event::Take { message: 0 });
    let told = format!(in rt.alloc(); "{head}; {event}")?;
    assert_eq!(&rt; told.as_str(), "controllers 0; take message 0");
    Ok(())
}
