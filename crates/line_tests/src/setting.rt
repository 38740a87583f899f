// A day with all kinds of lines and of events, and no two numbers alike where one could be taken for the other.
use onboard::InitialTrain;
use safety::Event;
use scenario::{HeadLine, Stop, read};
use std::alloc::Global;
use std::process::Abort;
use std::test::Fail;

pub(crate) const FIRST: InitialTrain = InitialTrain {
    low: 490,
    front: 500,
    high: 510,
    end: 2000,
    length: 100,
};

pub(crate) const SECOND: InitialTrain = InitialTrain {
    low: 375,
    front: 380,
    high: 385,
    end: 398,
    length: 80,
};

pub(crate) const HEAD: [HeadLine; 5] = [
    HeadLine::Brake(3),
    HeadLine::Blur(1),
    HeadLine::Controllers(4),
    HeadLine::Train(FIRST),
    HeadLine::Train(SECOND),
];

pub(crate) const EVENTS: [Event; 8] = [
    Event::Tick {
        train: 1,
        wish: 7,
        speed: 5,
    },
    Event::Mark { train: 1 },
    Event::Report { train: 0 },
    Event::Hear {
        controller: 2,
        message: 0,
    },
    Event::Tell {
        controller: 3,
        train: 1,
    },
    Event::Grant {
        controller: 2,
        train: 0,
    },
    Event::Take { message: 12 },
    Event::Restart { controller: 3 },
];

// As it is written, with its events on these lines.
pub(crate) const LINES: [u64; 8] = [5, 6, 7, 8, 9, 10, 11, 12];

pub(crate) const TEXT: &str =
    "brake 3\nblur 1\ncontrollers 4\ntrain 490 500 510 2000 100\ntrain 375 380 385 398 80\ntick 1 wish 7 speed 5\nmark 1\nreport 0\nhear 2 message 0\ntell 3 train 1\ngrant 2 train 0\ntake message 12\nrestart 3\n";

// The text is read to its end, and has these lines of a head, and the events of the day on these lines.
pub(crate) fn reads_day(
    rt: &impl Abort,
    alloc: Global,
    text: &str,
    head: &[HeadLine],
    lines: &[u64],
) -> Result<(), Fail> {
    let scenario = read(alloc, text)?;
    assert_eq!(rt; scenario.head.as_slice(), head);
    assert_eq!(rt; scenario.events.as_slice(), EVENTS.as_slice());
    assert_eq!(rt; scenario.lines.as_slice(), lines);
    assert_eq!(rt; scenario.stop, Stop::End);
    Ok(())
}
