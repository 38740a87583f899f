// What can happen on a line.

// Trains and controllers go by their numbers, and messages by theirs: they are counted from 0 as they are sent.
#[derive(Clone, Copy, PartialEq, Eq, Debug)]
pub enum Event {
    // the driver of the train wishes a speed, and then its front comes by `speed`
    Tick { train: u64, wish: u64, speed: u64 },
    // the front of the train passes a mark
    Mark { train: u64 },
    // the train's unit sends a report
    Report { train: u64 },
    // a message that was sent comes to the controller
    Hear { controller: u64, message: u64 },
    // the controller sends what it knows of the train on to others, as a report
    Tell { controller: u64, train: u64 },
    // the controller sends what it knows of the train as a grant to the train behind
    Grant { controller: u64, train: u64 },
    // a grant that was sent comes to the train that it is for
    Take { message: u64 },
    // the controller loses all that it heard
    Restart { controller: u64 },
}
