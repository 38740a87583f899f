// The controller, and its steps: each hands the controller back, with what it answers.
ghost use Rattle.braking.specs.Refusals.{done, kept};
ghost use Rattle.controller.specs.Steps.{after_hear, checked, granted, known, silent, told};
ghost use Rattle.std.specs.Prelude.{◌≡◌};

use braking::Refusal;
use braking::limits::TRAINS_MAX;
use message::Message;

// Plain numbers that may lie in memory lent from elsewhere and hold anything: each step checks what it relies on.
#[derive(Clone, Copy, PartialEq, Eq, Debug)]
pub struct Controller {
    // of each train, the farthest place that a report had for its rear, 0 before any
    pub heard: [u64; TRAINS_MAX],
}

impl Controller {
    // It has heard nothing.
    pub fn new() -> Self
        ensures { result ≡ silent }
    {
        Controller {
            heard: [0; TRAINS_MAX],
        }
    }

    // A message has come: a report raises what is known of its train, if it is farther.
    pub fn hear(mut self, message: Message) -> (Self, Result<(), Refusal>)
        ensures state { result.0 ≡ kept self (after_hear self message) }
        ensures word { result.1 ≡ done (after_hear self message) }
    {
        let word = self.hear_in_place(message);
        (self, word)
    }

    // The same where it lies: a controller has 512 bytes, and they are not copied. The farther place is kept, whichever
    // of the two is the newer; only a report tells a controller anything.
    pub fn hear_in_place(&mut self, message: Message) -> Result<(), Refusal>
        ensures state { self.new ≡ kept self.old (after_hear self.old message) }
        ensures word { result ≡ done (after_hear self.old message) }
    {
        if let Message::Report { train, place } = checked(message)? {
            self.heard[train as usize] = self.known(train).max(place);
        }
        Ok(())
    }

    // What it knows of a train, as a report to others.
    pub fn tell(self, train: u64) -> (Self, Result<Message, Refusal>)
        ensures state { result.0 ≡ self }
        ensures word { result.1 ≡ told self train }
    {
        (self, self.told(train))
    }

    // What it knows of a train, as a grant to the train behind.
    pub fn grant(self, train: u64) -> (Self, Result<Message, Refusal>)
        ensures state { result.0 ≡ self }
        ensures word { result.1 ≡ granted self train }
    {
        (self, self.granted(train))
    }

    // All that was heard is lost.
    pub fn restart(self) -> (Self, ())
        ensures state { result.0 ≡ silent }
        ensures word { result.1 ≡ tt }
    {
        (Controller::new(), ())
    }

    // The place that it has for a train; 0 where there can be no such train.
    fn known(&self, train: u64) -> u64
        ensures { result ≡ known self.now train }
    {
        self.heard.get(train as usize).copied().unwrap_or(0)
    }

    // What `tell` answers.
    pub fn told(&self, train: u64) -> Result<Message, Refusal>
        ensures { result ≡ told self.now train }
    {
        let place = self.known(train);
        checked(Message::Report { train, place })
    }

    // What `grant` answers.
    pub fn granted(&self, train: u64) -> Result<Message, Refusal>
        ensures { result ≡ granted self.now train }
    {
        let place = self.known(train);
        // a train past the last number stays past it
        let behind = train.saturating_add(1);
        checked(Message::Grant {
            train: behind,
            place,
        })
    }
}

// The message, if there can be such a one.
fn checked(message: Message) -> Result<Message, Refusal>
    ensures { result ≡ checked message }
{
    message.check()?;
    Ok(message)
}
