// Why an event cannot be, and what would be right.
ghost use Rattle.line.specs.Steps.{state};
ghost use Rattle.message.specs.Bytes.{received};
ghost use Rattle.onboard.specs.Train as onboard;
ghost use Rattle.reasons.specs.Reasons.{reason_of, unless};
ghost use Rattle.reasons.specs.Told.{why_not_text};
ghost use Rattle.reasons.specs.declared.impossible.WhyNot.TheVariants.{NoController, NoGrant, NoTrain, NotSent};
ghost use Rattle.safety.specs.Events.{can_be, has_controller, has_message, has_train, may_be_taken};
ghost use Rattle.safety.specs.State.{message_at, train_at};
ghost use Rattle.std.specs.Prelude.{◌≡◌, ◌&&◌, IfNone, IfSome, None, Some, false, true};

use line::Line;
use message::{Message, read};
use onboard::{Onboard, Word};
use safety::Event;
use std::fmt;

#[derive(Clone, Copy, PartialEq, Eq, Debug)]
pub enum WhyNot {
    NoTrain { train: u64 },
    NoTrainBehind { train: u64 },
    NoController { controller: u64 },
    NotSent { message: u64 },
    NoGrant { message: u64 },
    TooFast { fastest: u64 },
}

// Why the event cannot be next on the line, if it cannot.
pub fn why_not(line: &Line, event: Event) -> Option<WhyNot>
    ensures value { result ≡ reason_of (state line.now.parts) event }
    ensures can { IfNone result (can_be (state line.now.parts) event ≡ true) }
    ensures cannot { IfSome result (λ _. can_be (state line.now.parts) event ≡ false) }
{
    match event {
        Event::Tick { train, wish, speed } => {
            if !has_train(line, train) {
                return Some(WhyNot::NoTrain { train });
            }
            let fastest = fastest_on(line, train, wish);
            (speed > fastest).then_some(WhyNot::TooFast { fastest })
        }
        Event::Mark { train } | Event::Report { train } => no_train(line, train),
        Event::Hear {
            controller,
            message,
        } => no_controller(line, controller).or(not_sent(line, message)),
        Event::Tell { controller, train } => {
            no_controller(line, controller).or(no_train(line, train))
        }
        Event::Grant { controller, train } => no_controller(line, controller)
            .or(no_train(line, train))
            .or(no_train(line, train.saturating_add(1)).map(|_| WhyNot::NoTrainBehind { train })),
        Event::Take { message } => not_sent(line, message).or(no_grant(line, message)),
        Event::Restart { controller } => no_controller(line, controller),
    }
}

fn no_train(line: &Line, train: u64) -> Option<WhyNot>
    ensures { result ≡ unless (has_train (state line.now.parts) train) (NoTrain train) None }
{
    (!has_train(line, train)).then_some(WhyNot::NoTrain { train })
}

fn no_controller(line: &Line, controller: u64) -> Option<WhyNot>
    ensures { result ≡ unless (has_controller (state line.now.parts) controller) (NoController controller) None }
{
    (!has_controller(line, controller)).then_some(WhyNot::NoController { controller })
}

fn not_sent(line: &Line, message: u64) -> Option<WhyNot>
    ensures { result ≡ unless (has_message (state line.now.parts) message) (NotSent message) None }
{
    (!has_message(line, message)).then_some(WhyNot::NotSent { message })
}

fn no_grant(line: &Line, message: u64) -> Option<WhyNot>
    ensures { result ≡ unless (has_message (state line.now.parts) message && may_be_taken (state line.now.parts) (received (message_at (state line.now.parts) message))) (NoGrant message) None }
{
    (!may_be_taken(line, message)).then_some(WhyNot::NoGrant { message })
}

fn has_train(line: &Line, train: u64) -> bool
    ensures { result ≡ has_train (state line.now.parts) train }
{
    (train as usize) < line.trains().len()
}

fn has_controller(line: &Line, controller: u64) -> bool
    ensures { result ≡ has_controller (state line.now.parts) controller }
{
    (controller as usize) < line.controllers().len()
}

fn has_message(line: &Line, message: u64) -> bool
    ensures { result ≡ has_message (state line.now.parts) message }
{
    (message as usize) < line.sent().len()
}

// Whether the message was sent, and is a grant for a train of the line.
fn may_be_taken(line: &Line, message: u64) -> bool
    ensures { result ≡ (has_message (state line.now.parts) message && may_be_taken (state line.now.parts) (received (message_at (state line.now.parts) message))) }
{
    let Some(bytes) = line.sent().get(message as usize) else {
        return false;
    };
    match read(bytes) {
        Ok(Message::Grant { train, .. }) => has_train(line, train),
        _ => false,
    }
}

// The same of a train of the line; 0 where there is no such train.
fn fastest_on(line: &Line, train: u64, wish: u64) -> u64
    ensures { result ≡ onboard.fastest (train_at (state line.now.parts) train).unit wish }
{
    let Some(here) = line.trains().get(train as usize) else {
        return 0;
    };
    fastest(here.unit, wish)
}

/// The highest speed that a train with this unit can have in a tick with the wish.
pub fn fastest(unit: Onboard, wish: u64) -> u64
    ensures { result ≡ onboard.fastest unit wish }
{
    match unit.ask(wish).1 {
        Ok(Word::Drive) => wish,
        _ => unit.speed.saturating_sub(unit.brakes.brake),
    }
}

impl fmt::Display for WhyNot {
    ghost output = { λ why. Some (why_not_text why) };

    #[tactic(auto, unfolding(crate::specs::Told::no_grant_text))]
    fn fmt<W: fmt::Write>(&self, f: &mut fmt::Formatter<W>) -> fmt::Result {
        match *self {
            WhyNot::NoTrain { train } => write!(f, "there is no train {train}"),
            WhyNot::NoTrainBehind { train } => write!(f, "there is no train behind train {train}"),
            WhyNot::NoController { controller } => write!(f, "there is no controller {controller}"),
            WhyNot::NotSent { message } => write!(f, "no message {message} was sent yet"),
            WhyNot::NoGrant { message } => {
                write!(
                    f,
                    "message {message} is a report, and only a grant can be taken"
                )
            }
            WhyNot::TooFast { fastest } => write!(f, "the speed can be at most {fastest}"),
        }
    }
}
