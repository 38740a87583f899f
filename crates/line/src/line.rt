// A line, and a run of it over a list of events.
ghost use Rattle.braking.specs.declared.refusal.Refusal.TheVariants.{NotInitial};
ghost use Rattle.line.specs.declared.new_error.NewError.TheVariants.{Refused};
ghost use Rattle.line.specs.Initial.{FirstWrong, Made};
ghost use Rattle.line.specs.Inside.{Recorded};
ghost use Rattle.line.specs.Runs.{Counted, Ended, GapTrue, gaps_of, seen_of};
ghost use Rattle.braking.specs.Memory.{Full};
ghost use Rattle.line.specs.Steps.{Stepped, seen_at, state};
ghost use Rattle.safety.specs.Events.{after_events, Came, CanBe};
ghost use Rattle.safety.specs.Promises.{AllPromised};
ghost use Rattle.safety.specs.State.{Initial};
ghost use Rattle.std.specs.Prelude.{◌≡◌, ℕ, ◌≤◌, ◌++◌, Err, IfOk, length, take};

use crate::gaps::Gaps;
use crate::new_error::NewError;
use crate::parts::Parts;
use crate::seen::Seen;
use crate::step_error::StepError;
use braking::Brakes;
use controller::Controller;
use message::format::MESSAGE_LENGTH;
use onboard::{InitialTrain, Train};
use safety::Event;
use std::alloc::Global;

// Trains, controllers and what was sent. It always carries the fact that its state has come of an initial one.
#[derive(Drop)]
pub struct Line {
    parts: Parts,
    ghost came: { ∥ Came (state parts) ∥₁ },
}

// How far a run came, why it ended there if that was before the end of the list, and the gaps that it looked at.
#[derive(Clone, Copy, PartialEq, Eq, Debug)]
pub struct Run {
    pub done: usize,
    pub stop: Option<StepError>,
    pub gaps: Gaps,
}

impl Line {
    // A line on which all trains stand, nothing was heard and nothing sent; or why no day can begin with it.
    pub fn new(
        alloc: Global,
        brakes: Brakes,
        trains: &[InitialTrain],
        controllers: usize,
    ) -> Result<Line, NewError>
        ensures made { Made (λ (line : Line). state line.parts) result brakes trains.now controllers }
        ensures initial { IfOk result (λ line. Initial (state line.parts)) }
        ensures first { (train : ℕ) → result ≡ Err (Refused (NotInitial train)) → FirstWrong brakes trains.now controllers train }
    {
        let parts = Parts::initial(alloc, brakes, trains, controllers)?;
        Ok(Line { parts })
    }

    // By number, 0 the foremost.
    pub fn trains(&self) -> &[Train]
        ensures { result.now ≡ (state self.now.parts).trains }
    {
        &self.parts.trains
    }

    pub fn controllers(&self) -> &[Controller]
        ensures { result.now ≡ (state self.now.parts).controllers }
    {
        &self.parts.controllers
    }

    // Every message that was ever sent, by number.
    pub fn sent(&self) -> &[[u8; MESSAGE_LENGTH]]
        ensures { result.now ≡ (state self.now.parts).sent }
    {
        &self.parts.sent
    }

    // Does the event, or changes nothing.
    pub fn step(&mut self, event: Event) -> Result<Option<Seen>, StepError>
        ensures step { Stepped result event (Full self.new.parts.sent) (state self.old.parts) (state self.new.parts) }
        ensures seen { IfOk result (λ tick. tick ≡ seen_at (state self.old.parts) event) }
    {
        self.parts.step(event)
    }

    // Does the events one after another, up to the first that cannot be or for which there is no memory, and tells
    // how many and why it ended there. What is seen of ticks comes after what was seen before. After each event
    // that was done all holds that is promised of a line: clause `promised`.
    #[tactic(auto, using(crate::proofs::Running::stopped, crate::proofs::Running::left, crate::proofs::Counting::gap_true))]
    pub fn run(&mut self, events: &[Event], seen: &mut Vec<Seen>) -> Run
        ensures done { result.done ≤ length events.now }
        ensures ended { Ended result.stop result.done (Full self.new.parts.sent) (Full seen.new) events.now (state self.new.parts) }
        ensures can_be { CanBe (state self.old.parts) (take result.done events.now) }
        ensures state { state self.new.parts ≡ after_events (state self.old.parts) (take result.done events.now) }
        ensures came { ∥ Came (state self.new.parts) ∥₁ }
        ensures promised { (n : ℕ) → n ≤ result.done → AllPromised (after_events (state self.old.parts) (take n events.now)) }
        ensures seen { seen.new.items ≡ seen.old.items ++ seen_of (state self.old.parts) (take result.done events.now) }
        ensures gaps { Counted result.gaps (gaps_of (state self.old.parts) (take result.done events.now)) }
        ensures gaps_true { (n train : ℕ) → n ≤ result.done → GapTrue (after_events (state self.old.parts) (take n events.now)) train }
    {
        let mut gaps = Gaps::none();
        for (done, event) in events.iter().enumerate() {
            if let Err(stop) = self.record(*event, seen) {
                return Run {
                    done,
                    stop: Some(stop),
                    gaps,
                };
            }
            gaps = if done == 0 {
                self.parts.with_gaps(gaps)
            } else {
                self.parts.with_gaps_after(gaps, *event)
            };
        }
        Run {
            done: events.len(),
            stop: None,
            gaps,
        }
    }

    // Does the event, and puts what is seen of it on the list; room for that is made before.
    fn record(&mut self, event: Event, seen: &mut Vec<Seen>) -> Result<(), StepError>
        ensures { Recorded result event (Full self.new.parts.sent) (Full seen.new) (state self.old.parts) (state self.new.parts) seen.old.items seen.new.items }
    {
        if matches!(event, Event::Tick { .. }) {
            seen.reserve(1).map_err(|_| StepError::NoMemory)?;
        }
        if let Some(tick) = self.step(event)? {
            seen.push_reserved(tick);
        }
        Ok(())
    }
}
