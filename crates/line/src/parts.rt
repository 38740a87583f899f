// The trains, the controllers and what was sent, and what each event makes of them.
ghost use Rattle.line.specs.Runs.{every_gap, gap};
ghost use Rattle.line.specs.Inside.{After, AllAmong, InLimits, Sent, count_of, narrowed};
ghost use Rattle.braking.specs.Memory.{Full};
ghost use Rattle.line.specs.Steps.{Stepped, seen_at, state};
ghost use Rattle.safety.specs.declared.event.Event.TheVariants.{Grant, Hear, Mark, Report, Restart, Take, Tell, Tick};
ghost use Rattle.safety.specs.State.{State};
ghost use Rattle.std.specs.Prelude.{◌≡◌, ℕ, ◌+◌, ◌<◌, ◌≤◌, ◌^◌, ◌++◌, IfOk, List, Some, length};

use crate::gaps::Gaps;
use crate::seen::Seen;
use crate::step_error::StepError;
use braking::Refusal;
use controller::Controller;
use message::format::MESSAGE_LENGTH;
use message::{Message, read};
use onboard::{Train, Word};
use safety::Event;

#[derive(Drop)]
pub struct Parts {
    // by number; the train behind train i is train i + 1
    pub trains: Vec<Train>,
    pub controllers: Vec<Controller>,
    // every message that was ever sent, by number
    pub sent: Vec<[u8; MESSAGE_LENGTH]>,
}

impl Parts {
    // Does the event, or changes nothing.
    pub(crate) fn step(&mut self, event: Event) -> Result<Option<Seen>, StepError>
        requires { (train : ℕ) → InLimits (state self.old) train }
        ensures step { Stepped result event (Full self.new.sent) (state self.old) (state self.new) }
        ensures seen { IfOk result (λ seen. seen ≡ seen_at (state self.old) event) }
    {
        match event {
            Event::Tick { train, wish, speed } => return self.tick(train, wish, speed),
            Event::Mark { train } => self.mark(train)?,
            Event::Report { train } => self.report(train)?,
            Event::Hear {
                controller,
                message,
            } => self.hear(controller, message)?,
            Event::Tell { controller, train } => self.tell(controller, train)?,
            Event::Grant { controller, train } => self.grant(controller, train)?,
            Event::Take { message } => self.take(message)?,
            Event::Restart { controller } => self.restart(controller)?,
        }
        Ok(None)
    }

    // Looks at every gap between neighbours.
    #[tactic(auto, using(crate::proofs::Counting::gap_more))]
    pub(crate) fn with_gaps(&self, mut gaps: Gaps) -> Gaps
        requires { gaps.count + length self.now.trains.items < 2 ^ 128 }
        ensures looked_at { (before : List ℕ) → gaps ≡ count_of before → result ≡ count_of (before ++ every_gap (state self.now)) }
        ensures few { result.count ≤ gaps.count + length self.now.trains.items }
    {
        for train in 0..self.trains.len().saturating_sub(1) {
            gaps = gaps.with(self.gap(train));
        }
        gaps
    }

    // Looks at every gap between neighbours after an event, where every gap was looked at before it. No train goes
    // back, so at most one gap has become smaller, and there is no need to go over all of them.
    pub(crate) fn with_gaps_after(&self, gaps: Gaps, event: Event) -> Gaps
        requires few { gaps.count + length self.now.trains.items < 2 ^ 128 }
        requires there { (train wish speed : ℕ) → event ≡ Tick train wish speed → train < length self.now.trains.items }
        ensures looked_at { (s : State) (before : List ℕ) → After s event (state self.now) → AllAmong s before → gaps ≡ count_of before → result ≡ count_of (before ++ every_gap (state self.now)) }
        ensures few { result.count ≤ gaps.count + length self.now.trains.items }
    {
        gaps.with_more(self.trains.len().saturating_sub(1), self.narrowed(event))
    }

    // The gap that the event may have made smaller: the one ahead of a train that came forward.
    fn narrowed(&self, event: Event) -> Option<u64>
        requires { (train wish speed : ℕ) → event ≡ Tick train wish speed → train < length self.now.trains.items }
        ensures { result ≡ narrowed (state self.now) event }
    {
        match event {
            Event::Tick { train, .. } if train > 0 => Some(self.gap(train as usize - 1)),
            _ => None,
        }
    }

    // The gap behind a train.
    fn gap(&self, train: usize) -> u64
        requires { train + 1 < length self.now.trains.items }
        ensures { result ≡ gap (state self.now) train }
    {
        let ahead = self.trains[train];
        let behind = self.trains[train + 1];
        let rear = ahead.front.saturating_sub(ahead.unit.length);
        rear.saturating_sub(behind.front)
    }

    // The driver wishes a speed, and the train then has one that the unit's answer allows. A wish that is refused
    // is not let.
    fn tick(&mut self, train: u64, wish: u64, speed: u64) -> Result<Option<Seen>, StepError>
        requires { (train : ℕ) → InLimits (state self.old) train }
        ensures step { Stepped result (Tick train wish speed) (Full self.new.sent) (state self.old) (state self.new) }
        ensures seen { IfOk result (λ seen. seen ≡ seen_at (state self.old) (Tick train wish speed)) }
    {
        let here = self
            .trains
            .get_mut(train as usize)
            .ok_or(StepError::Impossible)?;
        let word = here.unit.ask(wish).1.unwrap_or(Word::Brake);
        let fastest = match word {
            Word::Drive => wish,
            Word::Brake => here.unit.speed.saturating_sub(here.unit.brakes.brake),
        };
        if speed > fastest {
            return Err(StepError::Impossible);
        }
        here.front += speed;
        here.unit = here.unit.moved(speed).0;
        Ok(Some(Seen {
            train,
            word,
            speed,
            front: here.front,
        }))
    }

    fn mark(&mut self, train: u64) -> Result<(), StepError>
        ensures { Stepped result (Mark train) (Full self.new.sent) (state self.old) (state self.new) }
    {
        let here = self
            .trains
            .get_mut(train as usize)
            .ok_or(StepError::Impossible)?;
        here.unit = here.unit.mark(here.front).0;
        Ok(())
    }

    fn report(&mut self, train: u64) -> Result<(), StepError>
        ensures { Stepped result (Report train) (Full self.new.sent) (state self.old) (state self.new) }
    {
        let here = self
            .trains
            .get(train as usize)
            .ok_or(StepError::Impossible)?;
        let bytes = radio::report(here.unit).1;
        self.send(bytes)
    }

    fn hear(&mut self, controller: u64, message: u64) -> Result<(), StepError>
        ensures { Stepped result (Hear controller message) (Full self.new.sent) (state self.old) (state self.new) }
    {
        let bytes = self
            .sent
            .get(message as usize)
            .ok_or(StepError::Impossible)?;
        let here = self
            .controllers
            .get_mut(controller as usize)
            .ok_or(StepError::Impossible)?;
        // bytes that are turned away leave the controller as it was
        let _ = radio::hear_in_place(here, bytes);
        Ok(())
    }

    fn tell(&mut self, controller: u64, train: u64) -> Result<(), StepError>
        ensures { Stepped result (Tell controller train) (Full self.new.sent) (state self.old) (state self.new) }
    {
        let here = self
            .controllers
            .get(controller as usize)
            .ok_or(StepError::Impossible)?;
        if train as usize >= self.trains.len() {
            return Err(StepError::Impossible);
        }
        let bytes = radio::told(here, train);
        self.send(bytes)
    }

    fn grant(&mut self, controller: u64, train: u64) -> Result<(), StepError>
        ensures { Stepped result (Grant controller train) (Full self.new.sent) (state self.old) (state self.new) }
    {
        let here = self
            .controllers
            .get(controller as usize)
            .ok_or(StepError::Impossible)?;
        // a number past the last one stays past it
        let behind = (train as usize).saturating_add(1);
        if behind >= self.trains.len() {
            return Err(StepError::Impossible);
        }
        let bytes = radio::granted(here, train);
        self.send(bytes)
    }

    // A grant comes to the train that it is for; nothing else can be taken.
    fn take(&mut self, grant: u64) -> Result<(), StepError>
        ensures { Stepped result (Take grant) (Full self.new.sent) (state self.old) (state self.new) }
    {
        let bytes = self.sent.get(grant as usize).ok_or(StepError::Impossible)?;
        let Ok(Message::Grant { train: taker, .. }) = read(bytes) else {
            return Err(StepError::Impossible);
        };
        let here = self
            .trains
            .get_mut(taker as usize)
            .ok_or(StepError::Impossible)?;
        here.unit = radio::take(here.unit, bytes).0;
        Ok(())
    }

    fn restart(&mut self, controller: u64) -> Result<(), StepError>
        ensures { Stepped result (Restart controller) (Full self.new.sent) (state self.old) (state self.new) }
    {
        let here = self
            .controllers
            .get_mut(controller as usize)
            .ok_or(StepError::Impossible)?;
        *here = here.restart().0;
        Ok(())
    }

    // Keeps what is sent; a refusal to send leaves nothing to keep.
    fn send(&mut self, bytes: Result<[u8; MESSAGE_LENGTH], Refusal>) -> Result<(), StepError>
        ensures { Sent result bytes (Full self.new.sent) (state self.old) (state self.new) }
    {
        if let Ok(bytes) = bytes {
            self.sent.reserve(1).map_err(|_| StepError::NoMemory)?;
            self.sent.push_reserved(bytes);
        }
        Ok(())
    }
}
