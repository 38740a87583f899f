// Brakes, and the distance that braking takes.
ghost use Rattle.braking.specs.Limits.{brakes_checked};
ghost use Rattle.braking.specs.Distance.{distance_checked, distance_max};
ghost use Rattle.std.specs.Prelude.{◌≡◌, ◌≤◌, IfOk};

use crate::limits::{BLUR_MAX, BRAKE_MAX, BRAKE_MIN, check_speed};
use crate::refusal::{Refusal, check};

// How well a train brakes and how well it knows its place. Plain numbers that may lie in memory
// lent from elsewhere and hold anything: whatever uses them checks them first.
#[derive(Clone, Copy, PartialEq, Eq, Debug)]
pub struct Brakes {
    // speed lost at least in a tick of braking
    pub brake: u64,
    // how much worse a tick that moves makes the knowledge of the place, either way
    pub blur: u64,
}

impl Brakes {
    // Passes where both are in range; the brake is looked at first. Were the last check handed on as it stands, a refused
    // brake would take twice as long as it is compiled.
    pub fn check(self) -> Result<(), Refusal>
        ensures { result ≡ brakes_checked self }
    {
        check(
            (BRAKE_MIN..=BRAKE_MAX).contains(&self.brake),
            Refusal::BrakeRange,
        )?;
        check(self.blur <= BLUR_MAX, Refusal::BlurRange)?;
        Ok(())
    }

    // The braking distance from `speed`: how far the front may still come after this tick, blur included.
    // With no step for each tick: a division counts the ticks of braking that end above 0. The speeds after them fall by
    // the brake, so they add up to their number times the mean of the first and the last; halved at the end, since only
    // the product is sure to be even. Each of these ticks has its blur.
    #[tactic(auto, using(crate::proofs::Distances::at_once, crate::proofs::Distances::distance_low, crate::proofs::Distances::distance_bound))]
    pub fn braking_distance(self, speed: u64) -> Result<u64, Refusal>
        ensures value { result ≡ distance_checked self speed }
        ensures bound { IfOk result (λ d. d ≤ distance_max) }
    {
        self.check()?;
        check_speed(speed)?;
        if speed <= self.brake {
            return Ok(0);
        }
        let ticks = (speed - 1) / self.brake;
        let first = speed - self.brake;
        let last = speed - ticks * self.brake;
        Ok(ticks * (first + last) / 2 + ticks * self.blur)
    }
}
