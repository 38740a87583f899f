// The limits of every number on the line. Each check passes up to the limit, and else answers the refusal.
ghost use Rattle.braking.specs.Limits.{speed_checked, place_checked, train_checked, counts_checked};
ghost use Rattle.std.specs.Prelude.{◌≡◌};

use crate::refusal::{Refusal, check};

// The farthest place, in decimetres from the foot of the line.
pub const PLACE_MAX: u64 = 1_000_000_000;

// The highest speed, in decimetres that the front comes in a tick.
pub const SPEED_MAX: u64 = 10_000;

// The weakest and the strongest brake: speed lost at least in a tick of braking.
pub const BRAKE_MIN: u64 = 1;

pub const BRAKE_MAX: u64 = 100;

// The largest blur: by how much a tick that moves makes the knowledge of the place worse, either way.
pub const BLUR_MAX: u64 = 100;

// The highest number of a train; the foremost is 0.
pub const TRAIN_MAX: u64 = 63;

// How many trains and how many controllers a line has at most.
pub const TRAINS_MAX: usize = 64;

pub const CONTROLLERS_MAX: usize = 8;

pub fn check_speed(speed: u64) -> Result<(), Refusal>
    ensures { result ≡ speed_checked speed }
{
    check(speed <= SPEED_MAX, Refusal::SpeedTooHigh)
}

pub fn check_place(place: u64) -> Result<(), Refusal>
    ensures { result ≡ place_checked place }
{
    check(place <= PLACE_MAX, Refusal::PlaceTooFar)
}

pub fn check_train(train: u64) -> Result<(), Refusal>
    ensures { result ≡ train_checked train }
{
    check(train <= TRAIN_MAX, Refusal::TrainTooHigh)
}

// How many trains and controllers a line has; the trains are looked at first.
pub fn check_counts(trains: usize, controllers: usize) -> Result<(), Refusal>
    ensures { result ≡ counts_checked trains controllers }
{
    check(trains <= TRAINS_MAX, Refusal::TooManyTrains)?;
    check(controllers <= CONTROLLERS_MAX, Refusal::TooManyControllers)
}
