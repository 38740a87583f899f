//! How a random day begins.
ghost use Rattle.braking.specs.Limits.{place_max};
ghost use Rattle.line.specs.Initial.{trains_checked};
ghost use Rattle.onboard.specs.InitialTrain.{fits};
ghost use Rattle.random.specs.Days.{Begins};
ghost use Rattle.std.specs.Prelude.{◌≡◌, ◌≤◌, IfOk, Ok, length, true};

use crate::chance::Chance;
use crate::day::Extent;
use braking::limits::{BLUR_MAX, BRAKE_MAX, CONTROLLERS_MAX, PLACE_MAX, TRAINS_MAX};
use onboard::InitialTrain;
use scenario::HeadLine;
use std::alloc::{AllocError, Global};

/// The lines of a head, of which a line can be made.
pub fn random_beginning(
    alloc: Global,
    extent: Extent,
    chance: &mut Chance,
) -> Result<Vec<HeadLine>, AllocError>
    ensures { IfOk result (λ head. Begins extent head.items) }
{
    let brake = some_brake(chance);
    let blur = some_blur(chance);
    let controllers = up_to_or_all(extent.controllers.min(CONTROLLERS_MAX as u64), chance);
    let count = up_to_or_all(extent.trains.min(TRAINS_MAX as u64), chance);
    let trains = random_trains(alloc, count, chance)?;
    let mut head = vec![in alloc;
        HeadLine::Brake(brake),
        HeadLine::Blur(blur),
        HeadLine::Controllers(controllers),
    ]?;
    for train in &trains {
        head.push(HeadLine::Train(*train))?;
    }
    Ok(head)
}

// Half of the time as many as there can be.
fn up_to_or_all(most: u64, chance: &mut Chance) -> u64
    ensures { result ≤ most }
{
    if chance.one_in(2) {
        most
    } else {
        chance.up_to(most)
    }
}

fn some_brake(chance: &mut Chance) -> u64
    ensures low { 1 ≤ result }
    ensures high { result ≤ 100 }
{
    if chance.one_in(3) {
        1 + chance.up_to(3)
    } else {
        1 + chance.up_to(BRAKE_MAX - 1)
    }
}

fn some_blur(chance: &mut Chance) -> u64
    ensures { result ≤ 100 }
{
    if chance.one_in(2) {
        chance.up_to(3)
    } else {
        chance.up_to(BLUR_MAX)
    }
}

// Trains that stand one behind the other. The first has room for all others behind it.
fn random_trains(
    alloc: Global,
    count: u64,
    chance: &mut Chance,
) -> Result<Vec<InitialTrain>, AllocError>
    requires { count ≤ 64 }
    ensures stand { IfOk result (λ trains. trains_checked place_max 0 trains.items ≡ Ok tt) }
    ensures count { IfOk result (λ trains. length trains.items ≡ count) }
{
    let scale = some_scale(chance);
    let base = (count + 1) * 8 * scale;
    let mut trains = Vec::with_capacity(alloc, count as usize)?;
    let mut limit = PLACE_MAX;
    for train in 0..count {
        let standing = if train == 0 {
            foremost(limit, base, scale, chance)
        } else {
            behind(limit, scale, chance)
        };
        trains.push(standing)?;
        limit = standing.front - standing.length;
    }
    Ok(trains)
}

// How far trains are apart, about.
fn some_scale(chance: &mut Chance) -> u64
    ensures { result ≤ 100000 }
{
    match chance.up_to(4) {
        0 => 10,
        1 => 100,
        2 => 1_000,
        3 => 10_000,
        _ => 100_000,
    }
}

// The first train may have far to go.
fn foremost(limit: u64, base: u64, scale: u64, chance: &mut Chance) -> InitialTrain
    requires limit { limit ≤ place_max }
    requires base { base ≤ 52000000 }
    requires scale { scale ≤ 100000 }
    ensures { fits limit result ≡ true }
{
    let room = match chance.up_to(2) {
        0 => limit,
        1 => chance.up_to(scale * 100),
        _ => chance.up_to(scale),
    };
    let end = (base + room).min(limit);
    standing(base.min(end), end, scale, chance)
}

// Another train stands near the rear of the one ahead, or at some distance.
fn behind(rear: u64, scale: u64, chance: &mut Chance) -> InitialTrain
    requires { scale ≤ 100000 }
    ensures { fits rear result ≡ true }
{
    let end = if chance.one_in(2) {
        rear
    } else {
        rear.saturating_sub(chance.up_to(scale))
    };
    let high = end.saturating_sub(chance.up_to(scale * 3));
    standing(high, end, scale, chance)
}

// Half of the time its unit knows just where it is.
fn standing(high: u64, end: u64, scale: u64, chance: &mut Chance) -> InitialTrain
    requires { high ≤ end }
    ensures fits { fits end result ≡ true }
    ensures end { result.end ≡ end }
{
    let apart = if chance.one_in(2) { 0 } else { scale.min(200) };
    let front = high.saturating_sub(chance.up_to(apart));
    let low = front.saturating_sub(chance.up_to(apart));
    let length = chance.up_to(scale).min(front);
    InitialTrain {
        low,
        front,
        high,
        end,
        length,
    }
}
