//! What drivers wish, and what speeds come of it.
ghost use Rattle.braking.specs.Limits.{speed_max};
ghost use Rattle.onboard.specs.Train.{fastest};
ghost use Rattle.std.specs.Prelude.{◌≡◌, ◌≤◌};

use crate::chance::Chance;
use braking::limits::SPEED_MAX;
use onboard::{Onboard, Word};
use reasons::fastest;

/// Most often about the highest speed that the unit lets, or a little more than the train has.
pub fn some_wish(unit: Onboard, chance: &mut Chance) -> u64
    ensures { result ≤ speed_max }
{
    let wish = match chance.up_to(9) {
        0 => 0,
        1 => chance.up_to(SPEED_MAX),
        2 | 3 => highest_let(unit),
        4 => highest_let(unit) + 1,
        5 => chance.up_to(highest_let(unit)),
        6 => unit.speed,
        _ => unit
            .speed
            .saturating_add(chance.up_to(unit.brakes.brake.saturating_mul(3))),
    };
    wish.min(SPEED_MAX)
}

// The highest speed that the unit lets its driver have. It is sought by halves: of what the unit lets
// it also lets less.
fn highest_let(unit: Onboard) -> u64
    ensures { result ≤ speed_max }
{
    let mut lets = 0;
    let mut refused = SPEED_MAX + 1;
    while refused - lets > 1 {
        let middle = lets + (refused - lets) / 2;
        if matches!(unit.ask(middle).1, Ok(Word::Drive)) {
            lets = middle;
        } else {
            refused = middle;
        }
    }
    lets
}

/// Half of the time the highest speed that the train can have in a tick with the wish, and
/// sometimes none at all.
pub fn some_speed(unit: Onboard, wish: u64, chance: &mut Chance) -> u64
    ensures { result ≤ fastest unit wish }
{
    let fastest = fastest(unit, wish);
    match chance.up_to(5) {
        0 => 0,
        1 | 2 => chance.up_to(fastest),
        _ => fastest,
    }
}
