// A lent unit: the driver's wish, ticks, marks, bytes that come, and its report as bytes.
ghost use Rattle.braking.specs.Refusals.{done, kept};
ghost use Rattle.onboard.specs.Steps.{after_mark, after_tick, asked};
ghost use Rattle.radio.specs.Ends.{after_taking, report_bytes};
ghost use Rattle.std.specs.Prelude.{◌≡◌};

use braking::Refusal;
use message::format::MESSAGE_LENGTH;
use onboard::{Onboard, Word};

pub fn ask(unit: &mut Onboard, wish: u64) -> Result<Word, Refusal>
    ensures state { unit.new ≡ unit.old }
    ensures word { result ≡ asked unit.old wish }
{
    let (next, word) = unit.ask(wish);
    *unit = next;
    word
}

pub fn moved(unit: &mut Onboard, speed: u64) -> Result<(), Refusal>
    ensures state { unit.new ≡ kept unit.old (after_tick unit.old speed) }
    ensures word { result ≡ done (after_tick unit.old speed) }
{
    let (next, word) = unit.moved(speed);
    *unit = next;
    word
}

pub fn mark(unit: &mut Onboard, place: u64) -> Result<(), Refusal>
    ensures state { unit.new ≡ kept unit.old (after_mark unit.old place) }
    ensures word { result ≡ done (after_mark unit.old place) }
{
    let (next, word) = unit.mark(place);
    *unit = next;
    word
}

pub fn take(unit: &mut Onboard, bytes: &[u8]) -> Result<(), Refusal>
    ensures state { unit.new ≡ kept unit.old (after_taking unit.old bytes.now) }
    ensures word { result ≡ done (after_taking unit.old bytes.now) }
{
    let (next, word) = radio::take(*unit, bytes);
    *unit = next;
    word
}

pub fn report(unit: &mut Onboard) -> Result<[u8; MESSAGE_LENGTH], Refusal>
    ensures state { unit.new ≡ unit.old }
    ensures word { result ≡ report_bytes unit.old }
{
    let (next, word) = radio::report(*unit);
    *unit = next;
    word
}
