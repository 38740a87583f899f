// A unit's end of the radio: bytes that come to it, and its report as bytes.
ghost use Rattle.braking.specs.Refusals.{done, kept};
ghost use Rattle.radio.specs.Ends.{after_taking, report_bytes};
ghost use Rattle.std.specs.Prelude.{◌≡◌};

use crate::sending::sent;
use braking::Refusal;
use message::format::MESSAGE_LENGTH;
use message::{Message, read};
use onboard::{Grant, Onboard};

// Bytes have come: the unit takes the grant that they are. A report is for controllers, and changes nothing.
pub fn take(unit: Onboard, bytes: &[u8]) -> (Onboard, Result<(), Refusal>)
    ensures state { result.0 ≡ kept unit (after_taking unit bytes.now) }
    ensures word { result.1 ≡ done (after_taking unit bytes.now) }
{
    match read(bytes) {
        Ok(Message::Grant { train, place }) => unit.take(Grant { train, place }),
        Ok(Message::Report { .. }) => (unit, Ok(())),
        Err(why) => (unit, Err(why)),
    }
}

// The place that the train's rear is not behind, as the bytes of a report.
pub fn report(unit: Onboard) -> (Onboard, Result<[u8; MESSAGE_LENGTH], Refusal>)
    ensures state { result.0 ≡ unit }
    ensures word { result.1 ≡ report_bytes unit }
{
    let train = unit.train;
    let (next, place) = unit.report();
    sent((next, place.map(|place| Message::Report { train, place })))
}
