// Bytes that come to a unit and to a controller, and the bytes that they send.
use crate::states::{FARTHEST, FIRST, SECOND, heard};
use crate::vectors::{GRANTS, REFUSED, REPORTS, STREAM};
use braking::Refusal;
use controller::Controller;
use message::Message;
use onboard::Onboard;
use std::process::Abort;
use std::test::Fail;

// Both ends turn the bytes away with this number and place, and are as they were.
fn turned_away(rt: &impl Abort, bytes: &[u8], number: u64, place: u64) -> Result<(), Fail> {
    let controller = heard(400, 300);
    let (unit_after, by_unit) = radio::take(SECOND, bytes);
    let (controller_after, by_controller) = radio::hear(controller, bytes);
    assert_eq!(rt; unit_after, SECOND);
    assert_eq!(rt; controller_after, controller);
    assert_eq!(rt; by_unit, by_controller);
    let Err(why) = by_unit else {
        return Err(Fail::new("not turned away"));
    };
    assert_eq!(rt; (why.number(), why.place()), (number, place));
    Ok(())
}

#[test]
fn first_refusal_is_the_answer(rt: HostRuntime) -> Result<(), Fail> {
    for (bytes, number, place) in REFUSED {
        turned_away(&rt, bytes, number, place)?;
    }
    for length in 0..25 {
        if length != 12 {
            turned_away(&rt, &STREAM[..length], 4, length as u64)?;
        }
    }
    Ok(())
}

// Reports are for controllers, and grants for the units of their trains. A train of 100 whose low place is 538 reports 438;
// a controller tells it on, and grants it to train 1.
#[test]
fn stored_bytes_come_and_are_sent(rt: HostRuntime) {
    for (train, place, bytes) in REPORTS {
        assert_eq!(rt; radio::take(SECOND, bytes), (SECOND, Ok(())));
        let (after, answer) = radio::hear(heard(0, 0), bytes);
        assert_eq!(rt; answer, Ok(()));
        assert_eq!(rt; after.tell(train).1, Ok(Message::Report { train, place }));
    }
    let controller = heard(438, 0);
    for (train, place, bytes) in GRANTS {
        assert_eq!(rt; radio::hear(controller, bytes), (controller, Ok(())));
        let own = Onboard { train, ..SECOND };
        let end = place.max(398);
        assert_eq!(rt; radio::take(own, bytes), (Onboard { end, ..own }, Ok(())));
        let other = Refusal::OtherTrain { train };
        assert_eq!(rt; radio::take(FIRST, bytes), (FIRST, Err(other)));
    }
    let (_, _, report) = REPORTS[1];
    let (_, _, grant) = GRANTS[1];
    let moved = Onboard { low: 538, ..FIRST };
    assert_eq!(rt; radio::report(moved), (moved, Ok(*report)));
    assert_eq!(rt; radio::tell(controller, 0), (controller, Ok(*report)));
    assert_eq!(rt; radio::grant(controller, 0), (controller, Ok(*grant)));
}

// Memory that is lent may hold anything: no message is made of a place or of a train that cannot be.
#[test]
fn what_cannot_be_is_not_sent(rt: HostRuntime) {
    let too_far = Err(Refusal::PlaceTooFar);
    let too_high = Err(Refusal::TrainTooHigh);
    let far = Onboard {
        low: FARTHEST + 1,
        train: 64,
        ..FIRST
    };
    assert_eq!(rt; radio::report(far), (far, too_far));
    let unknown = Onboard { train: 64, ..FIRST };
    assert_eq!(rt; radio::report(unknown), (unknown, too_high));
    let mut broken = Controller::new();
    broken.heard[7] = FARTHEST + 1;
    broken.heard[63] = FARTHEST + 1;
    assert_eq!(rt; radio::tell(broken, 7), (broken, too_far));
    assert_eq!(rt; radio::grant(broken, 7), (broken, too_far));
    assert_eq!(rt; radio::tell(broken, 64), (broken, too_high));
    // the train behind is looked at before the place
    assert_eq!(rt; radio::grant(broken, 63), (broken, too_high));
}
