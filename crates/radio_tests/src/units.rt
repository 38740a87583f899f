// Steps of a unit with numbers that no day leads to: each is refused for the first of them, and the unit is as it was.
use crate::states::{FARTHEST, SECOND};
use braking::{Brakes, Refusal};
use onboard::{Grant, Onboard, Word, may_drive};
use std::process::Abort;
use std::test::Fail;

fn braked(brake: u64, blur: u64) -> Onboard {
    Onboard {
        brakes: Brakes { brake, blur },
        ..SECOND
    }
}

// With its end past the line.
fn past(unit: Onboard) -> Onboard {
    Onboard {
        end: FARTHEST + 1,
        ..unit
    }
}

// The step is refused with this number and place, and the unit is as it was.
fn refused<T: Drop>(
    rt: &impl Abort,
    before: Onboard,
    step: (Onboard, Result<T, Refusal>),
    listed: (u64, u64),
) -> Result<(), Fail> {
    let (after, Err(why)) = step else {
        return Err(Fail::new("not refused"));
    };
    assert_eq!(rt; after, before);
    assert_eq!(rt; (why.number(), why.place()), listed);
    Ok(())
}

#[test]
fn wishes_and_ticks_refused(rt: HostRuntime) -> Result<(), Fail> {
    let too_far = Onboard {
        high: FARTHEST + 1,
        ..past(SECOND)
    };
    let last = Onboard {
        high: FARTHEST,
        ..SECOND
    };
    let lost = Onboard {
        low: u64::MAX,
        ..SECOND
    };
    // each number is refused as a wish and as the speed of a tick
    let cases = [
        (braked(0, 101), 10_001, (1, 0)),
        (braked(101, 0), 0, (1, 0)),
        (braked(100, 101), 10_001, (1, 1)),
        (too_far, 10_001, (2, 0)),
        (too_far, 0, (3, 0)),
        (past(last), 1, (3, 0)),
        (past(lost), 1, (3, 0)),
    ];
    for (unit, number, listed) in cases {
        refused(&rt, unit, unit.ask(number), listed)?;
        refused(&rt, unit, unit.moved(number), listed)?;
        let Brakes { brake, blur } = unit.brakes;
        let word = may_drive(brake, blur, unit.high, unit.end, number);
        assert_eq!(rt; word, unit.ask(number).1);
    }
    // 380 and 5 and 1 and 3 are 389; to stand is let wherever the end is, and no place is new then
    assert_eq!(rt; may_drive(3, 1, 380, 389, 5), Ok(Word::Drive));
    assert_eq!(rt; may_drive(3, 1, 380, 388, 5), Ok(Word::Brake));
    assert_eq!(rt; may_drive(3, 1, FARTHEST, 0, 0), Ok(Word::Drive));
    assert_eq!(rt; last.moved(0), (last, Ok(())));
    Ok(())
}

#[test]
fn marks_reports_and_grants_refused(rt: HostRuntime) -> Result<(), Fail> {
    refused(&rt, SECOND, SECOND.mark(FARTHEST + 1), (3, 0))?;
    let lost = Onboard {
        low: FARTHEST + 1,
        ..SECOND
    };
    refused(&rt, lost, lost.report(), (3, 0))?;
    let cases = [
        (2, 438, (7, 2)),
        (0, FARTHEST, (7, 0)),
        (2, FARTHEST + 1, (3, 0)),
    ];
    for (train, place, listed) in cases {
        refused(&rt, SECOND, SECOND.take(Grant { train, place }), listed)?;
    }
    Ok(())
}
