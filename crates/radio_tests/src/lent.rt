// Each entry against its step by value, refusals among the cases: the same answer, and the lent state is what the step
// hands back.
use crate::states::{FARTHEST, FIRST, SECOND, heard};
use crate::vectors::{GRANTS, REFUSED, REPORTS};
use braking::Brakes;
use controller::Controller;
use entries::{controller_entry, unit_entry};
use onboard::Onboard;
use std::fmt::Debug;
use std::process::Abort;

// Units as they should be, and units whose memory holds something else.
const UNITS: [Onboard; 8] = [
    FIRST,
    SECOND,
    Onboard {
        brakes: Brakes { brake: 0, blur: 1 },
        ..FIRST
    },
    Onboard {
        brakes: Brakes {
            brake: 3,
            blur: 101,
        },
        ..FIRST
    },
    Onboard {
        low: u64::MAX,
        ..SECOND
    },
    Onboard {
        high: FARTHEST + 1,
        ..SECOND
    },
    Onboard {
        high: FARTHEST,
        end: FARTHEST + 1,
        ..SECOND
    },
    Onboard {
        train: 64,
        ..SECOND
    },
];

const NUMBERS: [u64; 8] = [0, 1, 5, 7, 10_000, 10_001, FARTHEST + 1, u64::MAX];

fn controllers() -> [Controller; 3] {
    let mut broken = heard(438, 0);
    broken.heard[62] = u64::MAX;
    [Controller::new(), heard(400, FARTHEST), broken]
}

// The entry leaves in the lent state what the step hands back, and answers what the step answers.
fn alike<S, A, F>(rt: &impl Abort, state: S, entry: F, step: (S, A))
where
    S: Copy + PartialEq + Debug,
    A: Copy + PartialEq + Debug,
    F: FnOnce(&mut S) -> A,
    requires { F.IsAlwaysCallable entry }
{
    let mut lent = state;
    let answer = entry(&mut lent);
    assert_eq!(rt; (lent, answer), step);
}

fn unit_told(rt: &impl Abort, unit: Onboard, number: u64) {
    alike(
        rt,
        unit,
        |lent| unit_entry::ask(lent, number),
        unit.ask(number),
    );
    alike(
        rt,
        unit,
        |lent| unit_entry::moved(lent, number),
        unit.moved(number),
    );
    alike(
        rt,
        unit,
        |lent| unit_entry::mark(lent, number),
        unit.mark(number),
    );
}

fn unit_handed(rt: &impl Abort, unit: Onboard, bytes: &[u8]) {
    alike(
        rt,
        unit,
        |lent| unit_entry::take(lent, bytes),
        radio::take(unit, bytes),
    );
}

#[test]
fn lent_units(rt: HostRuntime) {
    for unit in UNITS {
        for number in NUMBERS {
            unit_told(&rt, unit, number);
        }
        for (_, _, bytes) in REPORTS {
            unit_handed(&rt, unit, bytes);
        }
        for (_, _, bytes) in GRANTS {
            unit_handed(&rt, unit, bytes);
            unit_handed(&rt, unit, &bytes[..11]);
        }
        for (bytes, _, _) in REFUSED {
            unit_handed(&rt, unit, bytes);
        }
        alike(&rt, unit, unit_entry::report, radio::report(unit));
    }
}

fn controller_asked(rt: &impl Abort, controller: Controller, train: u64) {
    alike(
        rt,
        controller,
        |lent| controller_entry::tell(lent, train),
        radio::tell(controller, train),
    );
    alike(
        rt,
        controller,
        |lent| controller_entry::grant(lent, train),
        radio::grant(controller, train),
    );
}

fn controller_handed(rt: &impl Abort, controller: Controller, bytes: &[u8]) {
    alike(
        rt,
        controller,
        |lent| controller_entry::hear(lent, bytes),
        radio::hear(controller, bytes),
    );
}

#[test]
fn lent_controllers(rt: HostRuntime) {
    for controller in controllers() {
        for train in [0, 1, 62, 63, 64, u64::MAX] {
            controller_asked(&rt, controller, train);
        }
        for (_, _, bytes) in REPORTS {
            controller_handed(&rt, controller, bytes);
            controller_handed(&rt, controller, &bytes[..11]);
        }
        for (_, _, bytes) in GRANTS {
            controller_handed(&rt, controller, bytes);
        }
        for (bytes, _, _) in REFUSED {
            controller_handed(&rt, controller, bytes);
        }
        alike(
            &rt,
            controller,
            controller_entry::restart,
            controller.restart(),
        );
    }
}
