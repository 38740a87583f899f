// The braking distance held against its rule.
use braking::Brakes;

// The rule at each speed, from 0 up: 0 up to the brake, and above it the speed that is left, the blur, and the distance
// from the speed that is left, which was held against the rule before.
#[test]
fn at_once_as_tick_by_tick(rt: HostRuntime) {
    for brake in 1..=100 {
        for blur in [0, 1, 100] {
            let brakes = Brakes { brake, blur };
            for speed in 0..=10_000 {
                let mut distance = 0;
                if speed > brake {
                    let left = speed - brake;
                    let rest = brakes.braking_distance(left).expect(&rt, "in range");
                    distance = left + blur + rest;
                }
                assert_eq!(rt; brakes.braking_distance(speed), Ok(distance));
            }
        }
    }
}
