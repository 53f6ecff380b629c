use sa_interval::{Interval, Thresholds};
use std::test::Fail;

const FAR: i128 = 1 << 70;

/// Where a bound that moves from 0 to `z` stops, under a top from `-FAR` to `FAR`; None outside it.
fn stop(thresholds: &Thresholds, z: i128) -> Option<i128> {
    let top = Interval::new(-FAR, FAR);
    let zero = Interval::new(0, 0);
    if 0 <= z && z <= FAR {
        Some(thresholds.widen(zero, Interval::new(0, z), top).hi())
    } else if -FAR <= z && z < 0 {
        Some(thresholds.widen(zero, Interval::new(z, 0), top).lo())
    } else {
        None
    }
}

#[test]
fn a_bound_stops_at_the_next_threshold(rt: HostRuntime) -> Result<(), Fail> {
    let thresholds = Thresholds::make(rt.alloc(), &[100, 1000])?;
    // the ends of C's types on a machine with 8, 16, 32 and 64 bits, and past them the top
    for (z, at) in [
        (0, 0),
        (1, 1),
        (2, 100),
        (101, 127),
        (128, 255),
        (256, 1000),
        (1001, 32767),
        (32768, 65535),
        (65536, 2_147_483_647),
        (2_147_483_648, 4_294_967_295),
        (4_294_967_296, 9_223_372_036_854_775_807),
        (9_223_372_036_854_775_808, 18_446_744_073_709_551_615),
        (18_446_744_073_709_551_616, FAR),
        (-1, -1),
        (-2, -100),
        (-101, -128),
        (-129, -1000),
        (-1001, -32768),
        (-32769, -2_147_483_648),
        (-2_147_483_649, -9_223_372_036_854_775_808),
        (-9_223_372_036_854_775_809, -FAR),
    ] {
        assert_eq!(rt; stop(&thresholds, z), Some(at));
    }
    Ok(())
}

#[test]
fn a_bound_stops_at_one_of_thousands(rt: HostRuntime) -> Result<(), Fail> {
    let mut values = Vec::new(rt.alloc());
    for k in 0..10_000u64 {
        values.push(100_000 + 10 * k)?;
    }
    let thresholds = Thresholds::make(rt.alloc(), &values)?;
    for (z, at) in [
        (99_999, 100_000),
        (100_001, 100_010),
        (199_990, 199_990),
        (199_991, 2_147_483_647),
    ] {
        assert_eq!(rt; stop(&thresholds, z), Some(at));
        assert_eq!(rt;
            stop(&thresholds, -z),
            Some(if at < 2_147_483_647 {
                -at
            } else {
                -2_147_483_648
            })
        );
    }
    Ok(())
}
