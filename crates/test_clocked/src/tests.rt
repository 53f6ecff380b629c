ghost use Rattle.std.specs.Prelude.{◌≡◌, pos, negsuc};
ghost use Rattle.sa_clocked.specs.Triples.{triple, triple_of};
ghost use Rattle.sa_interval.specs.Rows.{single};

use sa_clocked::Clocked;
use sa_interval::{Interval, Thresholds};
use std::test::Fail;

/// The bounds of the three intervals, in order.
fn bounds(c: Clocked) -> Bounds {
    [
        (c.v.lo(), c.v.hi()),
        (c.minus.lo(), c.minus.hi()),
        (c.plus.lo(), c.plus.hi()),
    ]
}

type Bounds = [(i128, i128); 3];

/// A counter of 0 at clock 0.
fn start() -> Clocked
    ensures { result ≡ triple_of (single (pos 0)) (single (pos 0)) }
{
    Clocked::of(Interval::new(0, 0), Interval::new(0, 0))
}

/// It has grown by 1.
fn grown() -> Clocked
    ensures { result ≡ triple (single (pos 1)) (single (pos 1)) (single (pos 1)) }
{
    Clocked::assign_shift(start(), Interval::new(1, 1), 1)
}

#[test]
fn a_counter_follows_the_clock(rt: HostRuntime) -> Result<(), Fail> {
    assert_eq!(rt; bounds(start()), [(0, 0), (0, 0), (0, 0)]);
    assert_eq!(rt; bounds(grown()), [(1, 1), (1, 1), (1, 1)]);
    assert_eq!(rt; bounds(grown().tick()), [(1, 1), (0, 0), (2, 2)]);
    assert_eq!(rt;
        bounds(start().join(grown().tick())),
        [(0, 1), (0, 0), (0, 2)]
    );
    assert_eq!(rt; start().le(grown()), false);
    assert_eq!(rt; start().le(start().join(grown())), true);
    Ok(())
}

#[test]
fn a_reduction_takes_the_clock_over(rt: HostRuntime) -> Result<(), Fail> {
    // the value is widened to 32,767; value less clock is still 0, and the clock is at most 1,000
    let wide = Clocked {
        v: Interval::new(0, 32_767),
        minus: Interval::new(0, 0),
        plus: Interval::new(0, 40_000),
    };
    assert_eq!(rt;
        wide.reduce(Interval::new(0, 1_000)).map(bounds),
        Some([(0, 1_000), (0, 0), (0, 2_000)])
    );
    // the value is at least 5 and equal to the clock, which is at most 4
    let none = Clocked {
        v: Interval::new(5, 9),
        minus: Interval::new(0, 0),
        plus: Interval::new(0, 20),
    };
    assert_eq!(rt; none.reduce(Interval::new(0, 4)).map(bounds), None);
    Ok(())
}

/// What a value of 0 to 3 at clocks 0 to 3 may be at all.
fn top() -> Clocked
    ensures { result ≡ triple_of (record { lo = negsuc 127; hi = pos 127 }) (record { lo = pos 0; hi = pos 1000 }) }
{
    Clocked::of(Interval::new(-128, 127), Interval::new(0, 1_000))
}

#[test]
fn a_widening_keeps_what_is_stable(rt: HostRuntime) -> Result<(), Fail> {
    let thresholds = Thresholds::make(rt.alloc(), &[100])?;
    let old = Clocked::of(Interval::new(0, 3), Interval::new(0, 3));
    let new = Clocked {
        v: Interval::new(0, 4),
        minus: Interval::new(-3, 3),
        plus: Interval::new(0, 8),
    };
    assert_eq!(rt;
        bounds(old.widen(new, &thresholds, top())),
        [(0, 100), (-3, 3), (0, 1_127)]
    );
    Ok(())
}
