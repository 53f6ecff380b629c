use sa_interval::Interval;
use sa_octagon::{Closing, Pack};
use std::test::Fail;

/// x is 0 to 10, and y = x + 3: what is known of their difference.
#[test]
fn follows_an_assignment(rt: HostRuntime) -> Result<(), Fail> {
    let range = Interval::new(-100, 100);
    let mut p = Pack::top(rt.alloc(), &[7, 9], &[range, range])?;
    assert_eq!(rt; (p.place(9), p.place(8)), (Some(1), None));
    p.assign_range(0, Interval::new(0, 10));
    let first = p.close();
    assert_eq!(rt; first, Closing::Closed);
    if first == Closing::Closed {
        p.assign_linear(1, true, 0, 3);
        let second = p.close();
        assert_eq!(rt; second, Closing::Closed);
        if second == Closing::Closed {
            assert_eq!(rt; p.pair(true, 1, false, 0), Interval::new(3, 3));
        }
    }
    Ok(())
}

/// The greatest pack: it goes on after each closure, and joins and widens with what it was at first.
#[test]
fn goes_on_at_eight_cells(rt: HostRuntime) -> Result<(), Fail> {
    let range = Interval::new(0, 100);
    let spans = [range, range, range, range, range, range, range, range];
    let mut p = Pack::top(rt.alloc(), &[10, 11, 12, 13, 14, 15, 16, 17], &spans)?;
    let before = p.copy(rt.alloc())?;
    // x0 = x1 + 3
    p.assign_linear(0, true, 1, 3);
    let first = p.close();
    assert_eq!(rt; first, Closing::Closed);
    if first == Closing::Closed {
        // x1 + x2 <= 20
        p.guard(true, 1, true, 2, 20);
        let second = p.close();
        assert_eq!(rt; second, Closing::Closed);
        if second == Closing::Closed {
            p.assign_range(2, Interval::new(5, 7));
            let third = p.close();
            assert_eq!(rt; third, Closing::Closed);
            if third == Closing::Closed {
                assert_eq!(rt; p.unary(0), Interval::new(3, 23));
                let joined = p.join(rt.alloc(), &before)?;
                assert_eq!(rt;
                    (p.le(&before), before.le(&p), joined.le(&before)),
                    (true, false, true)
                );
                p.widen(&before);
                assert_eq!(rt; (before.le(&p), p.le(&before)), (true, true));
            }
        }
    }
    Ok(())
}
