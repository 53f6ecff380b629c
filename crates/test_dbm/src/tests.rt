use sa_dbm::{Closing, Matrix};
use std::test::Fail;

#[test]
fn closes(rt: HostRuntime) -> Result<(), Fail> {
    let mut m = Matrix::top(rt.alloc(), 2)?;
    // x + y <= 1 and x - y <= 0
    m.tighten(3, 0, 1);
    m.tighten(2, 0, 0);
    let mut none = m.copy(rt.alloc())?;
    // x >= 1
    none.tighten(0, 1, -2);
    assert_eq!(rt; none.close(), Closing::Empty);
    assert_eq!(rt; m.close(), Closing::Closed);
    let table = [
        (1, 0, Some(0)),
        (0, 1, None),
        (3, 0, Some(1)),
        (1, 2, Some(1)),
        (2, 0, Some(0)),
        (1, 3, Some(0)),
        (2, 3, None),
    ];
    for (i, j, want) in table {
        assert!(rt; i < 4 && j < 4);
        assert_eq!(rt; m.bound(i, j), want, "at {i}, {j}");
    }
    Ok(())
}

#[test]
fn closes_after_one_more_bound(rt: HostRuntime) -> Result<(), Fail> {
    let mut m = Matrix::top(rt.alloc(), 2)?;
    // x + y <= 1 and x - y <= 0
    m.tighten(3, 0, 1);
    m.tighten(2, 0, 0);
    let answer = m.close();
    assert_eq!(rt; answer, Closing::Closed);
    if answer == Closing::Closed {
        // x <= -1
        let next = m.close_after(1, 0, -2);
        assert_eq!(rt; next, Closing::Closed);
        let table = [(1, 0, Some(-2)), (2, 0, Some(0)), (0, 1, None)];
        for (i, j, want) in table {
            assert!(rt; i < 4 && j < 4);
            assert_eq!(rt; m.bound(i, j), want, "at {i}, {j}");
        }
        if next == Closing::Closed {
            // x >= 1
            assert_eq!(rt; m.close_after(0, 1, -2), Closing::Empty);
        }
    }
    Ok(())
}

/// Eight variables, each at most 1 below the next, all from 0 to 100: a chain of bounds that only a closure finds. Then
/// the last is lowered, and with it the first, by both closures alike.
#[test]
fn goes_on_after_a_closure(rt: HostRuntime) -> Result<(), Fail> {
    let mut m = Matrix::top(rt.alloc(), 8)?;
    for k in 0..8 {
        // x_k <= 100 and -x_k <= 0
        m.tighten(2 * k + 1, 2 * k, 200);
        m.tighten(2 * k, 2 * k + 1, 0);
    }
    for k in 0..7 {
        // x_k - x_(k + 1) <= -1
        m.tighten(2 * k + 2, 2 * k, -1);
    }
    let answer = m.close();
    assert_eq!(rt; answer, Closing::Closed);
    if answer == Closing::Closed {
        assert_eq!(rt; m.bound(14, 0), Some(-7));
        assert_eq!(rt; m.bound(1, 0), Some(186));
        let mut again = m.copy(rt.alloc())?;
        // x_7 <= 50
        again.tighten(15, 14, 100);
        assert_eq!(rt; again.close(), Closing::Closed);
        assert_eq!(rt; m.close_after(15, 14, 100), Closing::Closed);
        assert_eq!(rt; (m.le(&again), again.le(&m)), (true, true));
        assert_eq!(rt; m.bound(1, 0), Some(86));
    }
    Ok(())
}

#[test]
fn joins_and_moves(rt: HostRuntime) -> Result<(), Fail> {
    let mut low = Matrix::top(rt.alloc(), 1)?;
    let mut high = low.copy(rt.alloc())?;
    // x <= 1, x <= 3
    low.tighten(1, 0, 2);
    high.tighten(1, 0, 6);
    assert_eq!(rt; (low.le(&high), high.le(&low)), (true, false));
    low.join_into(&high);
    assert_eq!(rt; low.bound(1, 0), Some(6));
    low.shift(0, -5);
    assert_eq!(rt; low.bound(1, 0), Some(-4));
    high.forget(0);
    assert_eq!(rt; high.bound(1, 0), None);
    assert_eq!(rt; high.bound(0, 0), Some(0));
    Ok(())
}
