ghost use Rattle.std.specs.Prelude.{IsTrue};
ghost use Rattle.sa_interval.specs.Types.{IsTypeRange, is_width};

use sa_interval::Interval;
use std::test::Fail;

/// The greatest size of a bound.
const LIMIT: i128 = 1 << 100;

const INT_LOW: i128 = -2_147_483_648;

const INT_HIGH: i128 = 2_147_483_647;

const UNSIGNED_HIGH: i128 = 18_446_744_073_709_551_615;

type Ends = (i128, i128);

fn ends(i: Interval) -> Ends {
    (i.lo(), i.hi())
}

/// The interval, or None where the bounds are no interval's.
fn interval((lo, hi): Ends) -> Option<Interval> {
    if lo <= hi && -LIMIT <= lo && hi <= LIMIT {
        Some(Interval::new(lo, hi))
    } else {
        None
    }
}

fn sum(a: Ends, b: Ends) -> Option<Ends> {
    Some(ends(interval(a)?.add(interval(b)?)))
}

fn difference(a: Ends, b: Ends) -> Option<Ends> {
    Some(ends(interval(a)?.sub(interval(b)?)))
}

#[test]
fn sums_and_differences(rt: HostRuntime) {
    for (a, b, sum_is, difference_is) in [
        ((0, 0), (0, 0), (0, 0), (0, 0)),
        ((-1, 1), (-1, 0), (-2, 1), (-1, 2)),
        (
            (INT_LOW, INT_HIGH),
            (1, 1),
            (INT_LOW + 1, INT_HIGH + 1),
            (INT_LOW - 1, INT_HIGH - 1),
        ),
        (
            (0, UNSIGNED_HIGH),
            (INT_LOW, INT_LOW),
            (INT_LOW, UNSIGNED_HIGH + INT_LOW),
            (-INT_LOW, UNSIGNED_HIGH - INT_LOW),
        ),
        // past the limit a bound is cut there
        (
            (-LIMIT, LIMIT),
            (1, 2),
            (1 - LIMIT, LIMIT),
            (-LIMIT, LIMIT - 1),
        ),
        ((LIMIT, LIMIT), (LIMIT, LIMIT), (LIMIT, LIMIT), (0, 0)),
    ] {
        assert_eq!(rt; sum(a, b), Some(sum_is));
        assert_eq!(rt; difference(a, b), Some(difference_is));
    }
}

fn joined(a: Ends, b: Ends) -> Option<Ends> {
    Some(ends(interval(a)?.join(interval(b)?)))
}

fn common(a: Ends, b: Ends) -> Option<Ends> {
    interval(a)?.meet(interval(b)?).map(|m| ends(m))
}

#[test]
fn joins_and_meets(rt: HostRuntime) {
    for (a, b, joined_is, common_is) in [
        ((0, 1), (1, 3), (0, 3), Some((1, 1))),
        ((0, 0), (1, 1), (0, 1), None),
        (
            (INT_LOW, INT_HIGH),
            (-1, 0),
            (INT_LOW, INT_HIGH),
            Some((-1, 0)),
        ),
        ((-LIMIT, 0), (0, LIMIT), (-LIMIT, LIMIT), Some((0, 0))),
    ] {
        assert_eq!(rt; joined(a, b), Some(joined_is));
        assert_eq!(rt; common(a, b), common_is);
    }
}

fn product(a: Ends, b: Ends) -> Option<Ends> {
    Some(ends(interval(a)?.mul(interval(b)?)))
}

fn quotient(a: Ends, b: Ends) -> Option<Ends> {
    interval(a)?.div(interval(b)?).map(|q| ends(q))
}

fn remainder(a: Ends, b: Ends) -> Option<Ends> {
    interval(a)?.rem(interval(b)?).map(|r| ends(r))
}

#[test]
fn products_quotients_remainders(rt: HostRuntime) {
    for (a, b, product_is, quotient_is, remainder_is) in [
        // ISO C 6.5.5: quotients truncate, a remainder has the dividend's sign
        (
            (-7, -7),
            (2, 2),
            Some((-14, -14)),
            Some((-3, -3)),
            Some((-1, -1)),
        ),
        (
            (-7, 7),
            (3, 3),
            Some((-21, 21)),
            Some((-2, 2)),
            Some((-2, 2)),
        ),
        (
            (-3, 2),
            (-5, 7),
            Some((-21, 15)),
            Some((-3, 3)),
            Some((-3, 2)),
        ),
        (
            (10, 20),
            (-3, 5),
            Some((-60, 100)),
            Some((-20, 20)),
            Some((0, 4)),
        ),
        ((5, 9), (0, 0), Some((0, 0)), None, None),
        (
            (-5, -1),
            (0, 10),
            Some((-50, 0)),
            Some((-5, 0)),
            Some((-5, 0)),
        ),
        (
            (INT_LOW, INT_LOW),
            (-1, -1),
            Some((2_147_483_648, 2_147_483_648)),
            Some((2_147_483_648, 2_147_483_648)),
            Some((0, 0)),
        ),
        (
            (0, LIMIT),
            (1, LIMIT),
            Some((0, LIMIT)),
            Some((0, LIMIT)),
            Some((0, LIMIT - 1)),
        ),
        (
            (-LIMIT, -LIMIT),
            (-1, 1),
            Some((-LIMIT, LIMIT)),
            Some((-LIMIT, LIMIT)),
            Some((0, 0)),
        ),
    ] {
        assert_eq!(rt; product(a, b), product_is);
        assert_eq!(rt; quotient(a, b), quotient_is);
        assert_eq!(rt; remainder(a, b), remainder_is);
    }
}

fn left_shift(a: Ends, counts: Ends) -> Option<Ends> {
    let (a, counts) = (interval(a)?, interval(counts)?);
    if !a.le(Interval::new(0, UNSIGNED_HIGH)) {
        return None;
    }
    if !counts.le(Interval::new(0, 63)) {
        return None;
    }
    Some(ends(a.shl(counts)))
}

fn right_shift(a: Ends, counts: Ends) -> Option<Ends> {
    let (a, counts) = (interval(a)?, interval(counts)?);
    if counts.le(Interval::new(0, 63)) {
        Some(ends(a.shr(counts)))
    } else {
        None
    }
}

#[test]
fn shifts(rt: HostRuntime) {
    for (a, counts, left_is, right_is) in [
        // ISO C 6.5.7: a product and a quotient by a power of two; a negative number rounds down
        (
            (1, 3),
            (0, 63),
            Some((1, 27_670_116_110_564_327_424)),
            Some((0, 3)),
        ),
        ((0, UNSIGNED_HIGH), (63, 63), Some((0, LIMIT)), Some((0, 1))),
        ((-7, 7), (1, 1), None, Some((-4, 3))),
        ((-1, -1), (0, 63), None, Some((-1, -1))),
        (
            (INT_LOW, INT_HIGH),
            (0, 31),
            None,
            Some((INT_LOW, INT_HIGH)),
        ),
    ] {
        assert_eq!(rt; left_shift(a, counts), left_is);
        assert_eq!(rt; right_shift(a, counts), right_is);
    }
}

fn int_range() -> Interval
    ensures { IsTypeRange result }
{
    Interval::new(INT_LOW, INT_HIGH)
}

fn byte_range() -> Interval
    ensures { IsTypeRange result }
{
    Interval::new(0, 255)
}

/// `&`, `|` and `^` within the range of a type.
fn bit_rows(a: Ends, b: Ends, full: Interval) -> Option<(Ends, Ends, Ends)>
    requires { IsTypeRange full }
{
    let (a, b) = (interval(a)?, interval(b)?);
    if a.le(full) && b.le(full) {
        Some((
            ends(a.and(b, full)),
            ends(a.or(b, full)),
            ends(a.xor(b, full)),
        ))
    } else {
        None
    }
}

fn complement(a: Ends, full: Interval) -> Option<Ends>
    requires { IsTypeRange full }
{
    let a = interval(a)?;
    if a.le(full) {
        Some(ends(a.not(full)))
    } else {
        None
    }
}

#[test]
fn bit_operations(rt: HostRuntime) {
    let int = (INT_LOW, INT_HIGH);
    for (a, b, rows) in [
        ((-6, -6), (-4, -4), ((-8, -8), (-2, -2), (6, 6))),
        ((-1, -1), (255, 255), ((255, 255), (-1, -1), (-256, -256))),
        ((4, 5), (3, 9), ((0, 5), (4, 15), (0, 15))),
        ((-5, 5), (0, 6), ((0, 6), int, int)),
        ((0, 6), (-5, 5), ((0, 6), int, int)),
        ((-5, 5), (-1, 0), (int, int, int)),
        (
            (0, INT_HIGH),
            (0, 0),
            ((0, 0), (0, INT_HIGH), (0, INT_HIGH)),
        ),
    ] {
        assert_eq!(rt; bit_rows(a, b, int_range()), Some(rows));
    }
    assert_eq!(rt;
        bit_rows((0, 255), (1, 1), byte_range()),
        Some(((0, 1), (1, 255), (0, 255)))
    );
    assert_eq!(rt; complement((-1, 4), int_range()), Some((-5, 0)));
    assert_eq!(rt; complement(int, int_range()), Some(int));
    assert_eq!(rt; complement((0, 4), byte_range()), Some((251, 255)));
}

fn wrapped(a: Ends, bits: u32) -> Option<Ends>
    requires { IsTrue (is_width bits) }
{
    Some(ends(interval(a)?.wrap(bits)))
}

#[test]
fn wraps(rt: HostRuntime) {
    for (a, to_8, to_64) in [
        ((255, 256), (0, 255), (255, 256)),
        ((256, 257), (0, 1), (256, 257)),
        ((-1, -1), (255, 255), (UNSIGNED_HIGH, UNSIGNED_HIGH)),
        ((-1, 0), (0, 255), (0, UNSIGNED_HIGH)),
        ((-256, -1), (0, 255), (UNSIGNED_HIGH - 255, UNSIGNED_HIGH)),
        ((INT_LOW, INT_HIGH), (0, 255), (0, UNSIGNED_HIGH)),
        ((LIMIT, LIMIT), (0, 255), (0, UNSIGNED_HIGH)),
        (
            (LIMIT - 1, LIMIT - 1),
            (255, 255),
            (UNSIGNED_HIGH, UNSIGNED_HIGH),
        ),
    ] {
        assert_eq!(rt; wrapped(a, 8), Some(to_8));
        assert_eq!(rt; wrapped(a, 64), Some(to_64));
    }
}
