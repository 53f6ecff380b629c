//! Tables of cases: what each operator makes of intervals at the ends of types, and its alarms. The values are those of the
//! rules of intervals, worked by hand.

ghost use Rattle.std.specs.Prelude.{IsTrue, IfSome};
ghost use Rattle.sa_operators.specs.OperatorLaws.{IsSmallSpan, Suits};

use sa_base::{Alarm, Kind, Num, OutOfMemory, Pos};
use sa_interval::Interval;
use sa_operators::*;
use sa_typed::{Operator, Prefix};
use std::alloc::Global;
use std::process::Abort;
use std::test::Fail;

const AT: Pos = Pos { line: 3, col: 7 };

const INT_MIN: i128 = -2_147_483_648;

const INT_MAX: i128 = 2_147_483_647;

const UINT_MAX: i128 = 4_294_967_295;

const LLONG_MIN: i128 = -9_223_372_036_854_775_808;

const LLONG_MAX: i128 = 9_223_372_036_854_775_807;

const ULLONG_MAX: i128 = 18_446_744_073_709_551_615;

type Ends = (i128, i128);

/// The kinds of the first two alarms.
type Kinds = [Option<Kind>; 2];

const QUIET: Kinds = [None, None];

const OVERFLOW: Kinds = [Some(Kind::Overflow), None];

const DIVISION: Kinds = [Some(Kind::Division), None];

const BOTH: Kinds = [Some(Kind::Division), Some(Kind::Overflow)];

const SHIFT: Kinds = [Some(Kind::Shift), None];

const CONVERSION: Kinds = [Some(Kind::Conversion), None];

/// The interval, None where the bounds are in the wrong order or in no type.
fn interval(ends: Ends) -> Option<Interval>
    ensures { IfSome result (λ s. IsSmallSpan s) }
{
    let (lo, hi) = ends;
    if LLONG_MIN <= lo && lo <= hi && hi <= ULLONG_MAX {
        Some(Interval::new(lo, hi))
    } else {
        None
    }
}

/// The interval of an operand of an operator that works in the type.
fn operand(num: Num, ends: Ends) -> Option<Interval>
    ensures { IfSome result (λ s. Suits num s) }
{
    let s = interval(ends)?;
    if as_span(num, s).le(range_of(num)) {
        Some(s)
    } else {
        None
    }
}

fn ends(s: Option<Interval>) -> Option<Ends> {
    let s = s?;
    Some((s.lo(), s.hi()))
}

fn kind(alarm: Option<&Alarm>) -> Option<Kind> {
    match alarm {
        Some(alarm) => Some(alarm.kind),
        None => None,
    }
}

/// The kinds of alarms, of which there are at most two, all at one place.
fn kinds(rt: &impl Abort, alarms: &[Alarm]) -> Kinds {
    assert!(rt; alarms.len() <= 2);
    for alarm in alarms {
        assert_eq!(rt; alarm.pos, AT);
    }
    [kind(alarms.get(0)), kind(alarms.get(1))]
}

/// What an operator makes of two intervals, and its alarms.
fn operated(
    rt: &impl Abort,
    alloc: Global,
    op: Operator,
    num: Num,
    a: Ends,
    b: Ends,
) -> Result<(Option<Ends>, Kinds), Fail> {
    let a = operand(num, a).ok_or("no operand")?;
    let b = operand(num, b).ok_or("no operand")?;
    let mut alarms = Vec::new(alloc);
    note_operator(true, op, AT, num, a, b, &mut alarms)?;
    Ok((
        ends(operator_span(op, num, a, b)),
        kinds(rt, alarms.as_slice()),
    ))
}

/// The same of an operator before its operand.
fn prefixed(
    rt: &impl Abort,
    alloc: Global,
    op: Prefix,
    num: Num,
    a: Ends,
) -> Result<(Option<Ends>, Kinds), Fail> {
    let a = operand(num, a).ok_or("no operand")?;
    let mut alarms = Vec::new(alloc);
    note_prefix(true, op, AT, num, a, &mut alarms)?;
    Ok((ends(prefix_span(op, num, a)), kinds(rt, alarms.as_slice())))
}

/// The same of a conversion. In iteration it adds no alarm.
fn converted(
    rt: &impl Abort,
    alloc: Global,
    num: Num,
    a: Ends,
) -> Result<(Option<Ends>, Kinds), Fail> {
    let a = interval(a).ok_or("no interval")?;
    let mut alarms = Vec::new(alloc);
    note_conversion(false, num, AT, a, &mut alarms)?;
    assert_eq!(rt; alarms.len(), 0);
    note_conversion(true, num, AT, a, &mut alarms)?;
    Ok((ends(converted_span(num, a)), kinds(rt, alarms.as_slice())))
}

#[test]
fn sums_and_products(rt: HostRuntime) -> Result<(), Fail> {
    for (op, num, a, b, want, noted) in [
        (
            Operator::Plus,
            Num::I32,
            (INT_MIN, INT_MAX),
            (INT_MIN, INT_MAX),
            Some((INT_MIN, INT_MAX)),
            OVERFLOW,
        ),
        (
            Operator::Plus,
            Num::I32,
            (0, INT_MAX - 1),
            (0, 1),
            Some((0, INT_MAX)),
            QUIET,
        ),
        (
            Operator::Plus,
            Num::I32,
            (INT_MAX, INT_MAX),
            (1, 1),
            None,
            OVERFLOW,
        ),
        (
            Operator::Plus,
            Num::I32,
            (INT_MIN, -1),
            (-1, -1),
            Some((INT_MIN, -2)),
            OVERFLOW,
        ),
        (
            Operator::Plus,
            Num::U32,
            (0, UINT_MAX),
            (1, 1),
            Some((0, UINT_MAX)),
            QUIET,
        ),
        (
            Operator::Plus,
            Num::U32,
            (UINT_MAX, UINT_MAX),
            (1, 1),
            Some((0, 0)),
            QUIET,
        ),
        (
            Operator::Plus,
            Num::U32,
            (-1, -1),
            (0, 0),
            Some((UINT_MAX, UINT_MAX)),
            QUIET,
        ),
        (
            Operator::Plus,
            Num::I64,
            (0, LLONG_MAX),
            (0, 1),
            Some((0, LLONG_MAX)),
            OVERFLOW,
        ),
        (
            Operator::Plus,
            Num::U64,
            (ULLONG_MAX, ULLONG_MAX),
            (ULLONG_MAX, ULLONG_MAX),
            Some((ULLONG_MAX - 1, ULLONG_MAX - 1)),
            QUIET,
        ),
        (
            Operator::Minus,
            Num::I32,
            (0, 0),
            (INT_MIN, INT_MIN),
            None,
            OVERFLOW,
        ),
        (
            Operator::Minus,
            Num::I32,
            (-1, 0),
            (INT_MIN, 0),
            Some((-1, INT_MAX)),
            OVERFLOW,
        ),
        (
            Operator::Minus,
            Num::I32,
            (-1, -1),
            (INT_MIN, INT_MAX),
            Some((INT_MIN, INT_MAX)),
            QUIET,
        ),
        (
            Operator::Minus,
            Num::U32,
            (0, 0),
            (1, 1),
            Some((UINT_MAX, UINT_MAX)),
            QUIET,
        ),
        (
            Operator::Minus,
            Num::U32,
            (0, 1),
            (1, 1),
            Some((0, UINT_MAX)),
            QUIET,
        ),
        (
            Operator::Times,
            Num::I32,
            (INT_MIN, INT_MIN),
            (-1, -1),
            None,
            OVERFLOW,
        ),
        (
            Operator::Times,
            Num::I32,
            (INT_MIN, INT_MAX),
            (-1, 1),
            Some((INT_MIN, INT_MAX)),
            OVERFLOW,
        ),
        (
            Operator::Times,
            Num::I32,
            (-3, 2),
            (-5, 7),
            Some((-21, 15)),
            QUIET,
        ),
        (
            Operator::Times,
            Num::U32,
            (0, 0x1_0000),
            (0x1_0000, 0x1_0000),
            Some((0, UINT_MAX)),
            QUIET,
        ),
        (
            Operator::Times,
            Num::U64,
            (ULLONG_MAX, ULLONG_MAX),
            (ULLONG_MAX, ULLONG_MAX),
            Some((0, ULLONG_MAX)),
            QUIET,
        ),
    ] {
        let (span, alarms) = operated(&rt, rt.alloc(), op, num, a, b)?;
        assert_eq!(rt; span, want, "{op:?} in {num:?}");
        assert_eq!(rt; alarms, noted, "{op:?} in {num:?}");
    }
    Ok(())
}

#[test]
fn quotients_and_remainders(rt: HostRuntime) -> Result<(), Fail> {
    for (op, num, a, b, want, noted) in [
        (
            Operator::Divide,
            Num::I32,
            (INT_MIN, INT_MIN),
            (-1, -1),
            None,
            OVERFLOW,
        ),
        (
            Operator::Divide,
            Num::I32,
            (INT_MIN, INT_MAX),
            (-1, 1),
            Some((INT_MIN, INT_MAX)),
            BOTH,
        ),
        (
            Operator::Divide,
            Num::I32,
            (7, 9),
            (-1, 2),
            Some((-9, 9)),
            DIVISION,
        ),
        (Operator::Divide, Num::I32, (5, 9), (0, 0), None, DIVISION),
        (
            Operator::Divide,
            Num::I32,
            (-7, 7),
            (3, 3),
            Some((-2, 2)),
            QUIET,
        ),
        (
            Operator::Divide,
            Num::U32,
            (-1, -1),
            (2, 2),
            Some((INT_MAX, INT_MAX)),
            QUIET,
        ),
        (
            Operator::Remainder,
            Num::I32,
            (-7, 7),
            (3, 3),
            Some((-2, 2)),
            QUIET,
        ),
        (
            Operator::Remainder,
            Num::I32,
            (10, 20),
            (-3, 5),
            Some((0, 4)),
            DIVISION,
        ),
        (
            Operator::Remainder,
            Num::I32,
            (7, 7),
            (-2, -2),
            Some((1, 1)),
            QUIET,
        ),
        (
            Operator::Remainder,
            Num::I32,
            (INT_MIN, INT_MIN),
            (-1, -1),
            Some((0, 0)),
            OVERFLOW,
        ),
        (
            Operator::Remainder,
            Num::I32,
            (INT_MIN, 0),
            (-1, 0),
            Some((0, 0)),
            BOTH,
        ),
        (
            Operator::Remainder,
            Num::I32,
            (5, 9),
            (0, 0),
            None,
            DIVISION,
        ),
        (
            Operator::Remainder,
            Num::U32,
            (0, UINT_MAX),
            (10, 10),
            Some((0, 9)),
            QUIET,
        ),
    ] {
        let (span, alarms) = operated(&rt, rt.alloc(), op, num, a, b)?;
        assert_eq!(rt; span, want, "{op:?} in {num:?}");
        assert_eq!(rt; alarms, noted, "{op:?} in {num:?}");
    }
    Ok(())
}

#[test]
fn shifts(rt: HostRuntime) -> Result<(), Fail> {
    for (op, num, a, b, want, noted) in [
        (
            Operator::ShiftLeft,
            Num::I32,
            (1, 1),
            (0, 30),
            Some((1, 0x4000_0000)),
            QUIET,
        ),
        (
            Operator::ShiftLeft,
            Num::I32,
            (1, 1),
            (0, 31),
            Some((1, INT_MAX)),
            SHIFT,
        ),
        (
            Operator::ShiftLeft,
            Num::I32,
            (-1, 1),
            (0, 0),
            Some((0, 1)),
            SHIFT,
        ),
        (Operator::ShiftLeft, Num::I32, (-5, -1), (0, 0), None, SHIFT),
        (Operator::ShiftLeft, Num::I32, (1, 1), (32, 40), None, SHIFT),
        (
            Operator::ShiftLeft,
            Num::I32,
            (1, 1),
            (-1, 2),
            Some((1, 4)),
            SHIFT,
        ),
        (
            Operator::ShiftLeft,
            Num::U32,
            (1, 1),
            (31, 31),
            Some((INT_MAX + 1, INT_MAX + 1)),
            QUIET,
        ),
        (
            Operator::ShiftLeft,
            Num::U32,
            (3, 3),
            (31, 31),
            Some((INT_MAX + 1, INT_MAX + 1)),
            QUIET,
        ),
        (Operator::ShiftLeft, Num::U32, (1, 1), (32, 32), None, SHIFT),
        (
            Operator::ShiftLeft,
            Num::U64,
            (1, 1),
            (0, 63),
            Some((1, LLONG_MAX + 1)),
            QUIET,
        ),
        (
            Operator::ShiftRight,
            Num::I32,
            (INT_MIN, INT_MAX),
            (0, 31),
            Some((INT_MIN, INT_MAX)),
            QUIET,
        ),
        (
            Operator::ShiftRight,
            Num::I32,
            (-5, -5),
            (1, 1),
            Some((-3, -3)),
            QUIET,
        ),
        (
            Operator::ShiftRight,
            Num::I32,
            (-8, 8),
            (1, 2),
            Some((-4, 4)),
            QUIET,
        ),
        (
            Operator::ShiftRight,
            Num::I32,
            (8, 8),
            (-1, 1),
            Some((4, 8)),
            SHIFT,
        ),
        (
            Operator::ShiftRight,
            Num::I32,
            (1, 1),
            (32, 32),
            None,
            SHIFT,
        ),
        (
            Operator::ShiftRight,
            Num::U32,
            (-1, -1),
            (31, 31),
            Some((1, 1)),
            QUIET,
        ),
    ] {
        let (span, alarms) = operated(&rt, rt.alloc(), op, num, a, b)?;
        assert_eq!(rt; span, want, "{op:?} in {num:?}");
        assert_eq!(rt; alarms, noted, "{op:?} in {num:?}");
    }
    Ok(())
}

#[test]
fn bitwise_and_comparisons(rt: HostRuntime) -> Result<(), Fail> {
    for (op, num, a, b, want, noted) in [
        (
            Operator::BitAnd,
            Num::I32,
            (5, 5),
            (-4, -4),
            Some((4, 4)),
            QUIET,
        ),
        (
            Operator::BitAnd,
            Num::I32,
            (0, 10),
            (0, 6),
            Some((0, 6)),
            QUIET,
        ),
        (
            Operator::BitAnd,
            Num::I32,
            (-3, 10),
            (0, 6),
            Some((0, 6)),
            QUIET,
        ),
        (
            Operator::BitAnd,
            Num::I32,
            (-3, 10),
            (-1, 6),
            Some((INT_MIN, INT_MAX)),
            QUIET,
        ),
        (
            Operator::BitOr,
            Num::I32,
            (5, 5),
            (8, 8),
            Some((13, 13)),
            QUIET,
        ),
        (
            Operator::BitOr,
            Num::I32,
            (1, 5),
            (2, 8),
            Some((2, 15)),
            QUIET,
        ),
        (
            Operator::BitOr,
            Num::I32,
            (-1, 5),
            (0, 1),
            Some((INT_MIN, INT_MAX)),
            QUIET,
        ),
        (
            Operator::BitOr,
            Num::U32,
            (0, UINT_MAX),
            (0, 1),
            Some((0, UINT_MAX)),
            QUIET,
        ),
        (
            Operator::BitXor,
            Num::I32,
            (1, 5),
            (2, 8),
            Some((0, 15)),
            QUIET,
        ),
        (
            Operator::BitXor,
            Num::I32,
            (-1, -1),
            (5, 5),
            Some((-6, -6)),
            QUIET,
        ),
        (
            Operator::Less,
            Num::I32,
            (INT_MIN, -1),
            (0, INT_MAX),
            Some((1, 1)),
            QUIET,
        ),
        (
            Operator::Less,
            Num::I32,
            (0, 5),
            (5, 9),
            Some((0, 1)),
            QUIET,
        ),
        (
            Operator::Less,
            Num::I32,
            (5, 9),
            (0, 5),
            Some((0, 0)),
            QUIET,
        ),
        (
            Operator::Less,
            Num::U32,
            (-1, -1),
            (0, 0),
            Some((0, 0)),
            QUIET,
        ),
        (
            Operator::LessEqual,
            Num::I32,
            (0, 5),
            (5, 9),
            Some((1, 1)),
            QUIET,
        ),
        (
            Operator::LessEqual,
            Num::I32,
            (5, 9),
            (0, 5),
            Some((0, 1)),
            QUIET,
        ),
        (
            Operator::Greater,
            Num::I32,
            (0, INT_MAX),
            (INT_MIN, -1),
            Some((1, 1)),
            QUIET,
        ),
        (
            Operator::Greater,
            Num::U32,
            (-1, -1),
            (0, 0),
            Some((1, 1)),
            QUIET,
        ),
        (
            Operator::GreaterEqual,
            Num::I32,
            (5, 9),
            (0, 5),
            Some((1, 1)),
            QUIET,
        ),
        (
            Operator::GreaterEqual,
            Num::I32,
            (INT_MIN, INT_MIN),
            (INT_MAX, INT_MAX),
            Some((0, 0)),
            QUIET,
        ),
        (
            Operator::Equal,
            Num::I32,
            (3, 3),
            (3, 3),
            Some((1, 1)),
            QUIET,
        ),
        (
            Operator::Equal,
            Num::I32,
            (0, 1),
            (2, 3),
            Some((0, 0)),
            QUIET,
        ),
        (
            Operator::Equal,
            Num::I32,
            (0, 2),
            (2, 3),
            Some((0, 1)),
            QUIET,
        ),
        (
            Operator::Equal,
            Num::U32,
            (-1, -1),
            (UINT_MAX, UINT_MAX),
            Some((1, 1)),
            QUIET,
        ),
        (
            Operator::NotEqual,
            Num::I32,
            (0, 1),
            (2, 3),
            Some((1, 1)),
            QUIET,
        ),
        (
            Operator::NotEqual,
            Num::I64,
            (LLONG_MIN, LLONG_MIN),
            (LLONG_MIN, LLONG_MIN),
            Some((0, 0)),
            QUIET,
        ),
    ] {
        let (span, alarms) = operated(&rt, rt.alloc(), op, num, a, b)?;
        assert_eq!(rt; span, want, "{op:?} in {num:?}");
        assert_eq!(rt; alarms, noted, "{op:?} in {num:?}");
    }
    Ok(())
}

#[test]
fn operators_before_operands(rt: HostRuntime) -> Result<(), Fail> {
    for (op, num, a, want, noted) in [
        (
            Prefix::Minus,
            Num::I32,
            (INT_MIN, INT_MAX),
            Some((-INT_MAX, INT_MAX)),
            OVERFLOW,
        ),
        (Prefix::Minus, Num::I32, (INT_MIN, INT_MIN), None, OVERFLOW),
        (Prefix::Minus, Num::I32, (-3, 5), Some((-5, 3)), QUIET),
        (
            Prefix::Minus,
            Num::U32,
            (1, 1),
            Some((UINT_MAX, UINT_MAX)),
            QUIET,
        ),
        (Prefix::Minus, Num::U32, (0, 1), Some((0, UINT_MAX)), QUIET),
        (
            Prefix::Plus,
            Num::U32,
            (-1, -1),
            Some((UINT_MAX, UINT_MAX)),
            QUIET,
        ),
        (
            Prefix::Plus,
            Num::I32,
            (INT_MIN, INT_MAX),
            Some((INT_MIN, INT_MAX)),
            QUIET,
        ),
        (
            Prefix::Complement,
            Num::I32,
            (INT_MIN, 0),
            Some((-1, INT_MAX)),
            QUIET,
        ),
        (
            Prefix::Complement,
            Num::U32,
            (0, 1),
            Some((UINT_MAX - 1, UINT_MAX)),
            QUIET,
        ),
        (Prefix::Not, Num::I32, (0, 0), Some((1, 1)), QUIET),
        (Prefix::Not, Num::I32, (1, 5), Some((0, 0)), QUIET),
        (Prefix::Not, Num::I32, (-1, 1), Some((0, 1)), QUIET),
    ] {
        let (span, alarms) = prefixed(&rt, rt.alloc(), op, num, a)?;
        assert_eq!(rt; span, want, "{op:?} in {num:?}");
        assert_eq!(rt; alarms, noted, "{op:?} in {num:?}");
    }
    Ok(())
}

#[test]
fn conversions(rt: HostRuntime) -> Result<(), Fail> {
    for (num, a, want, noted) in [
        (Num::I8, (-128, 127), Some((-128, 127)), QUIET),
        (Num::I8, (-129, 127), Some((-128, 127)), CONVERSION),
        (Num::I8, (128, 200), None, CONVERSION),
        (Num::U8, (0, 255), Some((0, 255)), QUIET),
        (Num::U8, (255, 256), Some((0, 255)), QUIET),
        (Num::U8, (256, 300), Some((0, 44)), QUIET),
        (Num::U8, (-1, -1), Some((255, 255)), QUIET),
        (Num::I16, (-32768, 32768), Some((-32768, 32767)), CONVERSION),
        (Num::U16, (65536, 65537), Some((0, 1)), QUIET),
        (
            Num::I32,
            (INT_MIN, INT_MAX),
            Some((INT_MIN, INT_MAX)),
            QUIET,
        ),
        (Num::I32, (INT_MAX + 1, INT_MAX + 1), None, CONVERSION),
        (Num::U32, (INT_MIN, INT_MAX), Some((0, UINT_MAX)), QUIET),
        (Num::I64, (0, ULLONG_MAX), Some((0, LLONG_MAX)), CONVERSION),
        (
            Num::U64,
            (LLONG_MIN, LLONG_MIN),
            Some((LLONG_MAX + 1, LLONG_MAX + 1)),
            QUIET,
        ),
        (Num::U64, (-1, 0), Some((0, ULLONG_MAX)), QUIET),
    ] {
        let (span, alarms) = converted(&rt, rt.alloc(), num, a)?;
        assert_eq!(rt; span, want, "to {num:?}");
        assert_eq!(rt; alarms, noted, "to {num:?}");
    }
    Ok(())
}
