//! Tables of cases. Their values are those of ISO C for these widths, worked by hand.

ghost use Rattle.std.specs.Prelude.{◌≡◌, [], ◌∷◌, IsTrue, IfOk, length};
ghost use Rattle.sa_typed.specs.Ranges.{AreSpans};
ghost use Rattle.sa_base.specs.declared.num.Num.TheVariants.{I32};
ghost use Rattle.sa_typed.specs.Arithmetic.{IsOperand};
ghost use Rattle.sa_typed.specs.declared.expr.Expr.TheVariants as expr;

use sa_base::{Kind, Num, OutOfMemory, Pos, Text};
use sa_typed::*;
use sqlite_items::{Boxed, Items};
use std::alloc::Global;
use std::test::Fail;

const AT: Pos = Pos { line: 1, col: 1 };

const TYPES: [Num; 8] = [
    Num::I8,
    Num::U8,
    Num::I16,
    Num::U16,
    Num::I32,
    Num::U32,
    Num::I64,
    Num::U64,
];

const INT_MIN: i128 = -2_147_483_648;

const INT_MAX: i128 = 2_147_483_647;

const UINT_MAX: i128 = 4_294_967_295;

const LLONG_MIN: i128 = -9_223_372_036_854_775_808;

const LLONG_MAX: i128 = 9_223_372_036_854_775_807;

const ULLONG_MAX: i128 = 18_446_744_073_709_551_615;

/// Whether an operator that works in the type may have this operand.
#[tactic(auto, using(sa_typed::proofs::OperandLaws::operands))]
fn is_operand(num: Num, z: i128) -> bool
    ensures { IsTrue result → IsOperand num z }
{
    LLONG_MIN <= z && z <= ULLONG_MAX && is_of(num, as_num(num, z))
}

/// The result of an operator, None where it may not have these operands.
#[tactic(auto, using(sa_typed::proofs::OperandLaws::operands))]
fn operated(op: Operator, num: Num, x: i128, y: i128) -> Option<Result<i128, Kind>> {
    if is_operand(num, x) && is_operand(num, y) {
        Some(op.operate(num, x, y))
    } else {
        None
    }
}

/// The same of an operator before its operand.
fn prefixed(op: Prefix, num: Num, x: i128) -> Option<Result<i128, Kind>> {
    if is_operand(num, x) {
        Some(op.operate(num, x))
    } else {
        None
    }
}

#[test]
fn types(rt: HostRuntime) {
    for (num, width, signed, promotes) in [
        (Num::I8, 8, true, Num::I32),
        (Num::U8, 8, false, Num::I32),
        (Num::I16, 16, true, Num::I32),
        (Num::U16, 16, false, Num::I32),
        (Num::I32, 32, true, Num::I32),
        (Num::U32, 32, false, Num::U32),
        (Num::I64, 64, true, Num::I64),
        (Num::U64, 64, false, Num::U64),
    ] {
        assert_eq!(rt; bits(num), width);
        assert_eq!(rt; is_signed(num), signed);
        assert_eq!(rt; promoted(num), promotes);
        assert_eq!(rt; common(num, num), promotes);
    }
    for (a, b, both) in [
        (Num::I8, Num::U16, Num::I32),
        (Num::U8, Num::U16, Num::I32),
        (Num::U16, Num::I32, Num::I32),
        (Num::I8, Num::U32, Num::U32),
        (Num::I32, Num::U32, Num::U32),
        (Num::U32, Num::I64, Num::I64),
        (Num::I16, Num::I64, Num::I64),
        (Num::U32, Num::U64, Num::U64),
        (Num::I64, Num::U64, Num::U64),
    ] {
        assert_eq!(rt; common(a, b), both);
        assert_eq!(rt; common(b, a), both);
    }
}

#[test]
fn literals(rt: HostRuntime) {
    // the value, whether it has a `u`, how many `l`, and the types as a decimal and as another literal
    for (value, unsigned, longs, decimal, other) in [
        (0, false, 0, Num::I32, Num::I32),
        (0x7fff_ffff, false, 0, Num::I32, Num::I32),
        (0x8000_0000, false, 0, Num::I64, Num::U32),
        (0xffff_ffff, false, 0, Num::I64, Num::U32),
        (0x1_0000_0000, false, 0, Num::I64, Num::I64),
        (0x7fff_ffff_ffff_ffff, false, 0, Num::I64, Num::I64),
        (0x7fff_ffff, false, 1, Num::I32, Num::I32),
        (0x8000_0000, false, 1, Num::I64, Num::U32),
        (1, false, 2, Num::I64, Num::I64),
        (0x7fff_ffff_ffff_ffff, false, 2, Num::I64, Num::I64),
        (0, true, 0, Num::U32, Num::U32),
        (0xffff_ffff, true, 0, Num::U32, Num::U32),
        (0x1_0000_0000, true, 0, Num::U64, Num::U64),
        (0xffff_ffff, true, 1, Num::U32, Num::U32),
        (0x1_0000_0000, true, 1, Num::U64, Num::U64),
        (1, true, 2, Num::U64, Num::U64),
        (0xffff_ffff_ffff_ffff, true, 0, Num::U64, Num::U64),
    ] {
        assert_eq!(rt;
            literal_type(value, unsigned, longs, true),
            decimal,
            "{value}"
        );
        assert_eq!(rt;
            literal_type(value, unsigned, longs, false),
            other,
            "{value}"
        );
    }
    for longs in [0, 1, 2] {
        assert_eq!(rt;
            literal_type(0x8000_0000_0000_0000, false, longs, false),
            Num::U64
        );
        assert_eq!(rt;
            literal_type(0xffff_ffff_ffff_ffff, false, longs, false),
            Num::U64
        );
    }
}

#[test]
fn conversions(rt: HostRuntime) {
    for num in TYPES {
        assert_eq!(rt; converted(num, num.lo()), Ok(num.lo()));
        assert_eq!(rt; converted(num, num.hi()), Ok(num.hi()));
        assert!(rt; is_of(num, num.lo()) && is_of(num, num.hi()));
    }
    for (num, z, want) in [
        (Num::I8, -129, Err(Kind::Conversion)),
        (Num::I8, 128, Err(Kind::Conversion)),
        (Num::U8, -1, Ok(255)),
        (Num::U8, 256, Ok(0)),
        (Num::U8, INT_MIN, Ok(0)),
        (Num::I16, -32769, Err(Kind::Conversion)),
        (Num::I16, 32768, Err(Kind::Conversion)),
        (Num::U16, -1, Ok(65535)),
        (Num::U16, 65536, Ok(0)),
        (Num::U16, 70000, Ok(4464)),
        (Num::I32, INT_MIN - 1, Err(Kind::Conversion)),
        (Num::I32, INT_MAX + 1, Err(Kind::Conversion)),
        (Num::U32, -1, Ok(UINT_MAX)),
        (Num::U32, UINT_MAX + 1, Ok(0)),
        (Num::U32, INT_MIN, Ok(INT_MAX + 1)),
        (Num::I64, LLONG_MIN - 1, Err(Kind::Conversion)),
        (Num::I64, LLONG_MAX + 1, Err(Kind::Conversion)),
        (Num::U64, -1, Ok(ULLONG_MAX)),
        (Num::U64, ULLONG_MAX + 1, Ok(0)),
        (Num::U64, LLONG_MIN, Ok(LLONG_MAX + 1)),
    ] {
        assert_eq!(rt; converted(num, z), want, "{z} to {num:?}");
        assert_eq!(rt; is_of(num, z), false, "{z} of {num:?}");
    }
}

#[test]
fn sums_and_products(rt: HostRuntime) {
    for (op, num, x, y, want) in [
        (Operator::Plus, Num::I32, INT_MAX, 0, Ok(INT_MAX)),
        (Operator::Plus, Num::I32, INT_MAX, 1, Err(Kind::Overflow)),
        (Operator::Plus, Num::I32, INT_MIN, -1, Err(Kind::Overflow)),
        (Operator::Plus, Num::I32, INT_MIN, INT_MAX, Ok(-1)),
        (Operator::Plus, Num::U32, UINT_MAX, 1, Ok(0)),
        (Operator::Plus, Num::U32, -1, 2, Ok(1)),
        (Operator::Plus, Num::I64, LLONG_MAX, 1, Err(Kind::Overflow)),
        (
            Operator::Plus,
            Num::U64,
            ULLONG_MAX,
            ULLONG_MAX,
            Ok(ULLONG_MAX - 1),
        ),
        (Operator::Minus, Num::I32, INT_MIN, 0, Ok(INT_MIN)),
        (Operator::Minus, Num::I32, INT_MIN, 1, Err(Kind::Overflow)),
        (Operator::Minus, Num::I32, 0, INT_MIN, Err(Kind::Overflow)),
        (Operator::Minus, Num::I32, -1, INT_MIN, Ok(INT_MAX)),
        (Operator::Minus, Num::U32, 0, 1, Ok(UINT_MAX)),
        (Operator::Minus, Num::I64, 0, LLONG_MIN, Err(Kind::Overflow)),
        (Operator::Minus, Num::U64, 0, 1, Ok(ULLONG_MAX)),
        (
            Operator::Times,
            Num::I32,
            0x1_0000,
            0x8000,
            Err(Kind::Overflow),
        ),
        (Operator::Times, Num::I32, 0x1_0000, -0x8000, Ok(INT_MIN)),
        (Operator::Times, Num::I32, INT_MIN, -1, Err(Kind::Overflow)),
        (Operator::Times, Num::U32, 0x1_0000, 0x1_0000, Ok(0)),
        (Operator::Times, Num::U32, UINT_MAX, UINT_MAX, Ok(1)),
        (
            Operator::Times,
            Num::I64,
            0x1_0000_0000,
            0x8000_0000,
            Err(Kind::Overflow),
        ),
        (
            Operator::Times,
            Num::I64,
            0x1_0000_0000,
            -0x8000_0000,
            Ok(LLONG_MIN),
        ),
        (Operator::Times, Num::U64, ULLONG_MAX, ULLONG_MAX, Ok(1)),
    ] {
        assert_eq!(rt;
            operated(op, num, x, y),
            Some(want),
            "{x} {op:?} {y} in {num:?}"
        );
    }
}

#[test]
fn quotients_and_remainders(rt: HostRuntime) {
    for (op, num, x, y, want) in [
        (Operator::Divide, Num::I32, 7, -2, Ok(-3)),
        (Operator::Divide, Num::I32, -7, 2, Ok(-3)),
        (Operator::Divide, Num::I32, INT_MIN, 1, Ok(INT_MIN)),
        (Operator::Divide, Num::I32, INT_MIN, -1, Err(Kind::Overflow)),
        (Operator::Divide, Num::I32, 0, 0, Err(Kind::Division)),
        (Operator::Divide, Num::U32, UINT_MAX, 2, Ok(INT_MAX)),
        (Operator::Divide, Num::U32, -1, 2, Ok(INT_MAX)),
        (Operator::Divide, Num::U32, 5, 0, Err(Kind::Division)),
        (
            Operator::Divide,
            Num::I64,
            LLONG_MIN,
            -1,
            Err(Kind::Overflow),
        ),
        (Operator::Divide, Num::U64, ULLONG_MAX, ULLONG_MAX, Ok(1)),
        (Operator::Remainder, Num::I32, 7, -2, Ok(1)),
        (Operator::Remainder, Num::I32, -7, 2, Ok(-1)),
        (Operator::Remainder, Num::I32, INT_MIN, 2, Ok(0)),
        (Operator::Remainder, Num::I32, INT_MIN, INT_MAX, Ok(-1)),
        (
            Operator::Remainder,
            Num::I32,
            INT_MIN,
            -1,
            Err(Kind::Overflow),
        ),
        (Operator::Remainder, Num::I32, INT_MIN + 1, -1, Ok(0)),
        (Operator::Remainder, Num::I32, 1, 0, Err(Kind::Division)),
        (Operator::Remainder, Num::U32, UINT_MAX, 10, Ok(5)),
        (Operator::Remainder, Num::U32, -7, 2, Ok(1)),
        (
            Operator::Remainder,
            Num::I64,
            LLONG_MIN,
            -1,
            Err(Kind::Overflow),
        ),
        (Operator::Remainder, Num::U64, ULLONG_MAX, 10, Ok(5)),
    ] {
        assert_eq!(rt;
            operated(op, num, x, y),
            Some(want),
            "{x} {op:?} {y} in {num:?}"
        );
    }
}

#[test]
fn shifts(rt: HostRuntime) {
    for (op, num, x, y, want) in [
        (Operator::ShiftLeft, Num::I32, 1, 30, Ok(0x4000_0000)),
        (Operator::ShiftLeft, Num::I32, 1, 31, Err(Kind::Shift)),
        (Operator::ShiftLeft, Num::I32, 0, 31, Ok(0)),
        (Operator::ShiftLeft, Num::I32, 1, 32, Err(Kind::Shift)),
        (Operator::ShiftLeft, Num::I32, 1, -1, Err(Kind::Shift)),
        (Operator::ShiftLeft, Num::I32, -1, 0, Err(Kind::Shift)),
        (Operator::ShiftLeft, Num::I32, INT_MAX, 0, Ok(INT_MAX)),
        (Operator::ShiftLeft, Num::I32, INT_MAX, 1, Err(Kind::Shift)),
        (Operator::ShiftLeft, Num::U32, 1, 31, Ok(INT_MAX + 1)),
        (Operator::ShiftLeft, Num::U32, 3, 31, Ok(INT_MAX + 1)),
        (Operator::ShiftLeft, Num::U32, UINT_MAX, 1, Ok(UINT_MAX - 1)),
        (Operator::ShiftLeft, Num::U32, 1, 32, Err(Kind::Shift)),
        (Operator::ShiftLeft, Num::U32, 1, -1, Err(Kind::Shift)),
        (
            Operator::ShiftLeft,
            Num::I64,
            1,
            62,
            Ok(0x4000_0000_0000_0000),
        ),
        (Operator::ShiftLeft, Num::I64, 1, 63, Err(Kind::Shift)),
        (Operator::ShiftLeft, Num::U64, 1, 63, Ok(LLONG_MAX + 1)),
        (Operator::ShiftLeft, Num::U64, 1, 64, Err(Kind::Shift)),
        (Operator::ShiftRight, Num::I32, -1, 31, Ok(-1)),
        (Operator::ShiftRight, Num::I32, -5, 1, Ok(-3)),
        (Operator::ShiftRight, Num::I32, INT_MIN, 31, Ok(-1)),
        (
            Operator::ShiftRight,
            Num::I32,
            INT_MIN,
            32,
            Err(Kind::Shift),
        ),
        (Operator::ShiftRight, Num::I32, INT_MAX, 30, Ok(1)),
        (Operator::ShiftRight, Num::I32, 1, -1, Err(Kind::Shift)),
        (Operator::ShiftRight, Num::U32, UINT_MAX, 31, Ok(1)),
        (Operator::ShiftRight, Num::U32, -1, 31, Ok(1)),
        (Operator::ShiftRight, Num::U32, 1, -1, Err(Kind::Shift)),
        (Operator::ShiftRight, Num::I64, LLONG_MIN, 63, Ok(-1)),
        (Operator::ShiftRight, Num::U64, ULLONG_MAX, 63, Ok(1)),
        (Operator::ShiftRight, Num::U64, 1, 64, Err(Kind::Shift)),
    ] {
        assert_eq!(rt;
            operated(op, num, x, y),
            Some(want),
            "{x} {op:?} {y} in {num:?}"
        );
    }
}

#[test]
fn bitwise_and_comparisons(rt: HostRuntime) {
    for (op, num, x, y, want) in [
        (Operator::BitAnd, Num::I32, 5, -4, Ok(4)),
        (Operator::BitAnd, Num::I32, -1, INT_MAX, Ok(INT_MAX)),
        (Operator::BitAnd, Num::I32, INT_MIN, -1, Ok(INT_MIN)),
        (Operator::BitAnd, Num::U32, -1, UINT_MAX, Ok(UINT_MAX)),
        (
            Operator::BitAnd,
            Num::U64,
            ULLONG_MAX,
            LLONG_MAX + 1,
            Ok(LLONG_MAX + 1),
        ),
        (Operator::BitXor, Num::I32, -1, INT_MAX, Ok(INT_MIN)),
        (Operator::BitXor, Num::I32, INT_MIN, -1, Ok(INT_MAX)),
        (Operator::BitXor, Num::U32, UINT_MAX, -1, Ok(0)),
        (Operator::BitXor, Num::I64, LLONG_MIN, LLONG_MAX, Ok(-1)),
        (Operator::BitOr, Num::I32, 5, 8, Ok(13)),
        (Operator::BitOr, Num::I32, INT_MIN, INT_MAX, Ok(-1)),
        (
            Operator::BitOr,
            Num::U32,
            INT_MAX + 1,
            INT_MAX,
            Ok(UINT_MAX),
        ),
        (Operator::BitOr, Num::U64, LLONG_MIN, 1, Ok(LLONG_MAX + 2)),
        (Operator::Equal, Num::U32, -1, UINT_MAX, Ok(1)),
        (Operator::Equal, Num::I64, -1, UINT_MAX, Ok(0)),
        (Operator::NotEqual, Num::U64, -1, ULLONG_MAX, Ok(0)),
        (Operator::NotEqual, Num::I32, INT_MIN, INT_MAX, Ok(1)),
        (Operator::Less, Num::I32, -1, 0, Ok(1)),
        (Operator::Less, Num::U32, -1, 0, Ok(0)),
        (Operator::Less, Num::I32, INT_MIN, INT_MIN, Ok(0)),
        (Operator::LessEqual, Num::I32, INT_MIN, INT_MIN, Ok(1)),
        (Operator::LessEqual, Num::U32, -1, 0, Ok(0)),
        (Operator::Greater, Num::I64, LLONG_MIN, LLONG_MAX, Ok(0)),
        (Operator::Greater, Num::U64, LLONG_MIN, LLONG_MAX, Ok(1)),
        (Operator::GreaterEqual, Num::I32, INT_MIN, INT_MAX, Ok(0)),
        (Operator::GreaterEqual, Num::U32, -1, UINT_MAX, Ok(1)),
    ] {
        assert_eq!(rt;
            operated(op, num, x, y),
            Some(want),
            "{x} {op:?} {y} in {num:?}"
        );
    }
}

#[test]
fn operators_before_operands(rt: HostRuntime) {
    for (op, num, x, want) in [
        (Prefix::Minus, Num::I32, INT_MIN, Err(Kind::Overflow)),
        (Prefix::Minus, Num::I32, INT_MAX, Ok(INT_MIN + 1)),
        (Prefix::Minus, Num::U32, 0, Ok(0)),
        (Prefix::Minus, Num::U32, 1, Ok(UINT_MAX)),
        (Prefix::Minus, Num::I64, LLONG_MIN, Err(Kind::Overflow)),
        (Prefix::Minus, Num::U64, ULLONG_MAX, Ok(1)),
        (Prefix::Plus, Num::I32, INT_MIN, Ok(INT_MIN)),
        (Prefix::Plus, Num::U32, -1, Ok(UINT_MAX)),
        (Prefix::Complement, Num::I32, 0, Ok(-1)),
        (Prefix::Complement, Num::I32, INT_MIN, Ok(INT_MAX)),
        (Prefix::Complement, Num::U32, 0, Ok(UINT_MAX)),
        (Prefix::Complement, Num::U32, UINT_MAX, Ok(0)),
        (Prefix::Complement, Num::I64, LLONG_MAX, Ok(LLONG_MIN)),
        (Prefix::Complement, Num::U64, 0, Ok(ULLONG_MAX)),
        (Prefix::Not, Num::I32, 0, Ok(1)),
        (Prefix::Not, Num::I32, INT_MIN, Ok(0)),
        (Prefix::Not, Num::U64, ULLONG_MAX, Ok(0)),
    ] {
        assert_eq!(rt; prefixed(op, num, x), Some(want), "{op:?} {x} in {num:?}");
    }
}

/// An operator between two literals.
fn pair(alloc: Global, op: Operator, x: u64, y: u64) -> Result<Expr, OutOfMemory>
    ensures { IfOk result (λ e. e ≡ expr.Chain (expr.Number x I32) (record { op = op; pos = record { line = 1; col = 1 }; num = I32; operand = expr.Number y I32 } ∷ [])) }
{
    let mut links = Vec::new(alloc);
    links.push(Link {
        op,
        pos: AT,
        num: Num::I32,
        operand: Expr::Number(y, Num::I32),
    })?;
    let first = Boxed::new(alloc, Expr::Number(x, Num::I32))?;
    Ok(Expr::Chain(first, Items::from_vec(links)))
}

/// The element of an array of `n` that an operator between two literals names; None where one of them is no `int`.
#[tactic(auto, using(sa_typed::proofs::OperandLaws::has_type_pair))]
fn element(
    alloc: Global,
    n: u32,
    op: Operator,
    x: u64,
    y: u64,
) -> Result<Option<u32>, OutOfMemory> {
    if !is_of(Num::I32, i128::from(x)) || !is_of(Num::I32, i128::from(y)) {
        return Ok(None);
    }
    let index = pair(alloc, op, x, y)?;
    Ok(fixed_index(n, &index))
}

/// `&&` between two literals.
fn both(alloc: Global, x: u64, y: u64) -> Result<Expr, OutOfMemory>
    ensures { IfOk result (λ e. e ≡ expr.And (expr.Number x I32) (expr.Number y I32 ∷ [])) }
{
    let mut rest = Vec::new(alloc);
    rest.push(Expr::Number(y, Num::I32))?;
    let first = Boxed::new(alloc, Expr::Number(x, Num::I32))?;
    Ok(Expr::And(first, Items::from_vec(rest)))
}

/// `||` between two literals.
fn either(alloc: Global, x: u64, y: u64) -> Result<Expr, OutOfMemory>
    ensures { IfOk result (λ e. e ≡ expr.Or (expr.Number x I32) (expr.Number y I32 ∷ [])) }
{
    let mut rest = Vec::new(alloc);
    rest.push(Expr::Number(y, Num::I32))?;
    let first = Boxed::new(alloc, Expr::Number(x, Num::I32))?;
    Ok(Expr::Or(first, Items::from_vec(rest)))
}

/// `x ? y : 2`.
fn choice(alloc: Global, x: u64, y: u64) -> Result<Expr, OutOfMemory>
    ensures { IfOk result (λ e. e ≡ expr.Choice (expr.Number x I32) (expr.Number y I32) (expr.Number 2 I32) I32) }
{
    let test = Boxed::new(alloc, Expr::Number(x, Num::I32))?;
    let first = Boxed::new(alloc, Expr::Number(y, Num::I32))?;
    let second = Boxed::new(alloc, Expr::Number(2, Num::I32))?;
    Ok(Expr::Choice(test, first, second, Num::I32))
}

/// The elements of an array of `n` that `x && y`, `x || y` and `x ? y : 2` name; None where a literal is no `int`.
#[tactic(auto, using(sa_typed::proofs::OperandLaws::has_type_logical))]
fn logical_elements(
    alloc: Global,
    n: u32,
    x: u64,
    y: u64,
) -> Result<Option<[Option<u32>; 3]>, OutOfMemory> {
    if !is_of(Num::I32, i128::from(x)) || !is_of(Num::I32, i128::from(y)) {
        return Ok(None);
    }
    let and = fixed_index(n, &both(alloc, x, y)?);
    let or = fixed_index(n, &either(alloc, x, y)?);
    let chosen = fixed_index(n, &choice(alloc, x, y)?);
    Ok(Some([and, or, chosen]))
}

#[test]
fn constant_choices(rt: HostRuntime) -> Result<(), Fail> {
    for (n, x, y, want) in [
        (4, 3, 5, [Some(1), Some(1), None]),
        (4, 3, 1, [Some(1), Some(1), Some(1)]),
        (4, 3, 0, [Some(0), Some(1), Some(0)]),
        (4, 0, 3, [Some(0), Some(1), Some(2)]),
        (4, 0, 0, [Some(0), Some(0), Some(2)]),
        (1, 1, 1, [None, None, None]),
    ] {
        assert_eq!(rt;
            logical_elements(rt.alloc(), n, x, y)?,
            Some(want),
            "{x} and {y} of {n}"
        );
    }
    Ok(())
}

#[test]
fn constant_indices(rt: HostRuntime) -> Result<(), Fail> {
    for (n, op, x, y, want) in [
        (4, Operator::Plus, 1, 2, Some(3)),
        (4, Operator::Plus, 2, 2, None),
        (4, Operator::Minus, 3, 3, Some(0)),
        (4, Operator::Minus, 0, 1, None),
        (4, Operator::Divide, 1, 0, None),
        (4, Operator::Plus, 0x7fff_ffff, 1, None),
        (128, Operator::ShiftLeft, 1, 6, Some(64)),
        (128, Operator::ShiftLeft, 1, 32, None),
        (1, Operator::Less, 2, 1, Some(0)),
    ] {
        assert_eq!(rt;
            element(rt.alloc(), n, op, x, y)?,
            want,
            "{x} {op:?} {y} of {n}"
        );
    }
    Ok(())
}

/// Whether a variable's value is constant.
fn is_read_constant(alloc: Global) -> bool {
    let steps = Items::new(alloc);
    is_constant(&Expr::Read(Access { var: 0, steps }, Num::I32))
}

/// Whether an input with its sign changed is constant.
fn is_prefix_constant(alloc: Global) -> Result<bool, OutOfMemory> {
    let input = Boxed::new(alloc, Expr::Input(0, Num::U8))?;
    Ok(is_constant(&Expr::Prefix(Prefix::Minus, AT, Num::I32, input)))
}

/// Whether a converted literal is constant.
fn is_cast_constant(alloc: Global) -> Result<bool, OutOfMemory> {
    let literal = Boxed::new(alloc, Expr::Number(7, Num::I32))?;
    Ok(is_constant(&Expr::Cast(AT, Num::I8, literal)))
}

/// Whether a sum of literals is constant.
fn is_sum_constant(alloc: Global) -> Result<bool, OutOfMemory> {
    let sum = pair(alloc, Operator::Plus, 1, 2)?;
    Ok(is_constant(&sum))
}

#[test]
fn constant_forms(rt: HostRuntime) -> Result<(), Fail> {
    let alloc = rt.alloc();
    assert!(rt; is_constant(&Expr::Number(7, Num::I32)));
    assert!(rt; !is_constant(&Expr::Input(0, Num::U8)));
    assert!(rt; !is_read_constant(alloc));
    assert!(rt; !is_prefix_constant(alloc)?);
    assert!(rt; is_cast_constant(alloc)?);
    assert!(rt; is_sum_constant(alloc)?);
    Ok(())
}

/// A literal, or an input, which isn't constant.
fn term(constant: bool) -> Expr {
    if constant {
        Expr::Number(7, Num::I32)
    } else {
        Expr::Input(0, Num::I32)
    }
}

/// Two terms in their order.
fn terms(alloc: Global, first: bool, second: bool) -> Result<Items<Expr>, OutOfMemory> {
    let mut terms = Vec::new(alloc);
    terms.push(term(first))?;
    terms.push(term(second))?;
    Ok(Items::from_vec(terms))
}

/// Whether `a && b && c` is constant.
fn is_and_constant(alloc: Global, a: bool, b: bool, c: bool) -> Result<bool, OutOfMemory> {
    let rest = terms(alloc, b, c)?;
    let first = Boxed::new(alloc, term(a))?;
    Ok(is_constant(&Expr::And(first, rest)))
}

/// Whether `a || b || c` is constant.
fn is_or_constant(alloc: Global, a: bool, b: bool, c: bool) -> Result<bool, OutOfMemory> {
    let rest = terms(alloc, b, c)?;
    let first = Boxed::new(alloc, term(a))?;
    Ok(is_constant(&Expr::Or(first, rest)))
}

/// Whether `a ? b : c` is constant.
fn is_choice_constant(alloc: Global, a: bool, b: bool, c: bool) -> Result<bool, OutOfMemory> {
    let condition = Boxed::new(alloc, term(a))?;
    let first = Boxed::new(alloc, term(b))?;
    let second = Boxed::new(alloc, term(c))?;
    Ok(is_constant(&Expr::Choice(condition, first, second, Num::I32)))
}

#[test]
fn constant_parts(rt: HostRuntime) -> Result<(), Fail> {
    let alloc = rt.alloc();
    for (a, b, c) in [
        (true, true, true),
        (false, true, true),
        (true, false, true),
        (true, true, false),
    ] {
        let want = a && b && c;
        assert_eq!(rt; is_and_constant(alloc, a, b, c)?, want, "{a} && {b} && {c}");
        assert_eq!(rt; is_or_constant(alloc, a, b, c)?, want, "{a} || {b} || {c}");
        assert_eq!(rt;
            is_choice_constant(alloc, a, b, c)?,
            want,
            "{a} ? {b} : {c}"
        );
    }
    Ok(())
}

/// The least range of an input with these spans at the ticks from `from` to `to`; None where there is no tick.
fn range_of(
    alloc: Global,
    spans: &[(u64, i128, i128)],
    from: u64,
    to: u64,
) -> Result<Option<(i128, i128)>, OutOfMemory>
    requires { AreSpans spans.now }
{
    let mut inputs = Vec::new(alloc);
    inputs.push(Vec::from_slice(alloc, spans)?)?;
    let ranges = Ranges::of(10, inputs);
    if from <= to {
        Ok(Some(ranges.between(0, from, to)))
    } else {
        Ok(None)
    }
}

#[test]
fn ranges_over_ticks(rt: HostRuntime) -> Result<(), Fail> {
    for (from, to, want) in [
        (0, 0, (1, 1)),
        (0, 4, (1, 1)),
        (0, 5, (0, 9)),
        (5, 5, (0, 9)),
        (4, 6, (-3, 9)),
        (6, 6, (-3, 2)),
        (6, 10, (-3, 2)),
        (7, u64::MAX, (-3, 2)),
        (0, u64::MAX, (-3, 9)),
    ] {
        let range = range_of(rt.alloc(), &[(0, 1, 1), (5, 0, 9), (6, -3, 2)], from, to)?;
        assert_eq!(rt; range, Some(want), "{from} to {to}");
    }
    Ok(())
}

/// An input.
fn input(alloc: Global, name: &str, num: Num) -> Result<Input, OutOfMemory> {
    let name = Text::of(alloc, name)?;
    Ok(Input { name, num })
}

/// An `unsigned char` and an `int`.
fn two_inputs(alloc: Global) -> Result<Items<Input>, OutOfMemory>
    ensures { IfOk result (λ all. length all ≡ 2) }
{
    let mut inputs = Items::new(alloc);
    inputs.push(input(alloc, "u", Num::U8)?)?;
    inputs.push(input(alloc, "v", Num::I32)?)?;
    Ok(inputs)
}

/// The widest ranges of a program that has two inputs and nothing else.
fn widest(alloc: Global) -> Result<Ranges, OutOfMemory>
    ensures { IfOk result (λ r. length r.inputs ≡ 2) }
{
    let inputs = two_inputs(alloc)?;
    let program = Program {
        inputs,
        structs: Items::new(alloc),
        vars: Items::new(alloc),
        funcs: Items::new(alloc),
        entry: 0,
        thresholds: Items::new(alloc),
    };
    Ranges::widest(alloc, &program)
}

#[test]
fn ranges_of_types(rt: HostRuntime) -> Result<(), Fail> {
    let ranges = widest(rt.alloc())?;
    assert_eq!(rt; ranges.max_clock(), 3_600_000);
    assert_eq!(rt; ranges.between(0, 0, 10), (0, 255));
    assert_eq!(rt; ranges.between(1, 7, 7), (INT_MIN, INT_MAX));
    Ok(())
}
