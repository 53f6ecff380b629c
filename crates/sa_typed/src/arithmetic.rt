//! What conversions and operators make of numbers. Numbers are of some type of whole numbers, so they fit 65 bits.

ghost use Rattle.std.specs.Prelude.{◌≡◌, ◌&&◌, not, int_div, int_rem, ◌≤ℤ◌, ◌≤◌, ◌<◌, ◌^◌, ◌-◌, pos, ◌+ℤ◌, ◌-ℤ◌, ◌*ℤ◌, ◌*◌, true, false, if◌then◌else◌, Ok, Err, MatchOption, IfOk, unsigned_abs, ◌≢◌};
ghost use Rattle.std.specs.Int.{w128, int_shr, int_bit_and, int_bit_or, int_bit_xor};
ghost use Rattle.std.specs.Int.RustNames.{int_le};
ghost use Rattle.sa_base.specs.Numbers.{num_hi};
ghost use Rattle.sa_typed.specs.Arithmetic.{bits, is_signed, is_of, IsOf, IsSmall, IsHalf, promoted, common, wrapped, as_num, in_type, converted, fitted, divided, remaindered, is_count, shifted, shifted_left, shifted_right, truth, complemented, operate, prefixed, result_type, prefix_type, IsOperand, IsRight, literal_type, first_holding};

use crate::expr::{Operator, Prefix};
use sa_base::{Kind, Num};

/// How many bits a type has.
pub fn bits(num: Num) -> u32
    ensures value { result ≡ bits num }
    ensures small { result ≤ 64 }
{
    match num {
        Num::I8 | Num::U8 => 8,
        Num::I16 | Num::U16 => 16,
        Num::I32 | Num::U32 => 32,
        Num::I64 | Num::U64 => 64,
    }
}

/// Whether a type has negative values.
pub fn is_signed(num: Num) -> bool
    ensures { result ≡ is_signed num }
{
    matches!(num, Num::I8 | Num::I16 | Num::I32 | Num::I64)
}

/// Whether a number is a value of the type.
pub fn is_of(num: Num, z: i128) -> bool
    ensures { result ≡ is_of num z }
{
    num.lo() <= z && z <= num.hi()
}

/// The type to which the integer promotions take it (ISO C 6.3.1.1).
pub fn promoted(num: Num) -> Num
    ensures { result ≡ promoted num }
{
    match num {
        Num::U32 | Num::I64 | Num::U64 => num,
        Num::I8 | Num::U8 | Num::I16 | Num::U16 | Num::I32 => Num::I32,
    }
}

/// The type to which the usual arithmetic conversions take two operands (ISO C 6.3.1.8).
pub fn common(a: Num, b: Num) -> Num
    ensures { result ≡ common a b }
{
    match (a, b) {
        (Num::U64, _) | (_, Num::U64) => Num::U64,
        (Num::I64, _) | (_, Num::I64) => Num::I64,
        (Num::U32, _) | (_, Num::U32) => Num::U32,
        _ => Num::I32,
    }
}

/// The first of two types if it holds the value, else the second.
fn first_holding(a: Num, b: Num, value: u64) -> Num
    ensures { result ≡ first_holding a b value }
{
    if i128::from(value) <= a.hi() { a } else { b }
}

/// The type of a literal with this value, with `u` or without, with so many `l`, decimal or not: the first of its list
/// that holds the value (ISO C 6.4.4.1).
#[tactic(auto, unfolding(crate::specs::Arithmetic::literal_type))]
pub fn literal_type(value: u64, unsigned: bool, longs: u8, decimal: bool) -> Num
    ensures { result ≡ literal_type value unsigned longs decimal }
{
    match (longs >= 2, unsigned, decimal) {
        (true, true, _) => Num::U64,
        (true, false, true) => Num::I64,
        (true, false, false) => first_holding(Num::I64, Num::U64, value),
        (false, true, _) => first_holding(Num::U32, Num::U64, value),
        (false, false, true) => first_holding(Num::I32, Num::I64, value),
        (false, false, false) if value <= 0xffff_ffff => first_holding(Num::I32, Num::U32, value),
        (false, false, false) => first_holding(Num::I64, Num::U64, value),
    }
}

/// A power of two.
fn power(exponent: u32) -> i128
    requires { exponent ≤ 64 }
    ensures { result ≡ pos (2 ^ exponent) }
{
    1 << exponent
}

/// The number modulo 2^bits.
#[tactic(auto, unfolding(crate::specs::Arithmetic::wrapped))]
pub fn wrapped(num: Num, z: i128) -> i128
    ensures { result ≡ wrapped num z }
{
    z.rem_euclid(power(bits(num)))
}

/// An operand as it is converted to the type in which its operator works (ISO C 6.3.1.8).
#[tactic(auto, unfolding(crate::specs::Arithmetic::as_num))]
pub fn as_num(num: Num, z: i128) -> i128
    ensures { result ≡ as_num num z }
{
    if is_signed(num) { z } else { wrapped(num, z) }
}

/// The number in a type: a signed type holds it or there is an error of this kind, an unsigned one wraps.
#[tactic(auto, unfolding(crate::specs::Arithmetic::in_type))]
fn in_type(kind: Kind, num: Num, z: i128) -> Result<i128, Kind>
    ensures { result ≡ in_type kind num z }
{
    if !is_signed(num) {
        Ok(wrapped(num, z))
    } else if is_of(num, z) {
        Ok(z)
    } else {
        Err(kind)
    }
}

/// The number converted by a cast or an assignment (ISO C 6.3.1.3).
#[tactic(auto, using(crate::proofs::ArithmeticLaws::in_type_of))]
pub fn converted(num: Num, z: i128) -> Result<i128, Kind>
    ensures value { result ≡ converted num z }
    ensures of_type { IfOk result (λ z. IsOf num z) }
{
    in_type(Kind::Conversion, num, z)
}

/// The result of arithmetic (ISO C 6.2.5, 6.5).
fn fitted(num: Num, z: i128) -> Result<i128, Kind>
    ensures { result ≡ fitted num z }
{
    in_type(Kind::Overflow, num, z)
}

/// A quotient, truncated towards zero.
fn quotient(x: i128, y: i128) -> i128
    requires x { IsSmall x }
    requires y { y ≢ pos 0 }
    ensures { result ≡ int_div x y }
{
    x / y
}

/// The quotient of two numbers of the type (ISO C 6.5.5).
#[tactic(auto, unfolding(crate::specs::Arithmetic::divided))]
fn divided(num: Num, x: i128, y: i128) -> Result<i128, Kind>
    requires { IsSmall x }
    ensures { result ≡ divided num x y }
{
    if y == 0 {
        Err(Kind::Division)
    } else {
        fitted(num, quotient(x, y))
    }
}

/// Whether the quotient of two numbers of the type is outside it.
fn overflows(num: Num, x: i128, y: i128) -> bool
    requires x { IsSmall x }
    requires y { y ≢ pos 0 }
    ensures { result ≡ (is_signed num && not (is_of num (int_div x y))) }
{
    is_signed(num) && !is_of(num, quotient(x, y))
}

/// What is left of a division.
fn remainder(x: i128, y: i128) -> i128
    requires x { IsSmall x }
    requires y { y ≢ pos 0 }
    ensures { result ≡ int_rem x y }
{
    x % y
}

/// The remainder of two numbers of the type (ISO C 6.5.5).
#[tactic(auto, unfolding(crate::specs::Arithmetic::remaindered))]
fn remaindered(num: Num, x: i128, y: i128) -> Result<i128, Kind>
    requires { IsSmall x }
    ensures { result ≡ remaindered num x y }
{
    if y == 0 {
        Err(Kind::Division)
    } else if overflows(num, x, y) {
        Err(Kind::Overflow)
    } else {
        Ok(remainder(x, y))
    }
}

/// The count of bits, where a number of the type may be shifted so far (ISO C 6.5.7).
fn count(num: Num, y: i128) -> Option<u32>
    ensures { MatchOption result (is_count num y ≡ false) (λ n. (is_count num y ≡ true) × (n ≡ unsigned_abs y) × (n ≤ 63)) }
{
    if 0 <= y && y < i128::from(bits(num)) {
        Some(y as u32)
    } else {
        None
    }
}

/// The number with so many bits to the left of it.
fn shifted(x: i128, count: u32) -> i128
    requires low { pos 0 ≤ℤ x }
    requires high { x ≤ℤ pos (2 ^ 64 - 1) }
    requires count { count ≤ 63 }
    ensures { result ≡ x *ℤ pos (2 ^ count) }
{
    x * power(count)
}

/// A truth as a number.
fn truth(holds: bool) -> i128
    ensures { result ≡ truth holds }
{
    if holds { 1 } else { 0 }
}

/// The complement of each bit of a number of the type (ISO C 6.5.3.3).
fn complemented(num: Num, x: i128) -> i128
    requires { IsSmall x }
    ensures { result ≡ complemented num x }
{
    if is_signed(num) { -1 - x } else { num.hi() - x }
}

/// The sum of two numbers of the type.
fn sum(num: Num, x: i128, y: i128) -> Result<i128, Kind>
    requires x { IsSmall x }
    requires y { IsSmall y }
    ensures { result ≡ fitted num (x +ℤ y) }
{
    fitted(num, x + y)
}

/// The difference of two numbers of the type.
fn difference(num: Num, x: i128, y: i128) -> Result<i128, Kind>
    requires x { IsSmall x }
    requires y { IsSmall y }
    ensures { result ≡ fitted num (x -ℤ y) }
{
    fitted(num, x - y)
}

/// The product of two numbers of a signed type.
fn signed_product(x: i128, y: i128) -> i128
    requires x { IsHalf x }
    requires y { IsHalf y }
    ensures { result ≡ x *ℤ y }
{
    x * y
}

/// The product of two numbers of an unsigned type, modulo 2^bits. It may need 128 bits.
#[tactic(auto, unfolding(crate::specs::Arithmetic::wrapped))]
fn unsigned_product(num: Num, x: u128, y: u128) -> i128
    requires x { x < 2 ^ 64 }
    requires y { y < 2 ^ 64 }
    ensures { result ≡ wrapped num (pos (x * y)) }
{
    (x * y % (1 << bits(num))) as i128
}

/// The product of two numbers of the type.
fn product(num: Num, x: i128, y: i128) -> Result<i128, Kind>
    requires x { IsOf num x }
    requires y { IsOf num y }
    ensures { result ≡ fitted num (x *ℤ y) }
{
    if is_signed(num) {
        fitted(num, signed_product(x, y))
    } else {
        Ok(unsigned_product(num, x.unsigned_abs(), y.unsigned_abs()))
    }
}

/// A number of a signed type with so many bits to the left of it (ISO C 6.5.7).
fn signed_left(num: Num, x: i128, count: u32) -> Result<i128, Kind>
    requires x { x ≤ℤ pos (2 ^ 64 - 1) }
    requires count { count ≤ 63 }
    ensures { result ≡ (if int_le (pos 0) x && int_le (x *ℤ pos (2 ^ count)) (num_hi num) then Ok (x *ℤ pos (2 ^ count)) else Err Kind.Shift) }
{
    if x < 0 {
        return Err(Kind::Shift);
    }
    let z = shifted(x, count);
    if z <= num.hi() {
        Ok(z)
    } else {
        Err(Kind::Shift)
    }
}

/// A number of the type shifted to the left (ISO C 6.5.7).
#[tactic(auto, unfolding(crate::specs::Arithmetic::shifted_left))]
fn shifted_left(num: Num, x: i128, y: i128) -> Result<i128, Kind>
    requires x { IsOf num x }
    ensures { result ≡ shifted_left num x y }
{
    match count(num, y) {
        None => Err(Kind::Shift),
        Some(count) if is_signed(num) => signed_left(num, x, count),
        Some(count) => Ok(wrapped(num, shifted(x, count))),
    }
}

/// A number shifted to the right, rounded down.
fn right(x: i128, count: u32) -> i128
    requires { count ≤ 63 }
    ensures { result ≡ int_shr x count }
{
    x >> count
}

/// A number of the type shifted to the right (ISO C 6.5.7).
#[tactic(auto, unfolding(crate::specs::Arithmetic::shifted_right))]
fn shifted_right(num: Num, x: i128, y: i128) -> Result<i128, Kind>
    ensures { result ≡ shifted_right num x y }
{
    match count(num, y) {
        None => Err(Kind::Shift),
        Some(count) => Ok(right(x, count)),
    }
}

/// The bits that both have.
fn and(x: i128, y: i128) -> i128
    ensures { result ≡ int_bit_and w128 x y }
{
    x & y
}

/// The bits that one of them has.
fn xor(x: i128, y: i128) -> i128
    ensures { result ≡ int_bit_xor w128 x y }
{
    x ^ y
}

/// The bits that one or both have.
fn or(x: i128, y: i128) -> i128
    ensures { result ≡ int_bit_or w128 x y }
{
    x | y
}

/// An operand of an operator that works in the type, converted to it.
#[tactic(auto, using(crate::proofs::ArithmeticLaws::of_small))]
fn operand(num: Num, z: i128) -> i128
    requires { IsOperand num z }
    ensures value { result ≡ as_num num z }
    ensures of_type { IsOf num result }
    ensures small { IsSmall result }
{
    as_num(num, z)
}

impl Operator {
    /// What the operator makes of two numbers in the type `num`, to which they aren't converted yet (ISO C 6.5.5 to 6.5.12).
    #[tactic(auto, unfolding(crate::specs::Arithmetic::operate))]
    fn operated(self, num: Num, x: i128, y: i128) -> Result<i128, Kind>
        requires left { IsOperand num x }
        requires right { IsRight self num y }
        ensures { result ≡ operate self num x y }
    {
        let x = operand(num, x);
        match self {
            Operator::Plus => sum(num, x, operand(num, y)),
            Operator::Minus => difference(num, x, operand(num, y)),
            Operator::Times => product(num, x, operand(num, y)),
            Operator::Divide => divided(num, x, operand(num, y)),
            Operator::Remainder => remaindered(num, x, operand(num, y)),
            Operator::ShiftLeft => shifted_left(num, x, y),
            Operator::ShiftRight => shifted_right(num, x, y),
            Operator::BitAnd => Ok(and(x, operand(num, y))),
            Operator::BitXor => Ok(xor(x, operand(num, y))),
            Operator::BitOr => Ok(or(x, operand(num, y))),
            Operator::Equal => Ok(truth(x == operand(num, y))),
            Operator::NotEqual => Ok(truth(x != operand(num, y))),
            Operator::Less => Ok(truth(x < operand(num, y))),
            Operator::LessEqual => Ok(truth(x <= operand(num, y))),
            Operator::Greater => Ok(truth(x > operand(num, y))),
            Operator::GreaterEqual => Ok(truth(x >= operand(num, y))),
        }
    }

    /// What the operator makes of two numbers in the type `num`, to which they aren't converted yet (ISO C 6.5.5 to 6.5.12).
    pub fn operate(self, num: Num, x: i128, y: i128) -> Result<i128, Kind>
        requires left { IsOperand num x }
        requires right { IsRight self num y }
        ensures value { result ≡ operate self num x y }
        ensures of_type { IfOk result (λ z. IsOf (result_type self num) z) }
    {
        self.operated(num, x, y)
    }

    /// The type of what it makes of numbers of the type `num`.
    pub fn result_type(self, num: Num) -> Num
        ensures { result ≡ result_type self num }
    {
        match self {
            Operator::Equal
            | Operator::NotEqual
            | Operator::Less
            | Operator::LessEqual
            | Operator::Greater
            | Operator::GreaterEqual => Num::I32,
            _ => num,
        }
    }
}

impl Prefix {
    /// What the operator makes of a number in the type `num`, to which it isn't converted yet (ISO C 6.5.3.3).
    #[tactic(auto, unfolding(crate::specs::Arithmetic::prefixed))]
    fn prefixed(self, num: Num, x: i128) -> Result<i128, Kind>
        requires { IsOperand num x }
        ensures { result ≡ prefixed self num x }
    {
        let x = operand(num, x);
        match self {
            Prefix::Minus => difference(num, 0, x),
            Prefix::Plus => Ok(x),
            Prefix::Complement => Ok(complemented(num, x)),
            Prefix::Not => Ok(truth(x == 0)),
        }
    }

    /// What the operator makes of a number in the type `num`, to which it isn't converted yet (ISO C 6.5.3.3).
    #[tactic(auto, using(crate::proofs::ArithmeticLaws::prefixed_of))]
    pub fn operate(self, num: Num, x: i128) -> Result<i128, Kind>
        requires { IsOperand num x }
        ensures value { result ≡ prefixed self num x }
        ensures of_type { IfOk result (λ z. IsOf (prefix_type self num) z) }
    {
        self.prefixed(num, x)
    }

    /// The type of what it makes of a number of the type `num`.
    pub fn result_type(self, num: Num) -> Num
        ensures { result ≡ prefix_type self num }
    {
        match self {
            Prefix::Not => Num::I32,
            _ => num,
        }
    }
}
