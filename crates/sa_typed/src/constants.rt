//! Constant expressions: literals with operators and casts between them (ISO C 6.6).

ghost use Rattle.std.specs.Prelude.{◌≡◌, Ok, IfOk};
ghost use Rattle.sa_typed.specs.Arithmetic.{IsOperand, IsRight, operate, prefixed, converted};
ghost use Rattle.sa_typed.specs.Constants.{is_constant, constant_value, then_ok, chosen_ok, element_of, fixed_index};
ghost use Rattle.sa_typed.specs.Links.{HasType, HaveTypes, AreAfter, all_constant, are_constant, value_after, ands_after, ors_after, settles_and, settles_or, truth};

use crate::arithmetic::{as_num, converted};
use crate::expr::{Expr, Link, Operator, Prefix};
use sa_base::{Kind, Num};

/// Whether it is made of literals, operators and casts alone.
#[cycle(constants)]
#[tactic(auto, using(crate::proofs::LinkLaws::of_constants))]
pub fn is_constant(e: &Expr) -> bool
    ensures { result ≡ is_constant e.now }
{
    match e {
        Expr::Number(_, _) => true,
        Expr::Read(_, _) | Expr::Input(_, _) => false,
        Expr::Prefix(_, _, _, operand) => is_constant(operand.get()),
        Expr::Cast(_, _, operand) => is_constant(operand.get()),
        Expr::Chain(first, links) => is_constant(first.get()) && all_constant(links.as_slice()),
        Expr::And(first, rest) => is_constant(first.get()) && are_constant(rest.as_slice()),
        Expr::Or(first, rest) => is_constant(first.get()) && are_constant(rest.as_slice()),
        Expr::Choice(test, first, second, _) => {
            is_constant(test.get()) && is_constant(first.get()) && is_constant(second.get())
        }
    }
}

#[cycle(constants)]
#[tactic(auto, using(crate::proofs::LinkLaws::of_are_constant))]
fn are_constant(operands: &[Expr]) -> bool
    ensures { result ≡ are_constant operands.now }
{
    for operand in operands {
        if !is_constant(operand) {
            return false;
        }
    }
    true
}

#[cycle(constants)]
#[tactic(auto, using(crate::proofs::LinkLaws::of_all_constant))]
fn all_constant(links: &[Link]) -> bool
    ensures { result ≡ all_constant links.now }
{
    for link in links {
        if !is_constant(&link.operand) {
            return false;
        }
    }
    true
}

/// What an operator before its operand makes of a number, or the operand's error.
fn prefixed(op: Prefix, num: Num, operand: Result<i128, Kind>) -> Result<i128, Kind>
    requires { IfOk operand (λ x. IsOperand num x) }
    ensures { result ≡ then_ok operand (prefixed op num) }
{
    match operand {
        Ok(x) => op.operate(num, x),
        Err(kind) => Err(kind),
    }
}

/// What a cast makes of a number, or the operand's error.
fn cast(num: Num, operand: Result<i128, Kind>) -> Result<i128, Kind>
    ensures { result ≡ then_ok operand (converted num) }
{
    match operand {
        Ok(x) => converted(num, x),
        Err(kind) => Err(kind),
    }
}

/// What an operator makes of two numbers, or the first error of its operands.
fn operated(
    op: Operator,
    num: Num,
    left: Result<i128, Kind>,
    right: Result<i128, Kind>,
) -> Result<i128, Kind>
    requires left { IfOk left (λ x. IsOperand num x) }
    requires right { IfOk right (λ y. IsRight op num y) }
    ensures { result ≡ then_ok left (λ x. then_ok right (operate op num x)) }
{
    match (left, right) {
        (Ok(x), Ok(y)) => op.operate(num, x, y),
        (Ok(_), Err(kind)) => Err(kind),
        (Err(kind), _) => Err(kind),
    }
}

/// The result that the test of a `?:` chooses, converted to the type of the whole (ISO C 6.5.15p5), or the first error of what is
/// evaluated.
fn chosen(
    num: Num,
    test: Result<i128, Kind>,
    first: Result<i128, Kind>,
    second: Result<i128, Kind>,
) -> Result<i128, Kind>
    ensures { result ≡ chosen_ok num test first second }
{
    match test {
        Ok(x) => {
            let part = if x == 0 { second } else { first };
            match part {
                Ok(z) => Ok(as_num(num, z)),
                Err(kind) => Err(kind),
            }
        }
        Err(kind) => Err(kind),
    }
}

/// Whether an operand isn't 0, as a number, or its error.
fn truth(operand: Result<i128, Kind>) -> Result<i128, Kind>
    ensures { result ≡ truth operand }
{
    match operand {
        Ok(x) => Ok(if x == 0 { 0 } else { 1 }),
        Err(kind) => Err(kind),
    }
}

/// Whether an `&&` doesn't evaluate what comes after this operand (ISO C 6.5.13p4).
fn settles_and(operand: Result<i128, Kind>) -> bool
    ensures { result ≡ settles_and operand }
{
    match operand {
        Ok(x) => x == 0,
        Err(_) => true,
    }
}

/// Whether an `||` doesn't evaluate what comes after this operand (ISO C 6.5.14p4).
fn settles_or(operand: Result<i128, Kind>) -> bool
    ensures { result ≡ settles_or operand }
{
    match operand {
        Ok(x) => x != 0,
        Err(_) => true,
    }
}

/// The value of a constant expression. Of a part that isn't constant it is 0.
#[cycle(values)]
#[tactic(auto, using(crate::proofs::LinkLaws::of_values))]
fn constant_value(e: &Expr) -> Result<i128, Kind>
    requires { HasType e.now }
    ensures { result ≡ constant_value e.now }
{
    match e {
        Expr::Number(n, _) => Ok(i128::from(*n)),
        Expr::Read(_, _) | Expr::Input(_, _) => Ok(0),
        Expr::Prefix(op, _, num, operand) => prefixed(*op, *num, constant_value(operand.get())),
        Expr::Cast(_, num, operand) => cast(*num, constant_value(operand.get())),
        Expr::Chain(first, links) => value_after(links.as_slice(), constant_value(first.get())),
        Expr::And(first, rest) => ands_after(rest.as_slice(), constant_value(first.get())),
        Expr::Or(first, rest) => ors_after(rest.as_slice(), constant_value(first.get())),
        Expr::Choice(test, first, second, num) => chosen(
            *num,
            constant_value(test.get()),
            constant_value(first.get()),
            constant_value(second.get()),
        ),
    }
}

/// What operators make of a value, from left to right.
#[cycle(values)]
#[tactic(auto, using(crate::proofs::LinkLaws::of_values_after))]
fn value_after(links: &[Link], first: Result<i128, Kind>) -> Result<i128, Kind>
    requires { AreAfter first links.now }
    ensures { result ≡ value_after links.now first }
{
    let mut value = first;
    for link in links {
        value = operated(link.op, link.num, value, constant_value(&link.operand));
    }
    value
}

/// What further operands of an `&&` make of a value.
#[cycle(values)]
#[tactic(auto, using(crate::proofs::LinkLaws::of_ands))]
fn ands_after(operands: &[Expr], first: Result<i128, Kind>) -> Result<i128, Kind>
    requires { HaveTypes operands.now }
    ensures { result ≡ ands_after operands.now first }
{
    let mut value = first;
    for operand in operands {
        if settles_and(value) {
            return truth(value);
        }
        value = constant_value(operand);
    }
    truth(value)
}

/// What further operands of an `||` make of a value.
#[cycle(values)]
#[tactic(auto, using(crate::proofs::LinkLaws::of_ors))]
fn ors_after(operands: &[Expr], first: Result<i128, Kind>) -> Result<i128, Kind>
    requires { HaveTypes operands.now }
    ensures { result ≡ ors_after operands.now first }
{
    let mut value = first;
    for operand in operands {
        if settles_or(value) {
            return truth(value);
        }
        value = constant_value(operand);
    }
    truth(value)
}

/// The element of an array of `n` with this number, None where there is none.
fn element(n: u32, i: i128) -> Option<u32>
    ensures { result ≡ element_of n (Ok i) }
{
    if 0 <= i && i < i128::from(n) {
        Some(i as u32)
    } else {
        None
    }
}

/// The element of an array of `n` that a constant index names, None where it errs or names none. An index that isn't
/// constant may be anything.
#[tactic(auto, unfolding(crate::specs::Constants::fixed_index))]
pub fn fixed_index(n: u32, e: &Expr) -> Option<u32>
    requires { HasType e.now }
    ensures { result ≡ fixed_index n e.now }
{
    match constant_value(e) {
        Ok(i) => element(n, i),
        Err(_) => None,
    }
}
