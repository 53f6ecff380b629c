//! Values of constant expressions.

ghost use Rattle.std.specs.Prelude.{◌≡◌, IfSome};
ghost use Rattle.sa_typed.specs.Arithmetic.{IsOf};
ghost use Rattle.sa_typed.specs.Evaluation.{is_zero};
ghost use Rattle.sa_scopes.specs.Constants as spec;
ghost use Rattle.sa_scopes.specs.Values as value;
ghost use Rattle.sa_scopes.specs.Typing.{Yields};

use crate::typer::Typer;
use sa_base::{Num, OutOfMemory, Pos};
use sa_typed::{Operator, Prefix, common, converted, is_of, promoted};
use std::marker::Model;

/// A number, and the type that holds it.
#[derive(Clone, Copy, Debug, PartialEq, Eq)]
pub struct Constant {
    num: Num,
    value: i128,
}

impl Model for Constant {
    ghost use Rattle.sa_typed.specs.Arithmetic.{IsOf};
    ghost use Rattle.sa_scopes.specs.Constants as spec;

    ghost Value = { spec.Constant };

    ghost view = { λ c. record { num = c.num; value = c.value } };

    ghost invariant = { λ c. IsOf c.num c.value };

    ghost inverse = { λ c. record { num = c.num; value = c.value } };
}

/// The type in which an operator works (ISO C 6.3.1.8, 6.5.7).
pub fn working(op: Operator, a: Num, b: Num) -> Num
    ensures { result ≡ spec.working op a b }
{
    match op {
        Operator::ShiftLeft | Operator::ShiftRight => promoted(a),
        _ => common(a, b),
    }
}

impl Constant {
    /// The constant with that number, where the type holds it.
    #[tactic(auto, unfolding(crate::specs::Constants::held))]
    pub fn of(num: Num, value: i128) -> Option<Constant>
        ensures { result ≡ spec.held num value }
    {
        if is_of(num, value) {
            Some(Constant { num, value })
        } else {
            None
        }
    }

    /// What `&&` and `||` give, as an `int`.
    fn of_truth(holds: bool) -> Constant
        ensures { result ≡ spec.truth_of holds }
    {
        if holds {
            Constant {
                num: Num::I32,
                value: 1,
            }
        } else {
            Constant {
                num: Num::I32,
                value: 0,
            }
        }
    }

    /// Whether it counts as false (ISO C 6.5.13).
    fn is_zero(self) -> bool
        ensures { result ≡ is_zero self.value }
    {
        self.value == 0
    }

    /// Its type.
    fn num(self) -> Num
        ensures { result ≡ self.num }
    {
        self.num
    }

    /// Its number.
    pub fn value(self) -> i128
        ensures value { result ≡ self.value }
        ensures of_type { IsOf self.num self.value }
    {
        self.value
    }

    /// What an operator gives, where its evaluation doesn't err.
    #[tactic(auto, unfolding(crate::specs::Constants::operated), using(crate::proofs::ConstantLemmas::operands))]
    pub fn operated(self, op: Operator, other: Constant) -> Option<Constant>
        ensures { result ≡ spec.operated op self other }
    {
        let num = working(op, self.num(), other.num());
        match op.operate(num, self.value(), other.value()) {
            Ok(value) => Some(Constant {
                num: op.result_type(num),
                value,
            }),
            Err(_) => None,
        }
    }

    /// What an operator before it gives, where its evaluation doesn't err.
    #[tactic(auto, unfolding(crate::specs::Constants::operated_prefix), using(crate::proofs::ConstantLemmas::operands))]
    pub fn prefixed(self, op: Prefix) -> Option<Constant>
        ensures { result ≡ spec.operated_prefix op self }
    {
        let num = promoted(self.num());
        match op.operate(num, self.value()) {
            Ok(value) => Some(Constant {
                num: op.result_type(num),
                value,
            }),
            Err(_) => None,
        }
    }

    /// What a cast gives, where its evaluation doesn't err.
    #[tactic(auto, unfolding(crate::specs::Constants::cast))]
    pub fn cast(self, num: Num) -> Option<Constant>
        ensures { result ≡ spec.cast num self }
    {
        match converted(num, self.value) {
            Ok(value) => Some(Constant { num, value }),
            Err(_) => None,
        }
    }
}

/// What is known of the value of an expression.
#[derive(Clone, Copy, Debug, PartialEq, Eq)]
pub enum Value {
    /// It isn't a constant expression.
    Varies,
    /// It is one, but a part of it was refused.
    Unknown,
    /// It is one of that type, and its evaluation errs.
    Errs(Num),
    Is(Constant),
}

fn value_of(num: Num, constant: Option<Constant>) -> Value
    ensures { result ≡ value.value_of num constant }
{
    match constant {
        None => Value::Errs(num),
        Some(constant) => Value::Is(constant),
    }
}

/// The value of a literal of that type.
pub fn literal_value(num: Num, literal: u64) -> Value
    ensures { result ≡ value.literal_value num literal }
{
    value_of(num, Constant::of(num, i128::from(literal)))
}

/// The type of an operator's result.
fn operated_type(op: Operator, a: Num, b: Num) -> Num
    ensures { result ≡ value.operated_type op a b }
{
    op.result_type(working(op, a, b))
}

impl Value {
    /// With an operator before it.
    pub fn prefixed(self, op: Prefix) -> Value
        ensures { result ≡ value.prefix_value op self }
    {
        match self {
            Value::Is(constant) => {
                value_of(
                    op.result_type(promoted(constant.num())),
                    constant.prefixed(op),
                )
            }
            Value::Errs(num) => Value::Errs(op.result_type(promoted(num))),
            Value::Varies | Value::Unknown => self,
        }
    }

    /// With a cast.
    pub fn cast(self, num: Num) -> Value
        ensures { result ≡ value.cast_value num self }
    {
        match self {
            Value::Is(constant) => value_of(num, constant.cast(num)),
            Value::Errs(_) => Value::Errs(num),
            Value::Varies | Value::Unknown => self,
        }
    }

    /// With a cast to what is no whole-number type.
    pub fn miscast(self) -> Value
        ensures { result ≡ value.miscast_value self }
    {
        match self {
            Value::Varies => Value::Varies,
            _ => Value::Unknown,
        }
    }

    /// With an operator and another value after it.
    pub fn operated(self, op: Operator, other: Value) -> Value
        ensures { result ≡ value.operator_value op self other }
    {
        match self {
            Value::Varies => Value::Varies,
            Value::Unknown => match other {
                Value::Varies => Value::Varies,
                _ => Value::Unknown,
            },
            Value::Errs(a) => match other {
                Value::Varies => Value::Varies,
                Value::Unknown => Value::Unknown,
                Value::Errs(b) => Value::Errs(operated_type(op, a, b)),
                Value::Is(b) => Value::Errs(operated_type(op, a, b.num())),
            },
            Value::Is(a) => match other {
                Value::Varies => Value::Varies,
                Value::Unknown => Value::Unknown,
                Value::Errs(b) => Value::Errs(operated_type(op, a.num(), b)),
                Value::Is(b) => value_of(operated_type(op, a.num(), b.num()), a.operated(op, b)),
            },
        }
    }

    /// Whether it isn't 0, as an `int`.
    fn truth(self) -> Value
        ensures { result ≡ value.truth self }
    {
        match self {
            Value::Is(constant) => Value::Is(Constant::of_truth(!constant.is_zero())),
            Value::Errs(_) => Value::Errs(Num::I32),
            Value::Varies | Value::Unknown => self,
        }
    }

    /// With `&&` and another value after it, which counts only where it isn't 0 (ISO C 6.5.13).
    pub fn and(self, other: Value) -> Value
        ensures { result ≡ value.and_value self other }
    {
        if !(self.is_constant() && other.is_constant()) {
            return Value::Varies;
        }
        match self {
            Value::Varies | Value::Unknown => self,
            Value::Errs(_) => Value::Errs(Num::I32),
            Value::Is(constant) => {
                if constant.is_zero() {
                    Value::Is(Constant::of_truth(false))
                } else {
                    other.truth()
                }
            }
        }
    }

    /// With `||` and another value after it, which counts only where it is 0 (ISO C 6.5.14).
    pub fn or(self, other: Value) -> Value
        ensures { result ≡ value.or_value self other }
    {
        if !(self.is_constant() && other.is_constant()) {
            return Value::Varies;
        }
        match self {
            Value::Varies | Value::Unknown => self,
            Value::Errs(_) => Value::Errs(Num::I32),
            Value::Is(constant) => {
                if constant.is_zero() {
                    other.truth()
                } else {
                    Value::Is(Constant::of_truth(true))
                }
            }
        }
    }

    /// The type of a constant expression, where it is known.
    fn num(self) -> Num
        ensures { result ≡ value.type_of self }
    {
        match self {
            Value::Is(constant) => constant.num(),
            Value::Errs(num) => num,
            Value::Varies | Value::Unknown => Num::I32,
        }
    }

    /// The part of a `?:` that this condition chooses, in the type that both have in common. All are constant and known.
    fn chosen(self, num: Num, first: Value, second: Value) -> Value
        ensures { result ≡ value.chosen num self first second }
    {
        match self {
            Value::Is(constant) => {
                if constant.is_zero() {
                    second.cast(num)
                } else {
                    first.cast(num)
                }
            }
            _ => Value::Errs(num),
        }
    }

    /// As the condition of a `?:` with such parts, of which one counts (ISO C 6.5.15).
    pub fn choice(self, first: Value, second: Value) -> Value
        ensures { result ≡ value.choice_value self first second }
    {
        if !(self.is_constant() && first.is_constant() && second.is_constant()) {
            return Value::Varies;
        }
        if !(self.is_known() && first.is_known() && second.is_known()) {
            return Value::Unknown;
        }
        self.chosen(common(first.num(), second.num()), first, second)
    }

    /// Whether no part of it was refused.
    fn is_known(self) -> bool
        ensures { result ≡ value.is_known self }
    {
        !matches!(self, Value::Unknown)
    }

    /// Whether it is that of a constant expression.
    pub fn is_constant(self) -> bool
        ensures { result ≡ value.is_constant self }
    {
        !matches!(self, Value::Varies)
    }
}

/// The number that a constant expression is, where its value is known; its first token is at that place.
pub fn needed(typer: &mut Typer, pos: Pos, known: Value) -> Result<Option<i128>, OutOfMemory>
    ensures { Yields (value.constant pos known typer.old) result typer.new }
{
    match known {
        Value::Varies | Value::Errs(_) => {
            typer.refuse(18, pos)?;
            Ok(None)
        }
        Value::Unknown => Ok(None),
        Value::Is(constant) => Ok(Some(constant.value())),
    }
}
