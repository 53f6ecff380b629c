//! Values of expressions, with their forms.

ghost use Rattle.std.specs.Prelude.{◌≡◌, IfSome, option_map, pos};
ghost use Rattle.sa_env.specs.Forms.{IsModest};
ghost use Rattle.sa_interval.specs.Rows.{sum_of, difference_of};
ghost use Rattle.sa_operators.specs.Operators.{negated_span};
ghost use Rattle.sa_operators.specs.OperatorLaws.{IsSmallSpan, Suits, SuitsRight};
ghost use Rattle.sa_flat.specs.Forms.{sum_form, difference_form, negative};
ghost use Rattle.sa_flat.specs.Meanings.{as_operand, form_within, form_in, both_forms, both_spans, linked, operation_form, prefix_form, number_operand};
ghost use Rattle.sa_effects.specs.Values.{held, value_of, operated, prefixed, converted, IsTame};

use crate::form::{constant, difference_form, negative, sum_form};
use sa_base::Num;
use sa_env::Form;
use sa_interval::Interval;
use sa_operators::{as_span, converted_span, operator_span, prefix_span, range_of};
use sa_typed::{Operator, Prefix};

/// What an expression is in an environment: the interval of its numbers, None where it has no value, and a form of cells whose
/// number it is.
#[derive(Clone, Copy, Debug, PartialEq, Eq)]
pub struct Value {
    pub span: Option<Interval>,
    pub form: Option<Form>,
}

/// The form, where all numbers of the interval are of the type.
fn form_within(num: Num, s: Interval, form: Option<Form>) -> Option<Form>
    ensures { result ≡ form_within num s form }
{
    if s.le(range_of(num)) { form } else { None }
}

/// The form of a value whose numbers are all of the type.
fn form_in(num: Num, a: Value) -> Option<Form>
    ensures { result ≡ form_in num a.span a.form }
{
    match a.span {
        None => None,
        Some(s) => form_within(num, s, a.form),
    }
}

/// An operand in the type in which its operator works. Its form stays where its numbers are of the type.
fn as_operand(num: Num, a: Value) -> Value
    ensures { result ≡ value_of (as_operand num (held a)) }
{
    let span = match a.span {
        None => None,
        Some(s) => Some(as_span(num, s)),
    };
    Value {
        span,
        form: form_in(num, a),
    }
}

fn sum_forms(f: Option<Form>, g: Option<Form>) -> Option<Form>
    requires first { IfSome f (λ f. IsModest f.c) }
    requires second { IfSome g (λ g. IsModest g.c) }
    ensures { result ≡ both_forms f g sum_form }
{
    match (f, g) {
        (Some(f), Some(g)) => sum_form(f, g),
        (Some(_), None) => None,
        (None, _) => None,
    }
}

/// The form of a difference.
pub(crate) fn difference_forms(f: Option<Form>, g: Option<Form>) -> Option<Form>
    requires first { IfSome f (λ f. IsModest f.c) }
    requires second { IfSome g (λ g. IsModest g.c) }
    ensures { result ≡ both_forms f g difference_form }
{
    match (f, g) {
        (Some(f), Some(g)) => difference_form(f, g),
        (Some(_), None) => None,
        (None, _) => None,
    }
}

/// The form of a sum whose exact numbers are of the type.
fn form_of_sum(num: Num, a: Value, b: Value) -> Option<Form>
    requires first { IsTame a }
    requires second { IsTame b }
    ensures { result ≡ form_in num (both_spans a.span b.span sum_of) (both_forms a.form b.form sum_form) }
{
    match (a.span, b.span) {
        (Some(s), Some(t)) => form_within(num, s.add(t), sum_forms(a.form, b.form)),
        (Some(_), None) => None,
        (None, _) => None,
    }
}

/// The form of a difference whose exact numbers are of the type.
fn form_of_difference(num: Num, a: Value, b: Value) -> Option<Form>
    requires first { IsTame a }
    requires second { IsTame b }
    ensures { result ≡ form_in num (both_spans a.span b.span difference_of) (both_forms a.form b.form difference_form) }
{
    match (a.span, b.span) {
        (Some(s), Some(t)) => form_within(num, s.sub(t), difference_forms(a.form, b.form)),
        (Some(_), None) => None,
        (None, _) => None,
    }
}

/// The form of what an operator makes of operands in the type.
#[tactic(auto, unfolding(sa_flat::specs::Meanings::operation_form))]
fn operation_form(op: Operator, num: Num, a: Value, b: Value) -> Option<Form>
    requires first { IsTame a }
    requires second { IsTame b }
    ensures { result ≡ operation_form op num (held a) (held b) tt }
{
    match op {
        Operator::Plus => form_of_sum(num, a, b),
        Operator::Minus => form_of_difference(num, a, b),
        Operator::Times
        | Operator::Divide
        | Operator::Remainder
        | Operator::ShiftLeft
        | Operator::ShiftRight
        | Operator::Less
        | Operator::LessEqual
        | Operator::Greater
        | Operator::GreaterEqual
        | Operator::Equal
        | Operator::NotEqual
        | Operator::BitAnd
        | Operator::BitXor
        | Operator::BitOr => None,
    }
}

/// What a form is taken from 0.
pub(crate) fn negative_form(f: Option<Form>) -> Option<Form>
    requires { IfSome f (λ f. IsModest f.c) }
    ensures { result ≡ option_map negative f }
{
    match f {
        None => None,
        Some(f) => Some(negative(f)),
    }
}

/// The form of a value that is taken from 0, where the exact numbers are of the type.
fn form_of_negative(num: Num, a: Value) -> Option<Form>
    requires { IsTame a }
    ensures { result ≡ form_in num (option_map (negated_span num) a.span) (option_map negative a.form) }
{
    match a.span {
        None => None,
        Some(s) => form_within(num, Interval::single(0).sub(s), negative_form(a.form)),
    }
}

/// The form of what an operator makes of the operand behind it, which is in the type. Unary plus has none.
#[tactic(auto, unfolding(sa_flat::specs::Meanings::prefix_form))]
fn prefix_form(op: Prefix, num: Num, a: Value) -> Option<Form>
    requires { IsTame a }
    ensures { result ≡ prefix_form op num (held a) tt }
{
    match op {
        Prefix::Minus => form_of_negative(num, a),
        Prefix::Plus | Prefix::Not | Prefix::Complement => None,
    }
}

/// What an operator makes of two values, which aren't converted to its type yet.
#[tactic(auto, using(crate::proofs::Tame::as_operand_tame))]
pub(crate) fn operated(op: Operator, num: Num, a: Value, b: Value) -> Value
    requires first { IfSome a.span (λ s. Suits num s) }
    requires second { IfSome b.span (λ s. SuitsRight op num s) }
    requires first_tame { IsTame a }
    requires second_tame { IsTame b }
    ensures { result ≡ operated op num a b }
{
    let span = linked(op, num, a.span, b.span);
    let form = operation_form(op, num, as_operand(num, a), as_operand(num, b));
    Value { span, form }
}

/// What an operator makes of two operands; None where one has no value.
fn linked(op: Operator, num: Num, a: Option<Interval>, b: Option<Interval>) -> Option<Interval>
    requires first { IfSome a (λ s. Suits num s) }
    requires second { IfSome b (λ s. SuitsRight op num s) }
    ensures { result ≡ linked op num a b }
{
    match (a, b) {
        (Some(s), Some(t)) => operator_span(op, num, s, t),
        (Some(_), None) => None,
        (None, _) => None,
    }
}

/// What an operator makes of the value behind it, which isn't converted to its type yet.
#[tactic(auto, using(crate::proofs::Tame::as_operand_tame))]
pub(crate) fn prefixed(op: Prefix, num: Num, a: Value) -> Value
    requires span { IfSome a.span (λ s. Suits num s) }
    requires tame { IsTame a }
    ensures { result ≡ prefixed op num a }
{
    let span = match a.span {
        None => None,
        Some(s) => prefix_span(op, num, s),
    };
    let form = prefix_form(op, num, as_operand(num, a));
    Value { span, form }
}

/// What a conversion by a cast or an assignment makes of a value.
pub(crate) fn converted(num: Num, a: Value) -> Value
    requires { IfSome a.span (λ s. IsSmallSpan s) }
    ensures { result ≡ converted num a }
{
    let span = match a.span {
        None => None,
        Some(s) => converted_span(num, s),
    };
    Value {
        span,
        form: form_in(num, a),
    }
}

/// One number.
pub(crate) fn number(n: u64) -> Value
    ensures { result ≡ value_of (number_operand (pos n)) }
{
    Value {
        span: Some(Interval::single(i128::from(n))),
        form: Some(constant(i128::from(n))),
    }
}
