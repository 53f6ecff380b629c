//! What operators and conversions make of intervals, and the alarms that checking mode notes at them.

ghost use Rattle.std.specs.Prelude.{ℤ, ◌≡◌, ◌≤ℤ◌, negsuc, ◌++◌, ◌^◌, ◌-◌, pos, ◌&&◌, ◌||◌, not, Some, IfSome, OnOk};
ghost use Rattle.sa_base.specs.declared.pos.Pos.{Pos};
ghost use Rattle.sa_interval.specs.Span.{Span, Within, IsPart};
ghost use Rattle.sa_interval.specs.Rows.{single, is_zero, is_part, meet_of, sum_of, difference_of, product_of};
ghost use Rattle.sa_interval.specs.Types.{IsTypeRange};
ghost use Rattle.sa_interval.specs.BitRows.{right_shift_of, and_of, or_of, xor_of, complement_of, wrap_of};
ghost use Rattle.sa_base.specs.Numbers.{num_lo};
ghost use Rattle.sa_typed.specs.Arithmetic.{bits, is_signed, converted, operate, prefixed, result_type, prefix_type};
ghost use Rattle.sa_operators.specs.Operators.{range_of, IsIn, as_span, in_type_span, fitted_span, converted_span, alarm_if, fit_alarms, fit_alarms_if, conversion_alarms, may_be, quotient_span, quotient_alarms, remainder_alarms, counts, not_below_zero, shiftable, left_shifts, left_shift_span, may_leave, left_shift_errs, right_shift_span, truth_span, always_equal, never_equal, less_span, less_equal_span, operator_span, operator_alarms, negated_span, prefix_span, prefix_alarms};
ghost use Rattle.sa_operators.specs.OperatorLaws.{IsSmallSpan, Suits, SuitsRight, Covers};
ghost use Rattle.sa_operators.specs.Alarms.{noted};

use sa_base::{Alarm, Kind, Num, OutOfMemory, Pos};
use sa_interval::Interval;
use sa_typed::{Operator, Prefix, bits, is_signed};

#[tactic(auto, using(crate::proofs::CodeLaws::range_interval))]
/// The numbers of a type.
pub fn range_of(num: Num) -> Interval
    ensures value { result ≡ range_of num }
    ensures whole { IsTypeRange result }
{
    Interval::new(num.lo(), num.hi())
}

#[tactic(auto, using(crate::proofs::CodeLaws::width_is))]
/// Wrapped to the bits of a type.
fn wrap(num: Num, s: Interval) -> Interval
    ensures { result ≡ wrap_of s (bits num) }
{
    s.wrap(bits(num))
}

#[tactic(auto, unfolding(crate::specs::Operators::as_span))]
/// An operand converted to the type in which its operator works (ISO C 6.3.1.8).
pub fn as_span(num: Num, s: Interval) -> Interval
    ensures { result ≡ as_span num s }
{
    if is_signed(num) { s } else { wrap(num, s) }
}

#[tactic(auto, unfolding(crate::specs::Operators::in_type_span))]
/// Results or converted numbers in a type: of a signed one those that it holds, of an unsigned one what wrapping leaves.
fn in_type_span(num: Num, s: Interval) -> Option<Interval>
    ensures { result ≡ in_type_span num s }
{
    if is_signed(num) {
        s.meet(range_of(num))
    } else {
        Some(wrap(num, s))
    }
}

/// Numbers converted by a cast or an assignment (ISO C 6.3.1.3). It covers the conversion of numbers.
pub fn converted_span(num: Num, s: Interval) -> Option<Interval>
    requires { IsSmallSpan s }
    ensures row { result ≡ converted_span num s }
    ensures in_type { IfSome result (λ s. IsIn num s) }
    ensures covers { (p : Pos) (z : ℤ) → Within s z → Covers p result (conversion_alarms num p s) (converted num z) }
{
    in_type_span(num, s)
}

#[tactic(auto, unfolding(crate::specs::Alarms::noted))]
/// Adds the alarm where there may be an error; in iteration nothing is added.
fn note_if(
    checking: bool,
    may: bool,
    pos: Pos,
    kind: Kind,
    alarms: &mut Vec<Alarm>,
) -> Result<(), OutOfMemory>
    ensures { OnOk result (alarms.new.items ≡ alarms.old.items ++ noted checking (alarm_if may pos kind)) }
{
    if checking && may {
        alarms.push(Alarm { pos, kind })?;
    }
    Ok(())
}

/// Whether a signed type may not hold a number.
fn may_not_fit(num: Num, s: Interval) -> bool
    ensures { result ≡ (is_signed num && not (is_part s (range_of num))) }
{
    is_signed(num) && !s.le(range_of(num))
}

#[tactic(auto, unfolding(crate::specs::Operators::fit_alarms))]
/// Adds the alarm where a signed type may not hold a number.
fn note_fit(
    checking: bool,
    num: Num,
    pos: Pos,
    kind: Kind,
    s: Interval,
    alarms: &mut Vec<Alarm>,
) -> Result<(), OutOfMemory>
    ensures { OnOk result (alarms.new.items ≡ alarms.old.items ++ noted checking (fit_alarms num pos kind s)) }
{
    note_if(checking, may_not_fit(num, s), pos, kind, alarms)
}

/// Adds the alarm of a conversion by a cast or an assignment.
pub fn note_conversion(
    checking: bool,
    num: Num,
    pos: Pos,
    s: Interval,
    alarms: &mut Vec<Alarm>,
) -> Result<(), OutOfMemory>
    ensures { OnOk result (alarms.new.items ≡ alarms.old.items ++ noted checking (conversion_alarms num pos s)) }
{
    note_fit(checking, num, pos, Kind::Conversion, s, alarms)
}

/// Whether the number may be one of the interval.
fn may_be(s: Interval, z: i128) -> bool
    ensures { result ≡ may_be s z }
{
    s.lo() <= z && z <= s.hi()
}

#[tactic(auto, unfolding(crate::specs::Operators::quotient_span))]
/// The quotients of two intervals of the type.
fn quotient_span(num: Num, a: Interval, b: Interval) -> Option<Interval>
    ensures { result ≡ quotient_span num a b }
{
    in_type_span(num, a.div(b)?)
}

#[tactic(auto, using(crate::proofs::CodeLaws::noted_nothing))]
/// The alarm of a result that is there.
fn note_fit_if(
    checking: bool,
    num: Num,
    pos: Pos,
    kind: Kind,
    s: Option<Interval>,
    alarms: &mut Vec<Alarm>,
) -> Result<(), OutOfMemory>
    ensures { OnOk result (alarms.new.items ≡ alarms.old.items ++ noted checking (fit_alarms_if num pos kind s)) }
{
    match s {
        None => Ok(()),
        Some(s) => note_fit(checking, num, pos, kind, s, alarms),
    }
}

#[tactic(auto, using(crate::proofs::CodeLaws::noted_append), unfolding(crate::specs::Operators::quotient_alarms))]
/// The alarms of a quotient of two intervals of the type.
fn note_quotient(
    checking: bool,
    num: Num,
    pos: Pos,
    a: Interval,
    b: Interval,
    alarms: &mut Vec<Alarm>,
) -> Result<(), OutOfMemory>
    ensures { OnOk result (alarms.new.items ≡ alarms.old.items ++ noted checking (quotient_alarms num pos a b)) }
{
    note_if(checking, may_be(b, 0), pos, Kind::Division, alarms)?;
    note_fit_if(checking, num, pos, Kind::Overflow, a.div(b), alarms)
}

/// Whether the least number may be divided by -1.
fn may_divide_least(num: Num, a: Interval, b: Interval) -> bool
    ensures { result ≡ (is_signed num && (may_be a (num_lo num) && may_be b (negsuc 0))) }
{
    is_signed(num) && may_be(a, num.lo()) && may_be(b, -1)
}

#[tactic(auto, using(crate::proofs::CodeLaws::noted_append), unfolding(crate::specs::Operators::remainder_alarms))]
/// The alarms of a remainder of two intervals of the type.
fn note_remainder(
    checking: bool,
    num: Num,
    pos: Pos,
    a: Interval,
    b: Interval,
    alarms: &mut Vec<Alarm>,
) -> Result<(), OutOfMemory>
    ensures { OnOk result (alarms.new.items ≡ alarms.old.items ++ noted checking (remainder_alarms num pos a b)) }
{
    note_if(checking, may_be(b, 0), pos, Kind::Division, alarms)?;
    note_if(
        checking,
        may_divide_least(num, a, b),
        pos,
        Kind::Overflow,
        alarms,
    )
}

/// The counts of bits by which a number of the type may be shifted.
fn counts(num: Num) -> Interval
    ensures value { result ≡ counts num }
    ensures few { IsPart (counts num) (record { lo = pos 0; hi = pos 63 }) }
{
    Interval::new(0, i128::from(bits(num)) - 1)
}

/// The counts among these numbers.
fn met_counts(num: Num, b: Interval) -> Option<Interval>
    ensures value { result ≡ meet_of b (counts num) }
    ensures few { IfSome result (λ c. IsPart c (record { lo = pos 0; hi = pos 63 })) }
{
    b.meet(counts(num))
}

/// The numbers that may be shifted to the left.
fn not_below_zero(num: Num) -> Interval
    ensures { result ≡ not_below_zero num }
{
    Interval::new(0, num.hi())
}

/// The numbers among these that may be shifted to the left.
fn shiftable(num: Num, a: Interval) -> Option<Interval>
    requires { IsPart a (range_of num) }
    ensures value { result ≡ shiftable num a }
    ensures small { IfSome result (λ m. IsPart m (record { lo = pos 0; hi = pos (2 ^ 64 - 1) })) }
{
    if is_signed(num) {
        a.meet(not_below_zero(num))
    } else {
        Some(a)
    }
}

#[tactic(auto, unfolding(crate::specs::Operators::left_shifts))]
/// The shifts to the left, before they are fitted to the type.
fn left_shifts(num: Num, a: Interval, b: Interval) -> Option<Interval>
    requires { IsPart a (range_of num) }
    ensures { result ≡ left_shifts num a b }
{
    let a = shiftable(num, a)?;
    let count = met_counts(num, b)?;
    Some(a.shl(count))
}

#[tactic(auto, unfolding(crate::specs::Operators::left_shift_span))]
/// The shifts to the left.
fn left_shift_span(num: Num, a: Interval, b: Interval) -> Option<Interval>
    requires { IsPart a (range_of num) }
    ensures { result ≡ left_shift_span num a b }
{
    in_type_span(num, left_shifts(num, a, b)?)
}

/// Whether a result that is there goes outside the type.
fn may_leave(num: Num, s: Option<Interval>) -> bool
    ensures { result ≡ may_leave num s }
{
    match s {
        None => false,
        Some(s) => !s.le(range_of(num)),
    }
}

/// Whether the count may be wrong.
fn count_errs(num: Num, b: Interval) -> bool
    ensures { result ≡ not (is_part b (counts num)) }
{
    !b.le(counts(num))
}

/// Whether the number that is shifted to the left may be negative.
fn may_be_negative(num: Num, a: Interval) -> bool
    ensures { result ≡ not (is_part a (not_below_zero num)) }
{
    !a.le(not_below_zero(num))
}

#[tactic(auto, unfolding(crate::specs::Operators::left_shift_errs))]
/// Whether the count, the number that is shifted to the left or the result may be wrong.
fn left_shift_errs(num: Num, a: Interval, b: Interval) -> bool
    requires { IsPart a (range_of num) }
    ensures { result ≡ left_shift_errs num a b }
{
    let outside = may_leave(num, left_shifts(num, a, b));
    count_errs(num, b) || is_signed(num) && (may_be_negative(num, a) || outside)
}

#[tactic(auto, unfolding(crate::specs::Operators::right_shift_span))]
/// The shifts to the right.
fn right_shift_span(num: Num, a: Interval, b: Interval) -> Option<Interval>
    ensures { result ≡ right_shift_span num a b }
{
    Some(a.shr(met_counts(num, b)?))
}

/// 1 where it always holds, 0 where it never does.
fn truth_span(always: bool, never: bool) -> Interval
    ensures { result ≡ truth_span always never }
{
    match (always, never) {
        (true, _) => Interval::single(1),
        (false, true) => Interval::single(0),
        (false, false) => Interval::new(0, 1),
    }
}

/// Whether the numbers are always equal.
fn always_equal(a: Interval, b: Interval) -> bool
    ensures { result ≡ always_equal a b }
{
    a.lo() == a.hi() && b.lo() == b.hi() && a.lo() == b.lo()
}

/// Whether the numbers are never equal.
fn never_equal(a: Interval, b: Interval) -> bool
    ensures { result ≡ never_equal a b }
{
    a.hi() < b.lo() || b.hi() < a.lo()
}

/// Whether a number of the first is below one of the second.
fn less_span(a: Interval, b: Interval) -> Interval
    ensures { result ≡ less_span a b }
{
    truth_span(a.hi() < b.lo(), b.hi() <= a.lo())
}

/// Whether a number of the first is at most one of the second.
fn less_equal_span(a: Interval, b: Interval) -> Interval
    ensures { result ≡ less_equal_span a b }
{
    truth_span(a.hi() <= b.lo(), b.hi() < a.lo())
}

/// An operand of an operator that works in the type, converted to it.
fn operand(num: Num, s: Interval) -> Interval
    requires { Suits num s }
    ensures value { result ≡ as_span num s }
    ensures part { IsPart result (range_of num) }
{
    as_span(num, s)
}

/// The results of `+` on intervals of the type.
fn sum_span(num: Num, a: Interval, b: Interval) -> Option<Interval>
    ensures { result ≡ fitted_span num (sum_of a b) }
{
    in_type_span(num, a.add(b))
}

/// The results of `-` on intervals of the type.
fn difference_span(num: Num, a: Interval, b: Interval) -> Option<Interval>
    ensures { result ≡ fitted_span num (difference_of a b) }
{
    in_type_span(num, a.sub(b))
}

/// The results of `*` on intervals of the type.
fn product_span(num: Num, a: Interval, b: Interval) -> Option<Interval>
    ensures { result ≡ fitted_span num (product_of a b) }
{
    in_type_span(num, a.mul(b))
}

/// The results of `&` on intervals of the type.
fn and_span(num: Num, a: Interval, b: Interval) -> Interval
    requires a { IsPart a (range_of num) }
    requires b { IsPart b (range_of num) }
    ensures { result ≡ and_of a b (range_of num) }
{
    a.and(b, range_of(num))
}

/// The results of `^` on intervals of the type.
fn xor_span(num: Num, a: Interval, b: Interval) -> Interval
    requires a { IsPart a (range_of num) }
    requires b { IsPart b (range_of num) }
    ensures { result ≡ xor_of a b (range_of num) }
{
    a.xor(b, range_of(num))
}

/// The results of `|` on intervals of the type.
fn or_span(num: Num, a: Interval, b: Interval) -> Interval
    requires a { IsPart a (range_of num) }
    requires b { IsPart b (range_of num) }
    ensures { result ≡ or_of a b (range_of num) }
{
    a.or(b, range_of(num))
}

/// The results of `~` on an interval of the type.
fn complement_span(num: Num, a: Interval) -> Interval
    requires { IsPart a (range_of num) }
    ensures { result ≡ complement_of (range_of num) a }
{
    a.not(range_of(num))
}

/// The results of `==` on intervals of one type.
fn equal_span(a: Interval, b: Interval) -> Interval
    ensures { result ≡ truth_span (always_equal a b) (never_equal a b) }
{
    truth_span(always_equal(a, b), never_equal(a, b))
}

/// The results of `!=` on intervals of one type.
fn unequal_span(a: Interval, b: Interval) -> Interval
    ensures { result ≡ truth_span (never_equal a b) (always_equal a b) }
{
    truth_span(never_equal(a, b), always_equal(a, b))
}

/// Whether it is 0 alone.
fn is_zero(a: Interval) -> bool
    ensures { result ≡ is_zero a }
{
    a.lo() == 0 && a.hi() == 0
}

/// The results of `!` on an interval.
fn not_span(a: Interval) -> Interval
    ensures { result ≡ truth_span (is_zero a) (not (may_be a (pos 0))) }
{
    truth_span(is_zero(a), !may_be(a, 0))
}

/// The numbers less each of an interval, from 0.
fn negated_span(num: Num, a: Interval) -> Interval
    ensures { result ≡ negated_span num a }
{
    Interval::single(0).sub(a)
}

#[tactic(auto, unfolding(crate::specs::Operators::operator_span))]
/// The row of an operator, by cases.
fn operator_row(op: Operator, num: Num, a: Interval, b: Interval) -> Option<Interval>
    requires left { Suits num a }
    requires right { SuitsRight op num b }
    ensures { result ≡ operator_span op num a b }
{
    let a = operand(num, a);
    match op {
        Operator::Plus => sum_span(num, a, operand(num, b)),
        Operator::Minus => difference_span(num, a, operand(num, b)),
        Operator::Times => product_span(num, a, operand(num, b)),
        Operator::Divide => quotient_span(num, a, operand(num, b)),
        Operator::Remainder => a.rem(operand(num, b)),
        Operator::ShiftLeft => left_shift_span(num, a, b),
        Operator::ShiftRight => right_shift_span(num, a, b),
        Operator::BitAnd => Some(and_span(num, a, operand(num, b))),
        Operator::BitXor => Some(xor_span(num, a, operand(num, b))),
        Operator::BitOr => Some(or_span(num, a, operand(num, b))),
        Operator::Equal => Some(equal_span(a, operand(num, b))),
        Operator::NotEqual => Some(unequal_span(a, operand(num, b))),
        Operator::Less => Some(less_span(a, operand(num, b))),
        Operator::LessEqual => Some(less_equal_span(a, operand(num, b))),
        Operator::Greater => Some(less_span(operand(num, b), a)),
        Operator::GreaterEqual => Some(less_equal_span(operand(num, b), a)),
    }
}

/// What an operator that works in the type makes of two intervals, which aren't converted to it yet; None where it has no
/// value. It covers the operator on numbers.
pub fn operator_span(op: Operator, num: Num, a: Interval, b: Interval) -> Option<Interval>
    requires left { Suits num a }
    requires right { SuitsRight op num b }
    ensures row { result ≡ operator_span op num a b }
    ensures in_type { IfSome result (λ s. IsIn (result_type op num) s) }
    ensures covers { (p : Pos) (x y : ℤ) → Within a x → Within b y → Covers p result (operator_alarms op p num a b) (operate op num x y) }
{
    operator_row(op, num, a, b)
}

#[tactic(auto, using(crate::proofs::CodeLaws::noted_nothing), unfolding(crate::specs::Operators::operator_alarms))]
/// Adds the alarms of an operator that works in the type, of two intervals, which aren't converted to it yet; in iteration
/// nothing is added.
pub fn note_operator(
    checking: bool,
    op: Operator,
    pos: Pos,
    num: Num,
    a: Interval,
    b: Interval,
    alarms: &mut Vec<Alarm>,
) -> Result<(), OutOfMemory>
    requires left { Suits num a }
    requires right { SuitsRight op num b }
    ensures { OnOk result (alarms.new.items ≡ alarms.old.items ++ noted checking (operator_alarms op pos num a b)) }
{
    let a = operand(num, a);
    match op {
        Operator::Plus => note_fit(
            checking,
            num,
            pos,
            Kind::Overflow,
            a.add(operand(num, b)),
            alarms,
        ),
        Operator::Minus => note_fit(
            checking,
            num,
            pos,
            Kind::Overflow,
            a.sub(operand(num, b)),
            alarms,
        ),
        Operator::Times => note_fit(
            checking,
            num,
            pos,
            Kind::Overflow,
            a.mul(operand(num, b)),
            alarms,
        ),
        Operator::Divide => note_quotient(checking, num, pos, a, operand(num, b), alarms),
        Operator::Remainder => note_remainder(checking, num, pos, a, operand(num, b), alarms),
        Operator::ShiftLeft => note_if(
            checking,
            left_shift_errs(num, a, b),
            pos,
            Kind::Shift,
            alarms,
        ),
        Operator::ShiftRight => note_if(checking, count_errs(num, b), pos, Kind::Shift, alarms),
        Operator::BitAnd
        | Operator::BitXor
        | Operator::BitOr
        | Operator::Equal
        | Operator::NotEqual
        | Operator::Less
        | Operator::LessEqual
        | Operator::Greater
        | Operator::GreaterEqual => Ok(()),
    }
}

#[tactic(auto, unfolding(crate::specs::Operators::prefix_span))]
/// The row of an operator before its operand, by cases.
fn prefix_row(op: Prefix, num: Num, a: Interval) -> Option<Interval>
    requires { Suits num a }
    ensures { result ≡ prefix_span op num a }
{
    let a = operand(num, a);
    match op {
        Prefix::Minus => in_type_span(num, negated_span(num, a)),
        Prefix::Plus => Some(a),
        Prefix::Complement => Some(complement_span(num, a)),
        Prefix::Not => Some(not_span(a)),
    }
}

/// What an operator before its operand makes of an interval in the type, to which it isn't converted yet; None where it has
/// no value. It covers the operator on numbers.
pub fn prefix_span(op: Prefix, num: Num, a: Interval) -> Option<Interval>
    requires { Suits num a }
    ensures row { result ≡ prefix_span op num a }
    ensures in_type { IfSome result (λ s. IsIn (prefix_type op num) s) }
    ensures covers { (p : Pos) (x : ℤ) → Within a x → Covers p result (prefix_alarms op p num a) (prefixed op num x) }
{
    prefix_row(op, num, a)
}

#[tactic(auto, using(crate::proofs::CodeLaws::noted_nothing), unfolding(crate::specs::Operators::prefix_alarms))]
/// Adds the alarms of an operator before its operand; in iteration nothing is added.
pub fn note_prefix(
    checking: bool,
    op: Prefix,
    pos: Pos,
    num: Num,
    a: Interval,
    alarms: &mut Vec<Alarm>,
) -> Result<(), OutOfMemory>
    requires { Suits num a }
    ensures { OnOk result (alarms.new.items ≡ alarms.old.items ++ noted checking (prefix_alarms op pos num a)) }
{
    let a = operand(num, a);
    match op {
        Prefix::Minus => note_fit(
            checking,
            num,
            pos,
            Kind::Overflow,
            negated_span(num, a),
            alarms,
        ),
        Prefix::Plus | Prefix::Complement | Prefix::Not => Ok(()),
    }
}
