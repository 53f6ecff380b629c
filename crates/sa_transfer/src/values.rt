//! Values of expressions: their intervals, and the alarms that they may raise.

ghost use Rattle.std.specs.Prelude.{◌≡◌, ◌++◌, pos, Some, IfOk, IfSome, OnOk, option_map};
ghost use Rattle.std.specs.List.{All};
ghost use Rattle.sa_interval.specs.Rows.{single, meet_of, is_part};
ghost use Rattle.sa_typed.specs.Arithmetic.{result_type};
ghost use Rattle.sa_typed.specs.Cells.{cells};
ghost use Rattle.sa_typed.specs.WellTyped.{type_of, IsTypedExpr, IsTypedStep};
ghost use Rattle.sa_operators.specs.Alarms.{noted};
ghost use Rattle.sa_operators.specs.Operators.{IsIn, prefix_span, prefix_alarms, converted_span, conversion_alarms, operator_alarms};
ghost use Rattle.sa_operators.specs.OperatorLaws.{IsSmallSpan, Suits, SuitsRight};
ghost use Rattle.sa_reference.specs.Passes.{alive_then};
ghost use Rattle.sa_reference.specs.Sound.{widest};
ghost use Rattle.sa_reference.specs.Values.{indices, cell_span, joined, index_reach, index_alarms, with_one, with_both, linked, span_of, alarms_of, reach_of, step_alarms, access_cells, access_alarms};
ghost use Rattle.sa_reference.specs.Assignments.{read_of};
ghost use Rattle.sa_reference.specs.Fair.{AreIn};
ghost use Rattle.sa_cells.specs.Grounds.{IsGround};
ghost use Rattle.sa_transfer.specs.Lists.{AreAfter, span_after, alarms_after, HasTypedSteps, reached, indices_alarms, with_reach, join_with};

use crate::OutOfMemory;
use sa_base::{Alarm, Kind, Num, Pos};
use sa_cells::{Ground, named};
use sa_interval::Interval;
use sa_operators::{
    converted_span, note_conversion, note_operator, note_prefix, operator_span, prefix_span,
    range_of,
};
use sa_reference::{Flat, Reach};
use sa_typed::{Access, Expr, Link, Operator, Prefix, Program, Step};
use sqlite_items::Items;
use std::alloc::Global;

// ---- operations, where an operand may be missing

#[tactic(auto, using(sa_operators::proofs::CodeLaws::noted_nothing))]
/// What an operator before its operand makes of it, with its alarm.
fn prefixed(
    op: Prefix,
    pos: Pos,
    num: Num,
    operand: Option<Interval>,
    checking: bool,
    alarms: &mut Vec<Alarm>,
) -> Result<Option<Interval>, OutOfMemory>
    requires { IfSome operand (λ s. Suits num s) }
    ensures value { IfOk result (λ o. o ≡ alive_then operand (prefix_span op num)) }
    ensures alarms { OnOk result (alarms.new.items ≡ alarms.old.items ++ noted checking (with_one operand (prefix_alarms op pos num))) }
{
    match operand {
        None => Ok(None),
        Some(s) => {
            note_prefix(checking, op, pos, num, s, alarms)?;
            Ok(prefix_span(op, num, s))
        }
    }
}

#[tactic(auto, using(sa_operators::proofs::CodeLaws::noted_nothing))]
/// What a conversion by a cast or an assignment makes of a value, with its alarm.
pub fn converted(
    num: Num,
    pos: Pos,
    value: Option<Interval>,
    checking: bool,
    alarms: &mut Vec<Alarm>,
) -> Result<Option<Interval>, OutOfMemory>
    requires { IfSome value (λ s. IsSmallSpan s) }
    ensures value { IfOk result (λ o. o ≡ alive_then value (converted_span num)) }
    ensures alarms { OnOk result (alarms.new.items ≡ alarms.old.items ++ noted checking (with_one value (conversion_alarms num pos))) }
    ensures in_type { IfOk result (λ o. IfSome o (λ s. IsIn num s)) }
{
    match value {
        None => Ok(None),
        Some(s) => {
            note_conversion(checking, num, pos, s, alarms)?;
            Ok(converted_span(num, s))
        }
    }
}

#[tactic(auto, using(sa_operators::proofs::CodeLaws::noted_nothing))]
/// What an operator makes of its operands, with its alarms.
pub fn operated(
    op: Operator,
    pos: Pos,
    num: Num,
    left: Option<Interval>,
    right: Option<Interval>,
    checking: bool,
    alarms: &mut Vec<Alarm>,
) -> Result<Option<Interval>, OutOfMemory>
    requires left { IfSome left (λ s. Suits num s) }
    requires right { IfSome right (λ s. SuitsRight op num s) }
    ensures value { IfOk result (λ o. o ≡ linked op num left right) }
    ensures alarms { OnOk result (alarms.new.items ≡ alarms.old.items ++ noted checking (with_both left right (operator_alarms op pos num))) }
    ensures in_type { IfOk result (λ o. IfSome o (λ s. IsIn (result_type op num) s)) }
{
    match (left, right) {
        (Some(a), Some(b)) => {
            note_operator(checking, op, pos, num, a, b, alarms)?;
            Ok(operator_span(op, num, a, b))
        }
        (Some(_), None) => Ok(None),
        (None, _) => Ok(None),
    }
}

// ---- indices

/// Whether each number of the interval is an index of an array of `n`.
fn are_indices(s: Interval, n: u32) -> bool
    ensures { result ≡ is_part s (indices n) }
{
    0 <= s.lo() && s.hi() <= i128::from(n) - 1
}

#[tactic(auto, unfolding(sa_operators::specs::Alarms::noted))]
/// Adds the alarm of an index that may name no element of an array of `n`.
fn note_index(
    pos: Pos,
    n: u32,
    s: Interval,
    checking: bool,
    alarms: &mut Vec<Alarm>,
) -> Result<(), OutOfMemory>
    ensures { OnOk result (alarms.new.items ≡ alarms.old.items ++ noted checking (index_alarms pos n s)) }
{
    if checking && !are_indices(s, n) {
        alarms.push(Alarm {
            pos,
            kind: Kind::Index,
        })?;
    }
    Ok(())
}

/// The indices of an array of `n` that lie in the interval.
fn met_indices(s: Interval, n: u32) -> Option<Interval>
    ensures { result ≡ meet_of s (indices n) }
{
    if n == 0 {
        None
    } else {
        s.meet(Interval::new(0, i128::from(n) - 1))
    }
}

fn at(s: Option<Interval>) -> Option<Reach>
    ensures { result ≡ option_map Reach.At s }
{
    match s {
        None => None,
        Some(s) => Some(Reach::At(s)),
    }
}

#[tactic(auto, using(sa_operators::proofs::CodeLaws::noted_nothing))]
/// The elements of an array of `n` that an index may name, with its alarm.
fn index_reach(
    pos: Pos,
    n: u32,
    index: Option<Interval>,
    checking: bool,
    alarms: &mut Vec<Alarm>,
) -> Result<Option<Reach>, OutOfMemory>
    ensures value { IfOk result (λ o. o ≡ index_reach n index) }
    ensures alarms { OnOk result (alarms.new.items ≡ alarms.old.items ++ noted checking (with_one index (index_alarms pos n))) }
{
    match index {
        None => Ok(None),
        Some(s) => {
            note_index(pos, n, s, checking, alarms)?;
            Ok(at(met_indices(s, n)))
        }
    }
}

#[tactic(auto, unfolding(crate::specs::Lists::with_reach))]
/// Steps with one more; None where one is missing.
pub fn with_reach(
    reaches: Option<Items<Reach>>,
    reach: Option<Reach>,
) -> Result<Option<Items<Reach>>, OutOfMemory>
    ensures { IfOk result (λ o. o ≡ with_reach reaches reach) }
{
    match (reaches, reach) {
        (Some(mut reaches), Some(reach)) => {
            reaches.push(reach)?;
            Ok(Some(reaches))
        }
        (Some(_), None) => Ok(None),
        (None, _) => Ok(None),
    }
}

// ---- cells

/// The interval of a cell; a cell that isn't there is 0.
pub fn cell_span(spans: &[Interval], k: usize) -> Interval
    ensures { result ≡ cell_span spans.now k }
{
    if k < spans.len() {
        spans[k]
    } else {
        Interval::single(0)
    }
}

/// The least interval that holds what was read so far and one more.
fn join_with(so_far: Option<Interval>, s: Interval) -> Interval
    ensures { result ≡ join_with so_far s }
{
    match so_far {
        None => s,
        Some(a) => a.join(s),
    }
}

#[tactic(auto, using(crate::proofs::ListLaws::of_joined))]
/// The least interval that holds those of the cells, None where there is no cell.
fn joined(spans: &[Interval], ks: &[usize]) -> Option<Interval>
    ensures { result ≡ joined spans.now ks.now }
{
    let mut so_far = None;
    for k in ks {
        so_far = Some(join_with(so_far, cell_span(spans, *k)));
    }
    so_far
}

/// What is read of the cells of a place.
pub fn read_of(spans: &[Interval], ks: &Option<Items<usize>>) -> Option<Interval>
    ensures { result ≡ alive_then ks.now (joined spans.now) }
{
    match ks {
        None => None,
        Some(ks) => joined(spans, ks.as_slice()),
    }
}

// ---- expressions

#[cycle(values)]
#[tactic(auto, using(crate::proofs::FormLaws::of_forms, sa_operators::proofs::CodeLaws::noted_nothing))]
/// The interval of an expression, by its form.
fn span_of(
    alloc: Global,
    program: &Program,
    ground: &Ground,
    env: &Flat,
    e: &Expr,
    checking: bool,
    alarms: &mut Vec<Alarm>,
) -> Result<Option<Interval>, OutOfMemory>
    requires ground { IsGround program.now ground.now }
    requires typed { IsTypedExpr program.now e.now }
    requires spans { AreIn (cells program.now) env.now.cells }
    ensures value { IfOk result (λ o. o ≡ span_of program.now (widest program.now) env.now e.now) }
    ensures alarms { OnOk result (alarms.new.items ≡ alarms.old.items ++ noted checking (alarms_of program.now (widest program.now) env.now e.now)) }
{
    match e {
        Expr::Number(n, _) => Ok(Some(Interval::single(i128::from(*n)))),
        Expr::Read(access, _) => {
            let ks = named_cells(alloc, program, ground, env, access, checking, alarms)?;
            Ok(read_of(env.cells.as_slice(), &ks))
        }
        Expr::Input(_, num) => Ok(Some(range_of(*num))),
        Expr::Prefix(op, pos, num, operand) => {
            let s = span_of(alloc, program, ground, env, operand.get(), checking, alarms)?;
            prefixed(*op, *pos, *num, s, checking, alarms)
        }
        Expr::Cast(pos, num, operand) => {
            let s = span_of(alloc, program, ground, env, operand.get(), checking, alarms)?;
            converted(*num, *pos, s, checking, alarms)
        }
        Expr::Chain(first, links) => {
            let s = span_of(alloc, program, ground, env, first.get(), checking, alarms)?;
            span_after(
                alloc,
                program,
                ground,
                env,
                links.as_slice(),
                s,
                checking,
                alarms,
            )
        }
        // typing gives none of these yet
        Expr::And(_, _) | Expr::Or(_, _) | Expr::Choice(_, _, _, _) => Ok(None),
    }
}

#[cycle(values)]
#[allow(clippy::too_many_arguments)]
/// What operators make of a value, from left to right.
fn span_after(
    alloc: Global,
    program: &Program,
    ground: &Ground,
    env: &Flat,
    links: &[Link],
    first: Option<Interval>,
    checking: bool,
    alarms: &mut Vec<Alarm>,
) -> Result<Option<Interval>, OutOfMemory>
    requires ground { IsGround program.now ground.now }
    requires typed { AreAfter program.now first links.now }
    requires spans { AreIn (cells program.now) env.now.cells }
    ensures value { IfOk result (λ o. o ≡ span_after program.now env.now links.now first) }
    ensures alarms { OnOk result (alarms.new.items ≡ alarms.old.items ++ noted checking (alarms_after program.now env.now links.now first)) }
{
    let mut value = first;
    for link in links {
        let right = span_of(alloc, program, ground, env, &link.operand, checking, alarms)?;
        value = operated(link.op, link.pos, link.num, value, right, checking, alarms)?;
    }
    Ok(value)
}

#[cycle(values)]
#[tactic(auto, using(crate::proofs::FormLaws::of_forms, sa_operators::proofs::CodeLaws::noted_nothing))]
/// The numbers of the cells that an access names, None where an index has no value.
pub fn named_cells(
    alloc: Global,
    program: &Program,
    ground: &Ground,
    env: &Flat,
    access: &Access,
    checking: bool,
    alarms: &mut Vec<Alarm>,
) -> Result<Option<Items<usize>>, OutOfMemory>
    requires ground { IsGround program.now ground.now }
    requires typed { HasTypedSteps program.now access.now }
    requires spans { AreIn (cells program.now) env.now.cells }
    ensures value { IfOk result (λ o. o ≡ access_cells program.now (widest program.now) env.now access.now) }
    ensures alarms { OnOk result (alarms.new.items ≡ alarms.old.items ++ noted checking (access_alarms program.now (widest program.now) env.now access.now)) }
{
    match reached(
        alloc,
        program,
        ground,
        env,
        access.steps.as_slice(),
        checking,
        alarms,
    )? {
        None => Ok(None),
        Some(reaches) => {
            let ks = named(alloc, program, ground, access.var, reaches.as_slice())?;
            Ok(Some(Items::from_vec(ks)))
        }
    }
}

#[cycle(values)]
/// The steps that an access may take, None where an index has no value.
pub fn reached(
    alloc: Global,
    program: &Program,
    ground: &Ground,
    env: &Flat,
    steps: &[Step],
    checking: bool,
    alarms: &mut Vec<Alarm>,
) -> Result<Option<Items<Reach>>, OutOfMemory>
    requires ground { IsGround program.now ground.now }
    requires typed { All (IsTypedStep program.now) steps.now }
    requires spans { AreIn (cells program.now) env.now.cells }
    ensures value { IfOk result (λ o. o ≡ reached program.now env.now steps.now) }
    ensures alarms { OnOk result (alarms.new.items ≡ alarms.old.items ++ noted checking (indices_alarms program.now env.now steps.now)) }
{
    let mut reaches = Some(Items::new(alloc));
    for step in steps {
        let reach = reach_of(alloc, program, ground, env, step, checking, alarms)?;
        reaches = with_reach(reaches, reach)?;
    }
    Ok(reaches)
}

#[cycle(values)]
#[tactic(auto, using(crate::proofs::FormLaws::of_forms, sa_operators::proofs::CodeLaws::noted_nothing))]
/// Where one step may lead.
fn reach_of(
    alloc: Global,
    program: &Program,
    ground: &Ground,
    env: &Flat,
    step: &Step,
    checking: bool,
    alarms: &mut Vec<Alarm>,
) -> Result<Option<Reach>, OutOfMemory>
    requires ground { IsGround program.now ground.now }
    requires typed { IsTypedStep program.now step.now }
    requires spans { AreIn (cells program.now) env.now.cells }
    ensures value { IfOk result (λ o. o ≡ reach_of program.now (widest program.now) env.now step.now) }
    ensures alarms { OnOk result (alarms.new.items ≡ alarms.old.items ++ noted checking (step_alarms program.now (widest program.now) env.now step.now)) }
{
    match step {
        Step::At(pos, n, index) => {
            let s = span_of(alloc, program, ground, env, index.get(), checking, alarms)?;
            index_reach(*pos, *n, s, checking, alarms)
        }
        Step::Field(f) => Ok(Some(Reach::Into(*f))),
    }
}

/// The interval of an expression, None where it has no value. In checking mode its alarms go to the end of `alarms`.
pub fn value(
    alloc: Global,
    program: &Program,
    ground: &Ground,
    env: &Flat,
    e: &Expr,
    checking: bool,
    alarms: &mut Vec<Alarm>,
) -> Result<Option<Interval>, OutOfMemory>
    requires ground { IsGround program.now ground.now }
    requires typed { IsTypedExpr program.now e.now }
    requires spans { AreIn (cells program.now) env.now.cells }
    ensures value { IfOk result (λ o. o ≡ span_of program.now (widest program.now) env.now e.now) }
    ensures alarms { OnOk result (alarms.new.items ≡ alarms.old.items ++ noted checking (alarms_of program.now (widest program.now) env.now e.now)) }
    ensures in_type { IfOk result (λ o. IfSome o (λ s. IsIn (type_of e.now) s)) }
{
    span_of(alloc, program, ground, env, e, checking, alarms)
}
