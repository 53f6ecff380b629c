//! Statements that change the store alone.

ghost use Rattle.std.specs.Prelude.{List, ◌≡◌, ◌++◌, Some, IfOk, IfSome, OnErr, OnOk};
ghost use Rattle.sa_typed.specs.declared.shape.StructDef.{StructDef};
ghost use Rattle.sa_typed.specs.Cells.{cells};
ghost use Rattle.sa_typed.specs.Layouts.{leaf, shape_layout, layout_of, num_in};
ghost use Rattle.sa_typed.specs.WellTyped.{type_of, IsLink, IsTyped, IsTypedAccess, IsTypedExpr, IsTypedSimple, IsTypedStart};
ghost use Rattle.sa_reference.specs.Sound.{widest};
ghost use Rattle.sa_operators.specs.Alarms.{noted};
ghost use Rattle.sa_operators.specs.Operators.{IsIn, operator_alarms};
ghost use Rattle.sa_reference.specs.Passes.{alive_then};
ghost use Rattle.sa_reference.specs.Values.{span_of, alarms_of, linked, with_both, access_cells, access_alarms, fixed_access_cells};
ghost use Rattle.sa_reference.specs.Assignments.{with_cells, copied, assign_to, value_as, read_of, assign_alarms, declare_of, declare_alarms, simple_of, simple_alarms};
ghost use Rattle.sa_reference.specs.Fair.{AreIn, alive_env};
ghost use Rattle.sa_cells.specs.Grounds.{IsGround};
ghost use Rattle.sa_transfer.specs.Lists.{HasTypedSteps, AreAlike, IsCopy, copy_of};

use crate::OutOfMemory;
use crate::cells::{assign_by, copy_by, spans_at};
use crate::fixed::fixed_cells;
use crate::values::{converted, named_cells, operated, reached, read_of, value};
use sa_base::{Alarm, Num, Pos};
use sa_cells::{Ground, named, set_items, set_ranges};
use sa_interval::Interval;
use sa_reference::Flat;
use sa_typed::{Access, Expr, Operator, Plain, Program, Shape, Simple, Start};
use sqlite_items::Items;
use std::alloc::Global;

/// Assigns an interval to the cells that an access names, and answers whether both are there.
fn assign_to(
    program: &Program,
    ground: &Ground,
    ks: Option<Items<usize>>,
    s: Option<Interval>,
    env: &mut Flat,
) -> bool
    requires ground { IsGround program.now ground.now }
    requires alike { AreAlike (cells program.now) ks s }
    requires spans { AreIn (cells program.now) env.old.cells }
    ensures env { assign_to program.now env.old ks s ≡ alive_env result env.new }
    ensures kept { AreIn (cells program.now) env.new.cells }
    ensures clock { env.new.clock ≡ env.old.clock }
{
    match (ks, s) {
        (Some(ks), Some(s)) => {
            assign_by(ground.starred.as_slice(), &mut env.cells, ks.as_slice(), s);
            true
        }
        (Some(_), None) => false,
        (None, _) => false,
    }
}

/// The value of an expression as it is assigned to a type.
#[allow(clippy::too_many_arguments)]
fn value_as(
    alloc: Global,
    program: &Program,
    ground: &Ground,
    env: &Flat,
    num: Num,
    pos: Pos,
    e: &Expr,
    checking: bool,
    alarms: &mut Vec<Alarm>,
) -> Result<Option<Interval>, OutOfMemory>
    requires ground { IsGround program.now ground.now }
    requires typed { IsTypedExpr program.now e.now }
    requires spans { AreIn (cells program.now) env.now.cells }
    ensures value { IfOk result (λ o. o ≡ value_as num (span_of program.now (widest program.now) env.now e.now)) }
    ensures alarms { OnOk result (alarms.new.items ≡ alarms.old.items ++ noted checking
        (alarms_of program.now (widest program.now) env.now e.now ++ assign_alarms num pos (span_of program.now (widest program.now) env.now e.now))) }
    ensures in_type { IfOk result (λ o. IfSome o (λ s. IsIn num s)) }
{
    let s = value(alloc, program, ground, env, e, checking, alarms)?;
    converted(num, pos, s, checking, alarms)
}

/// Assigns the value of an expression.
#[allow(clippy::too_many_arguments)]
fn assign(
    alloc: Global,
    program: &Program,
    ground: &Ground,
    access: &Access,
    num: Num,
    pos: Pos,
    e: &Expr,
    env: &mut Flat,
    checking: bool,
    alarms: &mut Vec<Alarm>,
) -> Result<bool, OutOfMemory>
    requires ground { IsGround program.now ground.now }
    requires access { IsTypedAccess program.now (leaf num) access.now }
    requires typed { IsTypedExpr program.now e.now }
    requires spans { AreIn (cells program.now) env.old.cells }
    ensures env { IfOk result (λ alive. assign_to program.now env.old (access_cells program.now (widest program.now) env.old access.now)
        (value_as num (span_of program.now (widest program.now) env.old e.now)) ≡ alive_env alive env.new) }
    ensures alarms { OnOk result (alarms.new.items ≡ alarms.old.items ++ noted checking (access_alarms program.now (widest program.now) env.old access.now
        ++ (alarms_of program.now (widest program.now) env.old e.now ++ assign_alarms num pos (span_of program.now (widest program.now) env.old e.now)))) }
    ensures kept { AreIn (cells program.now) env.new.cells }
    ensures clock { env.new.clock ≡ env.old.clock }
{
    let ks = named_cells(alloc, program, ground, env, access, checking, alarms)?;
    let s = value_as(alloc, program, ground, env, num, pos, e, checking, alarms)?;
    Ok(assign_to(program, ground, ks, s, env))
}

/// What a compound assignment makes of the number that was read, as it is assigned to its type.
#[allow(clippy::too_many_arguments)]
fn compound_value(
    alloc: Global,
    program: &Program,
    ground: &Ground,
    env: &Flat,
    left: Option<Interval>,
    num: Num,
    op: Operator,
    pos: Pos,
    work: Num,
    e: &Expr,
    checking: bool,
    alarms: &mut Vec<Alarm>,
) -> Result<Option<Interval>, OutOfMemory>
    requires ground { IsGround program.now ground.now }
    requires left { IfSome left (λ s. IsIn num s) }
    requires typed { IsTypedExpr program.now e.now }
    requires link { IsLink op num work (type_of e.now) }
    requires spans { AreIn (cells program.now) env.now.cells }
    ensures value { IfOk result (λ o. o ≡ value_as num (linked op work left (span_of program.now (widest program.now) env.now e.now))) }
    ensures alarms { OnOk result (alarms.new.items ≡ alarms.old.items ++ noted checking (alarms_of program.now (widest program.now) env.now e.now
        ++ (with_both left (span_of program.now (widest program.now) env.now e.now) (operator_alarms op pos work)
        ++ assign_alarms num pos (linked op work left (span_of program.now (widest program.now) env.now e.now))))) }
    ensures in_type { IfOk result (λ o. IfSome o (λ s. IsIn num s)) }
{
    let right = value(alloc, program, ground, env, e, checking, alarms)?;
    let result = operated(op, pos, work, left, right, checking, alarms)?;
    converted(num, pos, result, checking, alarms)
}

/// Assigns what an operator makes of the number at the place and of the value of an expression. The place is read once.
#[allow(clippy::too_many_arguments)]
#[tactic(auto, unfolding(sa_reference::specs::Assignments::simple_of, sa_reference::specs::Assignments::simple_alarms))]
fn compound(
    alloc: Global,
    program: &Program,
    ground: &Ground,
    access: &Access,
    num: Num,
    op: Operator,
    pos: Pos,
    work: Num,
    e: &Expr,
    env: &mut Flat,
    checking: bool,
    alarms: &mut Vec<Alarm>,
) -> Result<bool, OutOfMemory>
    requires ground { IsGround program.now ground.now }
    requires access { IsTypedAccess program.now (leaf num) access.now }
    requires typed { IsTypedExpr program.now e.now }
    requires link { IsLink op num work (type_of e.now) }
    requires spans { AreIn (cells program.now) env.old.cells }
    ensures env { IfOk result (λ alive. simple_of program.now (widest program.now) (Simple.Compound access.now num op pos work e.now) env.old ≡ alive_env alive env.new) }
    ensures alarms { OnOk result (alarms.new.items ≡ alarms.old.items ++ noted checking (simple_alarms program.now (widest program.now) (Simple.Compound access.now num op pos work e.now) env.old)) }
    ensures kept { AreIn (cells program.now) env.new.cells }
    ensures clock { env.new.clock ≡ env.old.clock }
{
    let ks = named_cells(alloc, program, ground, env, access, checking, alarms)?;
    let left = read_of(env.cells.as_slice(), &ks);
    let s = compound_value(
        alloc, program, ground, env, left, num, op, pos, work, e, checking, alarms,
    )?;
    Ok(assign_to(program, ground, ks, s, env))
}

/// The type of a scalar, and int for what isn't one.
#[tactic(auto, using(crate::proofs::ChangeLaws::of_shapes))]
fn shape_num(shape: &Shape) -> Num
    ensures { (structs : List StructDef) → result ≡ num_in (shape_layout structs shape.now) }
{
    if !shape.dims.is_empty() {
        return Num::I32;
    }
    match shape.plain {
        Plain::Scalar(num) => num,
        Plain::Struct(_) => Num::I32,
    }
}

/// The type of a variable.
#[tactic(auto, unfolding(sa_typed::specs::Layouts::layout_of))]
fn var_num(program: &Program, var: u32) -> Num
    ensures { result ≡ num_in (layout_of program.now var) }
{
    match program.vars.get(var as usize) {
        None => Num::I32,
        Some(var) => shape_num(&var.shape),
    }
}

/// A local at its declaration with the value of an expression.
#[allow(clippy::too_many_arguments)]
#[tactic(auto, unfolding(sa_reference::specs::Assignments::declare_of, sa_reference::specs::Assignments::declare_alarms))]
fn declare_value(
    alloc: Global,
    program: &Program,
    ground: &Ground,
    var: u32,
    pos: Pos,
    e: &Expr,
    env: &mut Flat,
    checking: bool,
    alarms: &mut Vec<Alarm>,
) -> Result<bool, OutOfMemory>
    requires ground { IsGround program.now ground.now }
    requires typed { IsTypedStart program.now var (Start.Value pos e.now) }
    requires spans { AreIn (cells program.now) env.old.cells }
    ensures env { IfOk result (λ alive. declare_of program.now (widest program.now) var (Start.Value pos e.now) env.old ≡ alive_env alive env.new) }
    ensures alarms { OnOk result (alarms.new.items ≡ alarms.old.items ++ noted checking (declare_alarms program.now (widest program.now) var (Start.Value pos e.now) env.old)) }
    ensures kept { AreIn (cells program.now) env.new.cells }
    ensures clock { env.new.clock ≡ env.old.clock }
{
    let s = value_as(
        alloc,
        program,
        ground,
        env,
        var_num(program, var),
        pos,
        e,
        checking,
        alarms,
    )?;
    let ks = named(alloc, program, ground, var, &[])?;
    Ok(assign_to(program, ground, Some(Items::from_vec(ks)), s, env))
}

/// A local at its declaration.
#[allow(clippy::too_many_arguments)]
#[tactic(auto, using(sa_operators::proofs::CodeLaws::noted_nothing), unfolding(sa_reference::specs::Assignments::declare_of, sa_reference::specs::Assignments::declare_alarms))]
fn declare(
    alloc: Global,
    program: &Program,
    ground: &Ground,
    var: u32,
    start: &Start,
    env: &mut Flat,
    checking: bool,
    alarms: &mut Vec<Alarm>,
) -> Result<bool, OutOfMemory>
    requires ground { IsGround program.now ground.now }
    requires typed { IsTyped program.now }
    requires start { IsTypedStart program.now var start.now }
    requires spans { AreIn (cells program.now) env.old.cells }
    ensures env { IfOk result (λ alive. declare_of program.now (widest program.now) var start.now env.old ≡ alive_env alive env.new) }
    ensures alarms { OnOk result (alarms.new.items ≡ alarms.old.items ++ noted checking (declare_alarms program.now (widest program.now) var start.now env.old)) }
    ensures kept { AreIn (cells program.now) env.new.cells }
    ensures clock { env.new.clock ≡ env.old.clock }
{
    match start {
        Start::Any => {
            set_ranges(alloc, program, ground, var, &mut env.cells)?;
            Ok(true)
        }
        Start::Value(pos, e) => declare_value(
            alloc, program, ground, var, *pos, e, env, checking, alarms,
        ),
        Start::Items => {
            set_items(alloc, program, ground, var, &mut env.cells)?;
            Ok(true)
        }
    }
}

/// Notes the alarms of the indices of an access.
#[tactic(auto, using(crate::proofs::FormLaws::alarms_reached), unfolding(sa_operators::specs::Alarms::noted))]
fn note_indices(
    alloc: Global,
    program: &Program,
    ground: &Ground,
    env: &Flat,
    access: &Access,
    checking: bool,
    alarms: &mut Vec<Alarm>,
) -> Result<(), OutOfMemory>
    requires ground { IsGround program.now ground.now }
    requires typed { HasTypedSteps program.now access.now }
    requires spans { AreIn (cells program.now) env.now.cells }
    ensures { OnOk result (alarms.new.items ≡ alarms.old.items ++ noted checking (access_alarms program.now (widest program.now) env.now access.now)) }
{
    if checking {
        reached(
            alloc,
            program,
            ground,
            env,
            access.steps.as_slice(),
            true,
            alarms,
        )?;
    }
    Ok(())
}

/// Assigns to the cells of one structure what those of another were before.
fn copy_cells(
    alloc: Global,
    program: &Program,
    ground: &Ground,
    ks: &[usize],
    ds: &[usize],
    spans: &mut Items<Interval>,
) -> Result<(), OutOfMemory>
    requires ground { IsGround program.now ground.now }
    ensures ok { OnOk result (spans.new ≡ copied (cells program.now) ks.now ds.now spans.old spans.old) }
    ensures err { OnErr result (spans.new ≡ spans.old) }
{
    let new = spans_at(alloc, spans.as_slice(), ds)?;
    copy_by(ground.starred.as_slice(), spans, ks, new.as_slice());
    Ok(())
}

/// Copies one structure to another, and answers whether both places are there.
fn copy_to(
    alloc: Global,
    program: &Program,
    ground: &Ground,
    to: &Access,
    from: &Access,
    env: &mut Flat,
) -> Result<bool, OutOfMemory>
    requires ground { IsGround program.now ground.now }
    requires typed { IsCopy program.now to.now from.now }
    requires spans { AreIn (cells program.now) env.old.cells }
    ensures env { IfOk result (λ alive. copy_of program.now env.old (fixed_access_cells program.now to.now) (fixed_access_cells program.now from.now) ≡ alive_env alive env.new) }
    ensures kept { AreIn (cells program.now) env.new.cells }
    ensures clock { env.new.clock ≡ env.old.clock }
{
    let ks = fixed_cells(alloc, program, ground, to)?;
    let ds = fixed_cells(alloc, program, ground, from)?;
    match (ks, ds) {
        (Some(ks), Some(ds)) => {
            copy_cells(
                alloc,
                program,
                ground,
                ks.as_slice(),
                ds.as_slice(),
                &mut env.cells,
            )?;
            Ok(true)
        }
        (Some(_), None) => Ok(false),
        (None, _) => Ok(false),
    }
}

/// Assigns one structure to another.
#[allow(clippy::too_many_arguments)]
fn copy(
    alloc: Global,
    program: &Program,
    ground: &Ground,
    to: &Access,
    from: &Access,
    env: &mut Flat,
    checking: bool,
    alarms: &mut Vec<Alarm>,
) -> Result<bool, OutOfMemory>
    requires ground { IsGround program.now ground.now }
    requires typed { IsCopy program.now to.now from.now }
    requires spans { AreIn (cells program.now) env.old.cells }
    ensures env { IfOk result (λ alive. copy_of program.now env.old (fixed_access_cells program.now to.now) (fixed_access_cells program.now from.now) ≡ alive_env alive env.new) }
    ensures alarms { OnOk result (alarms.new.items ≡ alarms.old.items
        ++ noted checking (access_alarms program.now (widest program.now) env.old to.now ++ access_alarms program.now (widest program.now) env.old from.now)) }
    ensures kept { AreIn (cells program.now) env.new.cells }
    ensures clock { env.new.clock ≡ env.old.clock }
{
    note_indices(alloc, program, ground, env, to, checking, alarms)?;
    note_indices(alloc, program, ground, env, from, checking, alarms)?;
    copy_to(alloc, program, ground, to, from, env)
}

/// Walks a statement, and answers whether its end is reached alive. In checking mode the alarms go to the end of `alarms`.
#[tactic(auto, unfolding(sa_reference::specs::Assignments::simple_of, sa_reference::specs::Assignments::simple_alarms))]
pub fn simple(
    alloc: Global,
    program: &Program,
    ground: &Ground,
    stmt: &Simple,
    env: &mut Flat,
    checking: bool,
    alarms: &mut Vec<Alarm>,
) -> Result<bool, OutOfMemory>
    requires ground { IsGround program.now ground.now }
    requires typed { IsTyped program.now }
    requires stmt { IsTypedSimple program.now stmt.now }
    requires spans { AreIn (cells program.now) env.old.cells }
    ensures env { IfOk result (λ alive. simple_of program.now (widest program.now) stmt.now env.old ≡ alive_env alive env.new) }
    ensures alarms { OnOk result (alarms.new.items ≡ alarms.old.items ++ noted checking (simple_alarms program.now (widest program.now) stmt.now env.old)) }
    ensures kept { AreIn (cells program.now) env.new.cells }
    ensures clock { env.new.clock ≡ env.old.clock }
{
    match stmt {
        Simple::Declare(var, start) => declare(
            alloc, program, ground, *var, start, env, checking, alarms,
        ),
        Simple::Assign(access, num, pos, e) => assign(
            alloc, program, ground, access, *num, *pos, e, env, checking, alarms,
        ),
        Simple::Compound(access, num, op, pos, work, e) => compound(
            alloc, program, ground, access, *num, *op, *pos, *work, e, env, checking, alarms,
        ),
        Simple::Copy(_, to, _, from) => copy(
            alloc, program, ground, to, from, env, checking, alarms,
        ),
    }
}
