//! Which cells occur in a loop.

ghost use Rattle.std.specs.Prelude.{◌≡◌, IfOk, OnOk};
ghost use Rattle.std.specs.List.{All};
ghost use Rattle.sa_typed.specs.Cells.{cells};
ghost use Rattle.sa_typed.specs.Executions.{same_pos};
ghost use Rattle.sa_typed.specs.Links.{HasType};
ghost use Rattle.sa_typed.specs.WellTyped.{IsTyped, IsTypedExpr, IsTypedStep, IsTypedStart, IsTypedSimple, IsTypedStmt};
ghost use Rattle.sa_cells.specs.Grounds.{IsGround};
ghost use Rattle.sa_iterate.specs.Analysis.{main_body};
ghost use Rattle.sa_report.specs.Loops.{marks_of};
ghost use Rattle.sa_report.specs.Spots.{AreCells};
ghost use Rattle.sa_report.specs.Marks.{marked, mark_at, mark_each, index_step, one_step, steps_taken, IsSomeStep, AreSomeSteps, HasTypedSteps, HasTypedOperand, by_named, by_expr, by_links, by_step, by_steps, by_access, by_start, by_simple, by_stmt, by_stmts, by_loop, by_loops};

use crate::names::Cells;
use sa_base::{OutOfMemory, Pos};
use sa_cells::{Ground, named};
use sa_interval::Interval;
use sa_reference::Reach;
use sa_typed::{Access, Expr, Link, Program, Simple, Start, Step, Stmt, fixed_index, is_constant};
use sqlite_items::Items;
use std::alloc::Global;

// ---- accesses

/// The elements that an index may name: that of a constant one, None where it errs or names none, and else each.
#[tactic(auto, unfolding(crate::specs::Marks::index_step, crate::specs::Marks::some_indices))]
fn index_step(n: u32, index: &Expr) -> Option<Reach>
    requires { HasType index.now }
    ensures { result ≡ index_step n index.now }
{
    if is_constant(index) {
        match fixed_index(n, index) {
            None => None,
            Some(i) => Some(Reach::At(Interval::new(i128::from(i), i128::from(i)))),
        }
    } else {
        // an array without elements has no index, and -1 is none
        let last = i128::from(n) - 1;
        Some(Reach::At(Interval::new(last.min(0), last)))
    }
}

/// Where one step may lead.
#[tactic(auto, using(crate::proofs::MarkLaws::of_steps))]
fn one_step(step: &Step) -> Option<Reach>
    requires { IsSomeStep step.now }
    ensures { result ≡ one_step step.now }
{
    match step {
        Step::At(_, n, index) => index_step(*n, index.get()),
        Step::Field(f) => Some(Reach::Into(*f)),
    }
}

/// The steps that an access may take, None where a constant index names no element.
fn steps_taken(alloc: Global, steps: &[Step]) -> Result<Option<Items<Reach>>, OutOfMemory>
    requires { AreSomeSteps steps.now }
    ensures { IfOk result (λ o. o ≡ steps_taken steps.now) }
{
    let mut reaches = Items::new(alloc);
    for step in steps {
        match one_step(step) {
            None => return Ok(None),
            Some(reach) => reaches.push(reach)?,
        }
    }
    Ok(Some(reaches))
}

/// Marks the cell with this number.
#[tactic(auto, unfolding(crate::specs::Marks::mark_at))]
fn mark_at(marks: &mut [bool], k: usize)
    ensures { marks.new ≡ mark_at k marks.old }
{
    if k < marks.len() {
        marks[k] = true;
    }
}

/// Marks the cells with these numbers.
fn mark_each(marks: &mut [bool], ks: &[usize])
    ensures { marks.new ≡ mark_each ks.now marks.old }
{
    for k in ks {
        mark_at(marks, *k);
    }
}

/// Marks the cells that an access may name.
#[tactic(auto, using(crate::proofs::MarkLaws::of_named))]
fn mark_named(
    alloc: Global,
    program: &Program,
    ground: &Ground,
    access: &Access,
    marks: &mut [bool],
) -> Result<(), OutOfMemory>
    requires ground { IsGround program.now ground.now }
    requires typed { HasTypedSteps program.now access.now }
    ensures { OnOk result (marks.new ≡ by_named (cells program.now) access.now.var (steps_taken access.now.steps) marks.old) }
{
    if let Some(reaches) = steps_taken(alloc, access.steps.as_slice())? {
        let ks = named(alloc, program, ground, access.var, reaches.as_slice())?;
        mark_each(marks, &ks);
    }
    Ok(())
}

// ---- expressions

/// Marks the cells that occur in an expression.
#[cycle(marks)]
#[tactic(auto, using(crate::proofs::MarkLaws::of_forms))]
fn mark_expr(
    alloc: Global,
    program: &Program,
    ground: &Ground,
    e: &Expr,
    marks: &mut [bool],
) -> Result<(), OutOfMemory>
    requires ground { IsGround program.now ground.now }
    requires typed { IsTypedExpr program.now e.now }
    ensures { OnOk result (marks.new ≡ by_expr (cells program.now) e.now marks.old) }
{
    match e {
        Expr::Number(_, _) | Expr::Input(_, _) => Ok(()),
        Expr::Read(access, _) => mark_access(alloc, program, ground, access, marks),
        Expr::Prefix(_, _, _, operand) => mark_expr(alloc, program, ground, operand.get(), marks),
        Expr::Cast(_, _, operand) => mark_expr(alloc, program, ground, operand.get(), marks),
        Expr::Chain(first, links) => {
            mark_expr(alloc, program, ground, first.get(), marks)?;
            mark_links(alloc, program, ground, links.as_slice(), marks)
        }
        // typing gives none of these yet
        Expr::And(_, _) | Expr::Or(_, _) | Expr::Choice(_, _, _, _) => Ok(()),
    }
}

#[cycle(marks)]
#[tactic(auto, using(crate::proofs::MarkLaws::of_forms))]
fn mark_links(
    alloc: Global,
    program: &Program,
    ground: &Ground,
    links: &[Link],
    marks: &mut [bool],
) -> Result<(), OutOfMemory>
    requires ground { IsGround program.now ground.now }
    requires typed { All (HasTypedOperand program.now) links.now }
    ensures { OnOk result (marks.new ≡ by_links (cells program.now) links.now marks.old) }
{
    for link in links {
        mark_expr(alloc, program, ground, &link.operand, marks)?;
    }
    Ok(())
}

/// Marks the cells that an access may name, and those that occur in its indices.
#[cycle(marks)]
#[tactic(auto, using(crate::proofs::MarkLaws::of_forms))]
fn mark_access(
    alloc: Global,
    program: &Program,
    ground: &Ground,
    access: &Access,
    marks: &mut [bool],
) -> Result<(), OutOfMemory>
    requires ground { IsGround program.now ground.now }
    requires typed { HasTypedSteps program.now access.now }
    ensures { OnOk result (marks.new ≡ by_access (cells program.now) access.now marks.old) }
{
    mark_named(alloc, program, ground, access, marks)?;
    mark_steps(alloc, program, ground, access.steps.as_slice(), marks)
}

#[cycle(marks)]
#[tactic(auto, using(crate::proofs::MarkLaws::of_forms))]
fn mark_steps(
    alloc: Global,
    program: &Program,
    ground: &Ground,
    steps: &[Step],
    marks: &mut [bool],
) -> Result<(), OutOfMemory>
    requires ground { IsGround program.now ground.now }
    requires typed { All (IsTypedStep program.now) steps.now }
    ensures { OnOk result (marks.new ≡ by_steps (cells program.now) steps.now marks.old) }
{
    for step in steps {
        mark_step(alloc, program, ground, step, marks)?;
    }
    Ok(())
}

#[cycle(marks)]
#[tactic(auto, using(crate::proofs::MarkLaws::of_forms))]
fn mark_step(
    alloc: Global,
    program: &Program,
    ground: &Ground,
    step: &Step,
    marks: &mut [bool],
) -> Result<(), OutOfMemory>
    requires ground { IsGround program.now ground.now }
    requires typed { IsTypedStep program.now step.now }
    ensures { OnOk result (marks.new ≡ by_step (cells program.now) step.now marks.old) }
{
    match step {
        Step::At(_, _, index) => mark_expr(alloc, program, ground, index.get(), marks),
        Step::Field(_) => Ok(()),
    }
}

// ---- statements

#[tactic(auto, using(crate::proofs::MarkLaws::of_stmts))]
fn mark_start(
    alloc: Global,
    program: &Program,
    ground: &Ground,
    var: u32,
    start: &Start,
    marks: &mut [bool],
) -> Result<(), OutOfMemory>
    requires ground { IsGround program.now ground.now }
    requires typed { IsTypedStart program.now var start.now }
    ensures { OnOk result (marks.new ≡ by_start (cells program.now) start.now marks.old) }
{
    match start {
        Start::Any | Start::Items => Ok(()),
        Start::Value(_, value) => mark_expr(alloc, program, ground, value, marks),
    }
}

#[tactic(auto, using(crate::proofs::MarkLaws::of_stmts))]
fn mark_simple(
    alloc: Global,
    program: &Program,
    ground: &Ground,
    stmt: &Simple,
    marks: &mut [bool],
) -> Result<(), OutOfMemory>
    requires ground { IsGround program.now ground.now }
    requires typed { IsTypedSimple program.now stmt.now }
    ensures { OnOk result (marks.new ≡ by_simple (cells program.now) stmt.now marks.old) }
{
    match stmt {
        Simple::Declare(var, start) => mark_start(alloc, program, ground, *var, start, marks),
        Simple::Assign(left, _, _, value) => {
            mark_access(alloc, program, ground, left, marks)?;
            mark_expr(alloc, program, ground, value, marks)
        }
        Simple::Compound(left, _, _, _, _, value) => {
            mark_access(alloc, program, ground, left, marks)?;
            mark_expr(alloc, program, ground, value, marks)
        }
        Simple::Copy(_, left, _, right) => {
            mark_access(alloc, program, ground, left, marks)?;
            mark_access(alloc, program, ground, right, marks)
        }
    }
}

#[cycle(statements)]
#[tactic(auto, using(crate::proofs::MarkLaws::of_stmts))]
fn mark_stmt(
    alloc: Global,
    program: &Program,
    ground: &Ground,
    stmt: &Stmt,
    marks: &mut [bool],
) -> Result<(), OutOfMemory>
    requires ground { IsGround program.now ground.now }
    requires typed { IsTypedStmt program.now stmt.now }
    ensures { OnOk result (marks.new ≡ by_stmt (cells program.now) stmt.now marks.old) }
{
    match stmt {
        Stmt::Simple(stmt) => mark_simple(alloc, program, ground, stmt, marks),
        Stmt::Block(all) => mark_stmts(alloc, program, ground, all.as_slice(), marks),
        // the clock loop, since typing gives no other loop yet
        Stmt::Loop(_, _, _, body, _) => mark_stmt(alloc, program, ground, body.get(), marks),
        // in a wait there is none, and typing gives no other form yet
        _ => Ok(()),
    }
}

#[cycle(statements)]
#[tactic(auto, using(crate::proofs::MarkLaws::of_stmts))]
fn mark_stmts(
    alloc: Global,
    program: &Program,
    ground: &Ground,
    stmts: &[Stmt],
    marks: &mut [bool],
) -> Result<(), OutOfMemory>
    requires ground { IsGround program.now ground.now }
    requires typed { All (IsTypedStmt program.now) stmts.now }
    ensures { OnOk result (marks.new ≡ by_stmts (cells program.now) stmts.now marks.old) }
{
    for stmt in stmts {
        mark_stmt(alloc, program, ground, stmt, marks)?;
    }
    Ok(())
}

// ---- loops

/// Whether two places are one.
pub fn is_same(a: Pos, b: Pos) -> bool
    ensures { result ≡ same_pos a b }
{
    a.line == b.line && a.col == b.col
}

/// Marks the cells that occur in the loop whose word stands there.
#[cycle(loops)]
#[tactic(auto, using(crate::proofs::MarkLaws::of_loops))]
fn mark_loop(
    alloc: Global,
    program: &Program,
    ground: &Ground,
    place: Pos,
    stmt: &Stmt,
    marks: &mut [bool],
) -> Result<(), OutOfMemory>
    requires ground { IsGround program.now ground.now }
    requires typed { IsTypedStmt program.now stmt.now }
    ensures { OnOk result (marks.new ≡ by_loop place (cells program.now) stmt.now marks.old) }
{
    match stmt {
        Stmt::Block(all) => mark_loops(alloc, program, ground, place, all.as_slice(), marks),
        // the clock loop, since typing gives no other loop yet
        Stmt::Loop(at, _, _, body, _) => {
            if is_same(*at, place) {
                mark_stmt(alloc, program, ground, body.get(), marks)
            } else {
                mark_loop(alloc, program, ground, place, body.get(), marks)
            }
        }
        // typing gives no other form with loops in it yet
        _ => Ok(()),
    }
}

#[cycle(loops)]
#[tactic(auto, using(crate::proofs::MarkLaws::of_loops))]
fn mark_loops(
    alloc: Global,
    program: &Program,
    ground: &Ground,
    place: Pos,
    stmts: &[Stmt],
    marks: &mut [bool],
) -> Result<(), OutOfMemory>
    requires ground { IsGround program.now ground.now }
    requires typed { All (IsTypedStmt program.now) stmts.now }
    ensures { OnOk result (marks.new ≡ by_loops place (cells program.now) stmts.now marks.old) }
{
    for stmt in stmts {
        mark_loop(alloc, program, ground, place, stmt, marks)?;
    }
    Ok(())
}

/// The statements of main.
pub fn main_body(program: &Program) -> &[Stmt]
    ensures { result.now ≡ main_body program.now }
{
    match program.funcs.get(program.entry as usize) {
        None => &[],
        Some(main) => main.body.as_slice(),
    }
}

/// One mark for each cell, set where the cell occurs in the loop whose word stands there.
pub fn marks(
    alloc: Global,
    program: &Program,
    cells: &Cells,
    place: Pos,
) -> Result<Vec<bool>, OutOfMemory>
    requires cells { AreCells program.now cells.now }
    requires typed { IsTyped program.now }
    ensures { IfOk result (λ marks. marks.items ≡ marks_of program.now place) }
{
    let mut marks = vec![in alloc; false; cells.spots.len()]?;
    mark_loops(
        alloc,
        program,
        &cells.ground,
        place,
        main_body(program),
        &mut marks,
    )?;
    Ok(marks)
}
