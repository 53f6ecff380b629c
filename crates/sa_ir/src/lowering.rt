//! Lowered expressions.

ghost use Rattle.std.specs.Prelude.{◌≡◌, ◌≤◌, ◌++◌, length, map, true, None, IfOk, OnOk};
ghost use Rattle.std.specs.List.{All};
ghost use Rattle.sa_typed.specs.Constants.{is_constant};
ghost use Rattle.sa_typed.specs.Links.{HasType};
ghost use Rattle.sa_ir.specs.declared.expr.Row.TheVariants as form;
ghost use Rattle.sa_ir.specs.Cursors.{frame_of, cursor_layout, IsStep};
ghost use Rattle.sa_ir.specs.Indices.{AreIndicesTyped, IsLinkTyped, IsStepTyped, link_lowered, step_rows};
ghost use Rattle.sa_ir.specs.Places.{kept_row, folded, moved_by, row_for, lowered, place};
ghost use Rattle.sa_ir.specs.Sizes.{capped};
ghost use Rattle.sa_ir.specs.Tables.{IsTable};

use crate::OutOfMemory;
use crate::expr::{IrExpr, IrLink, IrPlace, Row};
use crate::frame::{Frame, Kept};
use crate::places::{Cursor, Stepped, base, field, inner, stride, whole};
use crate::table::{Table, number};
use sa_base::Pos;
use sa_typed::{Access, Expr, Link, Program, Step, fixed_index, is_constant};
use sqlite_items::{Boxed, Items};
use std::alloc::Global;

/// The element that an index names for sure.
#[tactic(auto, unfolding(crate::specs::Places::folded))]
fn folded(n: u32, index: &Expr) -> Option<u32>
    requires { is_constant index.now ≡ true → HasType index.now }
    ensures { result ≡ folded n index.now }
{
    if is_constant(index) {
        fixed_index(n, index)
    } else {
        None
    }
}

#[cycle(lowering)]
#[tactic(auto, using(crate::proofs::LowerLaws::of_lowered))]
/// An expression in a call.
pub fn lower_expr(
    alloc: Global,
    program: &Program,
    table: &Table,
    frame: &Frame,
    e: &Expr,
) -> Result<IrExpr, OutOfMemory>
    requires table { IsTable program.now table.now }
    requires typed { AreIndicesTyped e.now }
    ensures { IfOk result (λ r. r ≡ lowered program.now (frame_of program.now frame.now) e.now) }
{
    match e {
        Expr::Number(n, num) => Ok(IrExpr::Number(*n, *num)),
        Expr::Read(access, num) => {
            let place = lower_place(alloc, program, table, frame, access)?;
            Ok(IrExpr::Read(place, *num))
        }
        Expr::Input(k, num) => Ok(IrExpr::Input(*k, *num)),
        Expr::Prefix(op, pos, num, operand) => {
            let operand = lower_boxed(alloc, program, table, frame, operand.get())?;
            Ok(IrExpr::Prefix(*op, *pos, *num, operand))
        }
        Expr::Cast(pos, num, operand) => {
            let operand = lower_boxed(alloc, program, table, frame, operand.get())?;
            Ok(IrExpr::Cast(*pos, *num, operand))
        }
        Expr::Chain(first, links) => {
            let first = lower_boxed(alloc, program, table, frame, first.get())?;
            let links = lower_links(alloc, program, table, frame, links.as_slice())?;
            Ok(IrExpr::Chain(first, links))
        }
        Expr::And(first, rest) => {
            let first = lower_boxed(alloc, program, table, frame, first.get())?;
            let rest = lower_exprs(alloc, program, table, frame, rest.as_slice())?;
            Ok(IrExpr::And(first, rest))
        }
        Expr::Or(first, rest) => {
            let first = lower_boxed(alloc, program, table, frame, first.get())?;
            let rest = lower_exprs(alloc, program, table, frame, rest.as_slice())?;
            Ok(IrExpr::Or(first, rest))
        }
        Expr::Choice(test, first, second, num) => {
            let test = lower_boxed(alloc, program, table, frame, test.get())?;
            let first = lower_boxed(alloc, program, table, frame, first.get())?;
            let second = lower_boxed(alloc, program, table, frame, second.get())?;
            Ok(IrExpr::Choice(test, first, second, *num))
        }
    }
}

#[cycle(lowering)]
fn lower_boxed(
    alloc: Global,
    program: &Program,
    table: &Table,
    frame: &Frame,
    e: &Expr,
) -> Result<Boxed<IrExpr>, OutOfMemory>
    requires table { IsTable program.now table.now }
    requires typed { AreIndicesTyped e.now }
    ensures { IfOk result (λ r. r ≡ lowered program.now (frame_of program.now frame.now) e.now) }
{
    let lowered = lower_expr(alloc, program, table, frame, e)?;
    let boxed = Boxed::new(alloc, lowered)?;
    Ok(boxed)
}

#[cycle(lowering)]
fn lower_exprs(
    alloc: Global,
    program: &Program,
    table: &Table,
    frame: &Frame,
    exprs: &[Expr],
) -> Result<Items<IrExpr>, OutOfMemory>
    requires table { IsTable program.now table.now }
    requires typed { All AreIndicesTyped exprs.now }
    ensures { IfOk result (λ r. r ≡ map (lowered program.now (frame_of program.now frame.now)) exprs.now) }
{
    let mut all = Items::new(alloc);
    for e in exprs {
        let lowered = lower_expr(alloc, program, table, frame, e)?;
        all.push(lowered)?;
    }
    Ok(all)
}

#[cycle(lowering)]
fn lower_links(
    alloc: Global,
    program: &Program,
    table: &Table,
    frame: &Frame,
    links: &[Link],
) -> Result<Items<IrLink>, OutOfMemory>
    requires table { IsTable program.now table.now }
    requires typed { All IsLinkTyped links.now }
    ensures { IfOk result (λ r. r ≡ map (link_lowered program.now (frame_of program.now frame.now)) links.now) }
{
    let mut all = Items::new(alloc);
    for link in links {
        let operand = lower_expr(alloc, program, table, frame, &link.operand)?;
        all.push(IrLink {
            op: link.op,
            pos: link.pos,
            num: link.num,
            operand,
        })?;
    }
    Ok(all)
}

#[cycle(lowering)]
#[allow(clippy::too_many_arguments)]
/// An index each of whose steps leads so many cells further: how many cells it leads further if it is folded; else it stays as a
/// row.
fn lower_index(
    alloc: Global,
    program: &Program,
    table: &Table,
    frame: &Frame,
    stride: usize,
    pos: Pos,
    n: u32,
    index: &Expr,
    rows: &mut Items<Row>,
) -> Result<usize, OutOfMemory>
    requires table { IsTable program.now table.now }
    requires constant { is_constant index.now ≡ true → HasType index.now }
    requires typed { AreIndicesTyped index.now }
    ensures cells { IfOk result (λ c. c ≡ capped (moved_by (folded n index.now) stride)) }
    ensures rows { OnOk result (rows.new ≡ rows.old ++ row_for (folded n index.now) (form.At pos n stride (lowered program.now (frame_of program.now frame.now) index.now))) }
    ensures few { OnOk result (folded n index.now ≡ None → stride ≤ 4294967295) }
{
    match folded(n, index) {
        Some(i) => Ok((i as usize).saturating_mul(stride)),
        None => {
            let width = number(stride)?;
            let index = lower_boxed(alloc, program, table, frame, index)?;
            rows.push(Row::At(pos, n, width, index))?;
            Ok(0)
        }
    }
}

#[cycle(lowering)]
/// One step of an access.
fn lower_step<'a>(
    alloc: Global,
    program: &'a Program,
    table: &Table,
    frame: &Frame,
    at: Cursor<'a>,
    step: &Step,
    rows: &mut Items<Row>,
) -> Result<Stepped<'a>, OutOfMemory>
    requires table { IsTable program.now table.now }
    requires at { at.structs ≤ length program.now.structs }
    requires typed { IsStepTyped step.now }
    ensures step { IfOk result (λ s. IsStep program.now (cursor_layout program.now at.entry) step.now s) }
    ensures rows { OnOk result (rows.new ≡ rows.old ++ step_rows program.now (frame_of program.now frame.now) (cursor_layout program.now at.entry) step.now) }
{
    match step {
        Step::At(pos, n, index) => {
            let stride = stride(program, table, at);
            let cells = lower_index(
                alloc,
                program,
                table,
                frame,
                stride,
                *pos,
                *n,
                index.get(),
                rows,
            )?;
            Ok(Stepped {
                cells,
                cursor: inner(program, at),
            })
        }
        Step::Field(f) => Ok(field(program, table, at, *f)),
    }
}

#[cycle(lowering)]
/// The place of an access in a call.
pub fn lower_place(
    alloc: Global,
    program: &Program,
    table: &Table,
    frame: &Frame,
    access: &Access,
) -> Result<IrPlace, OutOfMemory>
    requires table { IsTable program.now table.now }
    requires typed { All IsStepTyped access.now.steps }
    ensures { IfOk result (λ r. r ≡ place program.now (frame_of program.now frame.now) access.now) }
{
    let base = base(program, table, frame, access.var)?;
    let mut rows = kept_rows(alloc, base.rows)?;
    let mut at = whole(program, access.var);
    let mut cells = base.first as usize;
    for step in access.steps.as_slice() {
        let next = lower_step(alloc, program, table, frame, at, step, &mut rows)?;
        cells = cells.saturating_add(next.cells);
        at = next.cursor;
    }
    let first = number(cells)?;
    Ok(IrPlace { first, rows })
}

/// The rows of indices that were kept.
pub fn kept_rows(alloc: Global, kept: &[Kept]) -> Result<Items<Row>, OutOfMemory>
    ensures { IfOk result (λ r. r ≡ map kept_row kept.now) }
{
    let mut rows = Items::new(alloc);
    for row in kept {
        rows.push(Row::Kept(row.cell, row.size, row.stride))?;
    }
    Ok(rows)
}
