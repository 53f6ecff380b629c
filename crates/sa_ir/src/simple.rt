//! Lowered simple statements.

ghost use Rattle.std.specs.Prelude.{◌≡◌, map, reverse, slice_get, IfOk};
ghost use Rattle.sa_typed.specs.Executions.{initial_of};
ghost use Rattle.sa_typed.specs.Frames.{size};
ghost use Rattle.sa_typed.specs.Layouts.{layout_of, num_in, struct_layout};
ghost use Rattle.sa_ir.specs.Indices.{IsStartTyped, IsSimpleTyped, slot_ends};
ghost use Rattle.sa_ir.specs.Cursors.{frame_of};
ghost use Rattle.sa_ir.specs.Nodes.{declared_as, simple};
ghost use Rattle.sa_ir.specs.Initial.{object_ends};
ghost use Rattle.sa_ir.specs.Sizes.{capped};
ghost use Rattle.sa_ir.specs.Tables.{IsTable};

use crate::OutOfMemory;
use crate::expr::IrPlace;
use crate::frame::Frame;
use crate::ir::Ends;
use crate::lowering::{kept_rows, lower_expr, lower_place};
use crate::node::IrAssign;
use crate::places::base;
use crate::sizes::dims_extent;
use crate::slots::{Slot, slots};
use crate::table::{Table, number};
use sa_base::Num;
use sa_typed::{Plain, Program, Simple, Start};
use sqlite_items::{Items, at};
use std::alloc::Global;

/// How many cells a variable has.
pub fn whole_cells(program: &Program, table: &Table, var: u32) -> usize
    requires { IsTable program.now table.now }
    ensures { result ≡ capped (size (layout_of program.now var)) }
{
    match table.seat(var) {
        None => 0,
        Some(seat) => seat.cells,
    }
}

/// How many cells a structure has.
fn struct_cells(program: &Program, table: &Table, k: u32) -> usize
    requires { IsTable program.now table.now }
    ensures { result ≡ capped (size (struct_layout (reverse program.now.structs) k)) }
{
    let structs = program.structs.len();
    dims_extent(
        program,
        table.structs.as_slice(),
        structs,
        &[],
        Plain::Struct(k),
    )
    .cells
}

/// The type of a scalar variable.
pub fn num_of(program: &Program, var: u32) -> Num
    ensures { result ≡ num_in (layout_of program.now var) }
{
    match at(program.vars.as_slice(), var as usize) {
        None => Num::I32,
        Some(known) => match known.shape.dims.as_slice() {
            [] => match known.shape.plain {
                Plain::Scalar(num) => num,
                Plain::Struct(_) => Num::I32,
            },
            [_, ..] => Num::I32,
        },
    }
}

fn slot_ends(slot: Slot) -> Ends
    ensures { result ≡ slot_ends slot }
{
    Ends {
        lo: slot.lo,
        hi: slot.hi,
    }
}

/// The initial values of cells.
fn all_ends(alloc: Global, slots: &[Slot]) -> Result<Items<Ends>, OutOfMemory>
    ensures { IfOk result (λ r. r ≡ map slot_ends slots.now) }
{
    let mut ends = Items::new(alloc);
    for slot in slots {
        ends.push(slot_ends(*slot))?;
    }
    Ok(ends)
}

/// What the cells of a variable begin with.
pub fn object_ends(
    alloc: Global,
    program: &Program,
    table: &Table,
    var: u32,
) -> Result<Items<Ends>, OutOfMemory>
    requires { IsTable program.now table.now }
    ensures { IfOk result (λ r. r ≡ object_ends (initial_of (slice_get program.now.vars var)) (layout_of program.now var)) }
{
    let Some(known) = at(program.vars.as_slice(), var as usize) else {
        return Ok(Items::new(alloc));
    };
    let slots = slots(
        alloc,
        program,
        table.structs.as_slice(),
        table.cores.as_slice(),
        &known.shape,
        known.initial.as_slice(),
    )?;
    let ends = all_ends(alloc, &slots)?;
    Ok(ends)
}

/// What a local begins with, in a call.
fn lower_start(
    alloc: Global,
    program: &Program,
    table: &Table,
    frame: &Frame,
    var: u32,
    start: &Start,
) -> Result<IrAssign, OutOfMemory>
    requires table { IsTable program.now table.now }
    requires typed { IsStartTyped start.now }
    ensures { IfOk result (λ r. r ≡ declared_as program.now (frame_of program.now frame.now) var start.now) }
{
    let base = base(program, table, frame, var)?;
    match start {
        Start::Any => {
            let count = number(whole_cells(program, table, var))?;
            Ok(IrAssign::Any(base.first, count))
        }
        Start::Value(pos, value) => {
            let rows = kept_rows(alloc, base.rows)?;
            let value = lower_expr(alloc, program, table, frame, value)?;
            let place = IrPlace {
                first: base.first,
                rows,
            };
            Ok(IrAssign::Value(place, num_of(program, var), *pos, value))
        }
        Start::Items => {
            let ends = object_ends(alloc, program, table, var)?;
            Ok(IrAssign::Items(base.first, ends))
        }
    }
}

/// A simple statement in a call.
#[tactic(auto, unfolding(crate::specs::Nodes::simple))]
pub fn lower_simple(
    alloc: Global,
    program: &Program,
    table: &Table,
    frame: &Frame,
    stmt: &Simple,
) -> Result<IrAssign, OutOfMemory>
    requires table { IsTable program.now table.now }
    requires typed { IsSimpleTyped stmt.now }
    ensures { IfOk result (λ r. r ≡ simple program.now (frame_of program.now frame.now) stmt.now) }
{
    match stmt {
        Simple::Declare(var, start) => lower_start(alloc, program, table, frame, *var, start),
        Simple::Assign(left, num, pos, value) => {
            let place = lower_place(alloc, program, table, frame, left)?;
            let value = lower_expr(alloc, program, table, frame, value)?;
            Ok(IrAssign::Value(place, *num, *pos, value))
        }
        Simple::Compound(left, num, op, pos, work, value) => {
            let place = lower_place(alloc, program, table, frame, left)?;
            let value = lower_expr(alloc, program, table, frame, value)?;
            Ok(IrAssign::Compound(place, *num, *op, *pos, *work, value))
        }
        Simple::Copy(k, left, _, right) => {
            let left = lower_place(alloc, program, table, frame, left)?;
            let right = lower_place(alloc, program, table, frame, right)?;
            let count = number(struct_cells(program, table, *k))?;
            Ok(IrAssign::Copy(left, right, count))
        }
    }
}
