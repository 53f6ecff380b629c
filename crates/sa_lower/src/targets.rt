//! What a reference stands for in a call: the place of its argument, whose indices are kept.

ghost use Rattle.std.specs.Prelude.{◌≡◌, ◌≤◌, ◌+◌, ◌++◌, length, IfOk, OnOk};
ghost use Rattle.sa_ir.specs.Cursors.{frame_of, cursor_layout, IsCursor};
ghost use Rattle.sa_ir.specs.Indices.{step_layout};
ghost use Rattle.sa_ir.specs.Places.{target};
ghost use Rattle.sa_ir.specs.Sizes.{capped};
ghost use Rattle.sa_ir.specs.Tables.{IsTable};
ghost use Rattle.sa_lower.specs.Arguments.{step_far, step_kept, step_count};

use crate::OutOfMemory;
use sa_ir::{
    Cursor, Frame, Kept, Stepped, Table, Target, base, field, inner, number, stride, whole,
};
use sa_typed::{Access, Program, Step};
use sqlite_items::Items;
use std::alloc::Global;

/// A step into the argument: a field leads further, and an index is kept in the next cell.
fn keep_step<'a>(
    program: &'a Program,
    table: &Table,
    at: Cursor<'a>,
    step: &Step,
    next: &mut usize,
    rows: &mut Items<Kept>,
) -> Result<Stepped<'a>, OutOfMemory>
    requires table { IsTable program.now table.now }
    requires at { at.structs ≤ length program.now.structs }
    ensures cells { IfOk result (λ s. s.cells ≡ capped (step_far (cursor_layout program.now at.entry) step.now)) }
    ensures cursor { IfOk result (λ s. IsCursor program.now (step_layout (cursor_layout program.now at.entry) step.now) s.cursor) }
    ensures rows { OnOk result (rows.new ≡ rows.old ++ step_kept (cursor_layout program.now at.entry) next.old step.now) }
    ensures next { OnOk result (next.new ≡ next.old + step_count step.now) }
{
    match step {
        Step::At(_, n, _) => {
            let cell = number(*next)?;
            let width = number(stride(program, table, at))?;
            rows.push(Kept {
                cell,
                size: *n,
                stride: width,
            })?;
            *next = cell as usize + 1;
            Ok(Stepped {
                cells: 0,
                cursor: inner(program, at),
            })
        }
        Step::Field(f) => Ok(field(program, table, at, *f)),
    }
}

/// Indices that were kept before.
fn copied(alloc: Global, kept: &[Kept]) -> Result<Items<Kept>, OutOfMemory>
    ensures { IfOk result (λ r. r ≡ kept.now) }
{
    let mut rows = Items::new(alloc);
    for row in kept {
        rows.push(*row)?;
    }
    Ok(rows)
}

/// What a reference stands for whose argument this is, where its indices are kept in the cells from one on.
pub fn target(
    alloc: Global,
    program: &Program,
    table: &Table,
    frame: &Frame,
    first_kept: usize,
    access: &Access,
) -> Result<Target, OutOfMemory>
    requires { IsTable program.now table.now }
    ensures { IfOk result (λ r. r ≡ target program.now (frame_of program.now frame.now) first_kept access.now) }
{
    let base = base(program, table, frame, access.var)?;
    let mut rows = copied(alloc, base.rows)?;
    let mut at = whole(program, access.var);
    let mut cells = base.first as usize;
    let mut next = first_kept;
    for step in access.steps.as_slice() {
        let stepped = keep_step(program, table, at, step, &mut next, &mut rows)?;
        cells = cells.saturating_add(stepped.cells);
        at = stepped.cursor;
    }
    let first = number(cells)?;
    Ok(Target { first, rows })
}
