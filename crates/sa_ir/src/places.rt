//! Lowered places and expressions.

ghost use Rattle.std.specs.Prelude.{◌≡◌, ◌<◌, ◌≤◌, ◌==◌, [], length, if◌then◌else◌, Some, None, IfOk};
ghost use Rattle.std.specs.Option.{option_copied};
ghost use Rattle.sa_typed.specs.Layouts.{fields, layout_of};
ghost use Rattle.sa_ir.specs.Cursors.{frame_of, base_target, referred, cells_ahead, cursor_layout, IsCursor, IsStepped, cells_at, fields_made};
ghost use Rattle.sa_ir.specs.Tables.{IsTable};
ghost use Rattle.sa_typed.specs.declared.shape.Plain.TheVariants.{Struct};
ghost use Rattle.sa_ir.specs.Frames.{own_target};
ghost use Rattle.sa_ir.specs.Names.{inner};
ghost use Rattle.sa_ir.specs.Places.{stride_of};
ghost use Rattle.sa_ir.specs.Sizes.{capped};

use crate::OutOfMemory;
use crate::frame::{Base, Frame, Reference, Target};
use crate::sizes::{Extent, dims_extent};
use crate::table::{Table, number};
use sa_typed::{Home, Plain, Program};
use sqlite_items::at;

/// What an access has led to: the dimensions that are left, and what they are around, which may hold the first `structs`
/// structures.
#[derive(Clone, Copy)]
pub struct Cursor<'a> {
    pub dims: &'a [u32],
    pub plain: Plain,
    pub structs: usize,
}

// ---- variables

/// How many cells stand before those of a home, in a call whose cells begin there.
fn cells_ahead(table: &Table, program: &Program, first: usize, home: Home) -> usize
    requires { IsTable program.now table.now }
    ensures { result ≡ cells_ahead program.now first home }
{
    match home {
        Home::Global => 0,
        Home::Static => table.sections.cells(Home::Global),
        Home::Local(_) => first,
    }
}

/// The first cell of a variable in a call whose cells begin there.
pub fn own_first(
    program: &Program,
    table: &Table,
    first: usize,
    var: u32,
) -> Result<u32, OutOfMemory>
    requires { IsTable program.now table.now }
    ensures { IfOk result (λ r. r ≡ (own_target program.now first var).first) }
{
    let Some(known) = at(program.vars.as_slice(), var as usize) else {
        return Ok(0);
    };
    let Some(seat) = table.seat(var) else {
        return Ok(0);
    };
    let ahead = cells_ahead(table, program, first, known.home);
    let cell = number(ahead.saturating_add(seat.offset))?;
    Ok(cell)
}

/// What a reference stands for if it is of this parameter, and else what was found before.
fn newer<'a>(reference: &'a Reference, var: u32, found: Option<&'a Target>) -> Option<&'a Target>
    ensures { option_copied result ≡ (if var == reference.now.var then Some reference.now.target else option_copied found.entry) }
{
    if var == reference.var {
        Some(&reference.target)
    } else {
        found
    }
}

/// What a reference stands for, of several for one parameter the last.
fn referred(references: &[Reference], var: u32) -> Option<&Target>
    ensures { option_copied result ≡ referred references.now var None }
{
    let mut found = None;
    for reference in references {
        found = newer(reference, var, found);
    }
    found
}

/// What a variable stands for in a call.
pub fn base<'a>(
    program: &Program,
    table: &Table,
    frame: &'a Frame,
    var: u32,
) -> Result<Base<'a>, OutOfMemory>
    requires { IsTable program.now table.now }
    ensures { IfOk result (λ b. base_target b ≡ (frame_of program.now frame.now).base var) }
{
    match referred(&frame.references, var) {
        Some(target) => Ok(Base {
            first: target.first,
            rows: target.rows.as_slice(),
        }),
        None => Ok(Base {
            first: own_first(program, table, frame.first, var)?,
            rows: &[],
        }),
    }
}

/// What a variable is made of.
pub fn whole<'a>(program: &'a Program, var: u32) -> Cursor<'a>
    ensures { IsCursor program.now (layout_of program.now var) result }
{
    match at(program.vars.as_slice(), var as usize) {
        None => nothing(),
        Some(known) => Cursor {
            dims: known.shape.dims.as_slice(),
            plain: known.shape.plain,
            structs: program.structs.len(),
        },
    }
}

/// What has no cells.
fn nothing<'a>() -> Cursor<'a>
    ensures dims { result.dims.now ≡ [] }
    ensures plain { result.plain ≡ Struct 0 }
    ensures structs { result.structs ≡ 0 }
{
    Cursor {
        dims: &[],
        plain: Plain::Struct(0),
        structs: 0,
    }
}

// ---- steps

/// How many cells further an index leads with each step.
pub fn stride(program: &Program, table: &Table, at: Cursor<'_>) -> usize
    requires table { IsTable program.now table.now }
    requires at { at.structs ≤ length program.now.structs }
    ensures { result ≡ capped (stride_of (cursor_layout program.now at.entry)) }
{
    match at.dims {
        [] => 0,
        [n, rest @ ..] => {
            if *n > 128 {
                0
            } else {
                dims_extent(
                    program,
                    table.structs.as_slice(),
                    at.structs,
                    rest,
                    at.plain,
                )
                .cells
            }
        }
    }
}

/// An element of an array; of what is none itself.
pub fn inner<'a>(program: &Program, at: Cursor<'a>) -> Cursor<'a>
    requires { at.structs ≤ length program.now.structs }
    ensures { IsCursor program.now (inner (cursor_layout program.now at.entry)) result }
{
    match at.dims {
        [] => at,
        [_, rest @ ..] => Cursor {
            dims: rest,
            plain: at.plain,
            structs: at.structs,
        },
    }
}

/// A step to a field: how many cells stand before it, and what it leads to.
#[derive(Clone, Copy)]
pub struct Stepped<'a> {
    pub cells: usize,
    pub cursor: Cursor<'a>,
}

/// How many cells stand before a field, given what stands before each of them and in all.
fn cells_to(extents: &[Extent], f: u32) -> usize
    ensures { result ≡ cells_at extents.now f }
{
    match at(extents, f as usize) {
        Some(before) => before.cells,
        None => match extents.last() {
            Some(whole) => whole.cells,
            None => 0,
        },
    }
}

/// A field of a structure by the structure's number, which is one of the first.
fn struct_field<'a>(program: &'a Program, table: &Table, k: u32, f: u32) -> Stepped<'a>
    requires table { IsTable program.now table.now }
    requires inside { k < length program.now.structs }
    ensures { IsStepped program.now (fields (fields_made program.now k)) f result }
{
    let made = &program.structs.as_slice()[k as usize];
    let extents = table.structs.as_slice()[k as usize].as_slice();
    let cells = cells_to(extents, f);
    match at(made.fields.as_slice(), f as usize) {
        None => Stepped {
            cells,
            cursor: nothing(),
        },
        Some(field) => Stepped {
            cells,
            cursor: Cursor {
                dims: field.shape.dims.as_slice(),
                plain: field.shape.plain,
                structs: k as usize,
            },
        },
    }
}

/// A field of what an access has led to; of what is no structure itself.
pub fn field<'a>(program: &'a Program, table: &Table, at: Cursor<'a>, f: u32) -> Stepped<'a>
    requires table { IsTable program.now table.now }
    requires at { at.structs ≤ length program.now.structs }
    ensures { IsStepped program.now (cursor_layout program.now at.entry) f result }
{
    match at.dims {
        [] => match at.plain {
            Plain::Scalar(_) => Stepped {
                cells: 0,
                cursor: at,
            },
            Plain::Struct(k) => {
                if at.structs <= k as usize {
                    Stepped {
                        cells: 0,
                        cursor: at,
                    }
                } else {
                    struct_field(program, table, k, f)
                }
            }
        },
        [_, ..] => Stepped {
            cells: 0,
            cursor: at,
        },
    }
}
