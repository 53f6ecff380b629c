//! How many cells and elements shapes have.

ghost use Rattle.std.specs.Prelude.{ℕ, ◌≡◌, ◌+◌, ◌*◌, ◌<◌, length, reverse, IfOk};
ghost use Rattle.sa_typed.specs.declared.shape.Plain.TheVariants.{Struct};
ghost use Rattle.sa_ir.specs.Sizes.{cells_for, extent, extent_of, extents_from, all_extents, among, fields_of, no_array, shape_of, Covers};

use crate::OutOfMemory;
use sa_typed::{FieldDef, Plain, Program, Shape};
use sqlite_items::{Items, at};
use std::alloc::Global;

/// How many cells and how many elements there are. A number that doesn't fit is the greatest that does.
#[derive(Clone, Copy, Debug, PartialEq, Eq)]
pub struct Extent {
    pub cells: usize,
    pub elements: usize,
}

/// How many cells and elements a shape has, which may hold the first `structs` structures.
pub fn shape_extent(
    program: &Program,
    table: &[Items<Extent>],
    structs: usize,
    shape: &Shape,
) -> Extent
    requires { Covers program.now.structs structs table.now }
    ensures { result ≡ extent_of (among program.now.structs structs shape.now) }
{
    dims_extent(program, table, structs, shape.dims.as_slice(), shape.plain)
}

/// How many cells and elements arrays of these dimensions have, around what may hold the first `structs` structures.
pub fn dims_extent(
    program: &Program,
    table: &[Items<Extent>],
    structs: usize,
    dims: &[u32],
    plain: Plain,
) -> Extent
    requires { Covers program.now.structs structs table.now }
    ensures { result ≡ extent_of (among program.now.structs structs (shape_of dims.now plain)) }
{
    let mut each = Extent {
        cells: 1,
        elements: 1,
    };
    for n in dims {
        each = several(each, *n);
    }
    let one = plain_extent(program, table, structs, plain);
    Extent {
        cells: each.cells.saturating_mul(one.cells),
        elements: each.elements.saturating_mul(one.elements),
    }
}

/// An array of so many.
fn several(each: Extent, n: u32) -> Extent
    ensures { result ≡ extent (each.cells * cells_for n) (each.elements * n) }
{
    Extent {
        cells: each.cells.saturating_mul(cells_for(n)),
        elements: each.elements.saturating_mul(n as usize),
    }
}

/// The cells of how many elements an array of so many has: one has those of all where there are more than 128.
#[tactic(auto, unfolding(crate::specs::Sizes::cells_for))]
fn cells_for(n: u32) -> usize
    ensures { result ≡ cells_for n }
{
    if n <= 128 { n as usize } else { 1 }
}

/// How many cells and elements a number or a structure has.
pub fn plain_extent(
    program: &Program,
    table: &[Items<Extent>],
    structs: usize,
    plain: Plain,
) -> Extent
    requires { Covers program.now.structs structs table.now }
    ensures { result ≡ extent_of (among program.now.structs structs (no_array plain)) }
{
    match plain {
        Plain::Scalar(_) => Extent {
            cells: 1,
            elements: 1,
        },
        Plain::Struct(k) => struct_extent(program, table, structs, k),
    }
}

/// How many cells and elements a structure has, if it is one of the first.
fn struct_extent(program: &Program, table: &[Items<Extent>], structs: usize, k: u32) -> Extent
    requires { Covers program.now.structs structs table.now }
    ensures { result ≡ extent_of (among program.now.structs structs (no_array (Struct k))) }
{
    let none = Extent {
        cells: 0,
        elements: 0,
    };
    if structs <= k as usize {
        return none;
    }
    let Some(fields) = at(table, k as usize) else {
        return none;
    };
    match fields.as_slice().last() {
        Some(whole) => *whole,
        None => none,
    }
}

/// Of each structure what stands before each field, and in all.
pub fn struct_table(alloc: Global, program: &Program) -> Result<Items<Items<Extent>>, OutOfMemory>
    ensures { IfOk result (λ r. r ≡ all_extents (reverse program.now.structs)) }
{
    let structs = program.structs.as_slice();
    let mut table = Vec::with_capacity(alloc, structs.len())?;
    for k in 0..structs.len() {
        let extents = field_extents(alloc, program, &table, k, structs[k].fields.as_slice())?;
        table.push(extents)?;
    }
    Ok(Items::from_vec(table))
}

/// What stands before each of these fields, which hold the first `structs` structures, and in all.
fn field_extents(
    alloc: Global,
    program: &Program,
    table: &[Items<Extent>],
    structs: usize,
    fields: &[FieldDef],
) -> Result<Items<Extent>, OutOfMemory>
    requires { Covers program.now.structs structs table.now }
    ensures { IfOk result (λ r. r ≡ extents_from 0 0 (fields_of program.now.structs structs fields.now)) }
{
    let mut extents = Vec::with_capacity(alloc, fields.len().saturating_add(1))?;
    let mut before = Extent {
        cells: 0,
        elements: 0,
    };
    for field in fields {
        extents.push(before)?;
        before = together(before, shape_extent(program, table, structs, &field.shape));
    }
    extents.push(before)?;
    Ok(Items::from_vec(extents))
}

fn together(a: Extent, b: Extent) -> Extent
    ensures { result ≡ extent (a.cells + b.cells) (a.elements + b.elements) }
{
    Extent {
        cells: a.cells.saturating_add(b.cells),
        elements: a.elements.saturating_add(b.elements),
    }
}
