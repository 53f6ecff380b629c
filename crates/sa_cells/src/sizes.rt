//! How many cells and elements shapes have.

ghost use Rattle.std.specs.Prelude.{ℕ, ◌≡◌, ◌*◌, ◌<◌, length};
ghost use Rattle.sa_typed.specs.declared.shape.Plain.TheVariants.{Struct};
ghost use Rattle.sa_cells.specs.Sizes.{cells_for, extent, extent_of, among, no_array, Covers};

use crate::ground::Extent;
use sa_typed::{Plain, Program, Shape};
use sqlite_items::{Items, at};

/// How many cells and elements a shape has, which may hold the first `structs` structures.
pub(crate) fn shape_extent(
    program: &Program,
    table: &[Items<Extent>],
    structs: usize,
    shape: &Shape,
) -> Extent
    requires { Covers program.now.structs structs table.now }
    ensures { result ≡ extent_of (among program.now.structs structs shape.now) }
{
    let mut each = Extent {
        cells: 1,
        elements: 1,
    };
    let dims = shape.dims.as_slice();
    for n in dims {
        each = several(each, *n);
    }
    let one = plain_extent(program, table, structs, shape.plain);
    Extent {
        cells: each.cells.saturating_mul(one.cells),
        elements: each.elements.saturating_mul(one.elements),
    }
}

/// An array of so many.
fn several(each: Extent, n: u32) -> Extent
    ensures { result ≡ extent (each.cells * cells_for n) (each.elements * n) }
{
    Extent {
        cells: each.cells.saturating_mul(cells_for(n)),
        elements: each.elements.saturating_mul(n as usize),
    }
}

/// The cells of how many elements an array of so many has: one has those of all where there are more than 128.
#[tactic(auto, unfolding(crate::specs::Sizes::cells_for))]
fn cells_for(n: u32) -> usize
    ensures { result ≡ cells_for n }
{
    if n <= 128 { n as usize } else { 1 }
}

/// How many cells and elements a number or a structure has.
pub(crate) fn plain_extent(
    program: &Program,
    table: &[Items<Extent>],
    structs: usize,
    plain: Plain,
) -> Extent
    requires { Covers program.now.structs structs table.now }
    ensures { result ≡ extent_of (among program.now.structs structs (no_array plain)) }
{
    match plain {
        Plain::Scalar(_) => Extent {
            cells: 1,
            elements: 1,
        },
        Plain::Struct(k) => struct_extent(program, table, structs, k),
    }
}

/// How many cells and elements a structure has, if it is one of the first.
fn struct_extent(program: &Program, table: &[Items<Extent>], structs: usize, k: u32) -> Extent
    requires { Covers program.now.structs structs table.now }
    ensures { result ≡ extent_of (among program.now.structs structs (no_array (Struct k))) }
{
    let none = Extent {
        cells: 0,
        elements: 0,
    };
    if structs <= k as usize {
        return none;
    }
    let Some(fields) = at(table, k as usize) else {
        return none;
    };
    match fields.as_slice().last() {
        Some(whole) => *whole,
        None => none,
    }
}
