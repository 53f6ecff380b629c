//! Where the cells of a program stand, and their names.

ghost use Rattle.std.specs.Prelude.{◌≡◌, ◌++◌, ◌≤◌, ◌∷◌, length, IfOk, OnOk, Some};
ghost use Rattle.sa_typed.specs.Cells.{cells};
ghost use Rattle.sa_typed.specs.declared.shape.Plain.TheVariants.{Struct};
ghost use Rattle.sa_cells.specs.Grounds.{IsGround};
ghost use Rattle.sa_cells.specs.Sizes.{among, no_array};
ghost use Rattle.sa_report.specs.Names.{place_text};
ghost use Rattle.sa_report.specs.Spots.{has_home, spots_from, spots_at, AreCells, IsSpot, spot_name, inside_layout, IsInside, inside_name, IsNext, Steps, HasField, IsField, index_text, star_text, dot_text, at_text};

use sa_base::{OutOfMemory, Pos};
use sa_cells::{Extent, Ground};
use sa_typed::{Home, Plain, Program, Var};
use std::alloc::Global;

/// Where variables of one kind live.
#[derive(Clone, Copy, Debug, PartialEq, Eq)]
enum Sort {
    Global,
    Static,
    Local,
}

/// A cell by its variable and its number there.
#[derive(Clone, Copy, Debug, PartialEq, Eq)]
pub struct Spot {
    pub var: usize,
    pub number: usize,
}

/// The cells of a program: what is fixed of it, and where each cell stands.
#[derive(Debug, Drop)]
pub struct Cells {
    pub ground: Ground,
    pub spots: Vec<Spot>,
}

/// A cell within an object: the dimensions that are left of the object's shape, what they are around, which may hold the first
/// `structs` structures, how many cells it has, and the number of the cell among them.
#[derive(Clone, Copy)]
struct Inside<'a> {
    dims: &'a [u32],
    plain: Plain,
    structs: usize,
    cells: usize,
    number: usize,
}

// ---- where cells stand

impl Cells {
    /// The cells of a program that has at most 65,536.
    pub fn of(alloc: Global, program: &Program) -> Result<Cells, OutOfMemory>
        requires { length (cells program.now) ≤ 65536 }
        ensures { IfOk result (λ t. AreCells program.now t) }
    {
        let ground = Ground::of(alloc, program)?;
        let mut spots = Vec::new(alloc);
        push_sort(&mut spots, program, &ground, Sort::Global)?;
        push_sort(&mut spots, program, &ground, Sort::Static)?;
        push_sort(&mut spots, program, &ground, Sort::Local)?;
        Ok(Cells { ground, spots })
    }
}

fn has_home(sort: Sort, home: Home) -> bool
    ensures { result ≡ has_home sort home }
{
    match sort {
        Sort::Global => matches!(home, Home::Global),
        Sort::Static => matches!(home, Home::Static),
        Sort::Local => matches!(home, Home::Local(_)),
    }
}

/// Adds so many cells of a variable.
fn push_var_spots(spots: &mut Vec<Spot>, var: usize, cells: usize) -> Result<(), OutOfMemory>
    ensures { OnOk result (spots.new.items ≡ spots.old.items ++ spots_from var cells 0) }
{
    for number in 0..cells {
        spots.push(Spot { var, number })?;
    }
    Ok(())
}

/// Adds the cells of the variables that live there.
fn push_sort(
    spots: &mut Vec<Spot>,
    program: &Program,
    ground: &Ground,
    sort: Sort,
) -> Result<(), OutOfMemory>
    requires { IsGround program.now ground.now }
    ensures { OnOk result (spots.new.items ≡ spots.old.items ++ spots_at program.now sort 0 program.now.vars) }
{
    let vars = program.vars.as_slice();
    let stretches = ground.vars.as_slice();
    for var in 0..vars.len() {
        if has_home(sort, vars[var].home) {
            push_var_spots(spots, var, stretches[var].cells)?;
        }
    }
    Ok(())
}

// ---- names

/// `[3]`
#[tactic(auto, unfolding(crate::specs::Spots::index_text))]
fn push_index(alloc: Global, text: &mut Vec<u8>, index: usize) -> Result<(), OutOfMemory>
    ensures { OnOk result (text.new.items ≡ text.old.items ++ index_text index) }
{
    let part = format!(in alloc; "[{index}]")?;
    text.extend_from_slice(part.as_bytes())
}

/// `[*]`
#[tactic(auto, unfolding(crate::specs::Spots::star_text))]
fn push_star(text: &mut Vec<u8>) -> Result<(), OutOfMemory>
    ensures { OnOk result (text.new.items ≡ text.old.items ++ star_text) }
{
    text.extend_from_slice("[*]".as_bytes())
}

/// `.f`
#[tactic(auto, unfolding(crate::specs::Spots::dot_text))]
fn push_dot(text: &mut Vec<u8>, name: &[u8]) -> Result<(), OutOfMemory>
    ensures { OnOk result (text.new.items ≡ text.old.items ++ dot_text name.now) }
{
    text.extend_from_slice(".".as_bytes())?;
    text.extend_from_slice(name)
}

/// The step to the element of an array in which the cell is. Those of more than 128 are one cell together.
fn push_element<'a>(
    alloc: Global,
    text: &mut Vec<u8>,
    program: &Program,
    n: u32,
    rest: &'a [u32],
    at: Inside<'a>,
) -> Result<Inside<'a>, OutOfMemory>
    requires at { IsInside program.now at }
    requires array { at.dims.now ≡ n ∷ rest.now }
    ensures { IfOk result (λ next. IsNext program.now text.old.items text.new.items at.entry next) }
{
    if n > 128 {
        push_star(text)?;
        return Ok(Inside { dims: rest, ..at });
    }
    let cells = at.cells / n as usize;
    push_index(alloc, text, at.number / cells)?;
    Ok(Inside {
        dims: rest,
        plain: at.plain,
        structs: at.structs,
        cells,
        number: at.number % cells,
    })
}

/// The field in which the cell with this number is, of a structure whose fields begin so.
fn field_at(extents: &[Extent], number: usize) -> usize
    requires { HasField extents.now number }
    ensures { IsField extents.now number result }
{
    let mut low = 0;
    let mut high = extents.len() - 1;
    while high - low > 1 {
        let middle = low + (high - low) / 2;
        if extents[middle].cells <= number {
            low = middle;
        } else {
            high = middle;
        }
    }
    low
}

/// The step to the field of a structure in which the cell is.
fn push_field<'a>(
    text: &mut Vec<u8>,
    program: &'a Program,
    ground: &Ground,
    k: u32,
    at: Inside<'a>,
) -> Result<Inside<'a>, OutOfMemory>
    requires ground { IsGround program.now ground.now }
    requires at { IsInside program.now at }
    requires shape { inside_layout program.now at ≡ among program.now.structs at.structs (no_array (Struct k)) }
    ensures { IfOk result (λ next. IsNext program.now text.old.items text.new.items at.entry next) }
{
    let made = &program.structs.as_slice()[k as usize];
    let extents = ground.structs.as_slice()[k as usize].as_slice();
    let f = field_at(extents, at.number);
    let field = &made.fields.as_slice()[f];
    push_dot(text, field.name.bytes())?;
    Ok(Inside {
        dims: field.shape.dims.as_slice(),
        plain: field.shape.plain,
        structs: k as usize,
        cells: extents[f + 1].cells - extents[f].cells,
        number: at.number - extents[f].cells,
    })
}

/// One step of the way to a cell, and where it goes on; None where the way is over.
fn push_step<'a>(
    alloc: Global,
    text: &mut Vec<u8>,
    program: &'a Program,
    ground: &Ground,
    at: Inside<'a>,
) -> Result<Option<Inside<'a>>, OutOfMemory>
    requires ground { IsGround program.now ground.now }
    requires at { IsInside program.now at }
    ensures { IfOk result (Steps program.now text.old.items text.new.items at.entry) }
{
    if let [n, rest @ ..] = at.dims {
        let next = push_element(alloc, text, program, *n, rest, at)?;
        return Ok(Some(next));
    }
    match at.plain {
        Plain::Scalar(_) => Ok(None),
        Plain::Struct(k) => {
            let next = push_field(text, program, ground, k, at)?;
            Ok(Some(next))
        }
    }
}

/// The steps to a cell.
fn push_steps<'a>(
    alloc: Global,
    text: &mut Vec<u8>,
    program: &'a Program,
    ground: &Ground,
    start: Inside<'a>,
) -> Result<(), OutOfMemory>
    requires ground { IsGround program.now ground.now }
    requires start { IsInside program.now start }
    ensures { OnOk result (text.new.items ≡ text.old.items ++ inside_name program.now start.entry) }
{
    let mut at = start;
    while let Some(next) = push_step(alloc, text, program, ground, at)? {
        at = next;
    }
    Ok(())
}

/// `@3:5` of a variable that isn't global.
fn push_place(alloc: Global, text: &mut Vec<u8>, home: Home, pos: Pos) -> Result<(), OutOfMemory>
    ensures { OnOk result (text.new.items ≡ text.old.items ++ place_text home pos) }
{
    match home {
        Home::Global => Ok(()),
        Home::Static | Home::Local(_) => push_at(alloc, text, pos),
    }
}

fn push_at(alloc: Global, text: &mut Vec<u8>, pos: Pos) -> Result<(), OutOfMemory>
    ensures { OnOk result (text.new.items ≡ text.old.items ++ at_text pos) }
{
    let line = pos.line;
    let col = pos.col;
    let part = format!(in alloc; "@{line}:{col}")?;
    text.extend_from_slice(part.as_bytes())
}

/// The name of the cell that stands there.
pub fn push_name(
    alloc: Global,
    text: &mut Vec<u8>,
    program: &Program,
    cells: &Cells,
    spot: Spot,
) -> Result<(), OutOfMemory>
    requires cells { AreCells program.now cells.now }
    requires spot { IsSpot program.now spot }
    ensures { OnOk result (text.new.items ≡ text.old.items ++ spot_name program.now spot) }
{
    let var = &program.vars.as_slice()[spot.var];
    let stretch = cells.ground.vars.as_slice()[spot.var];
    text.extend_from_slice(var.name.bytes())?;
    push_place(alloc, text, var.home, var.pos)?;
    let start = Inside {
        dims: var.shape.dims.as_slice(),
        plain: var.shape.plain,
        structs: program.structs.len(),
        cells: stretch.cells,
        number: spot.number,
    };
    push_steps(alloc, text, program, &cells.ground, start)
}
