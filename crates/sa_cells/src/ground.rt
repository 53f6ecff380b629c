//! What is fixed of a program during an analysis.

ghost use Rattle.std.specs.Prelude.{◌≡◌, ◌≤◌, ◌<◌, ◌+◌, [], ◌++◌, IfOk, OnOk, length, map, reverse, if◌then◌else◌};
ghost use Rattle.sa_typed.specs.Cells.{cells, cells_at};
ghost use Rattle.sa_typed.specs.Layouts.{shape_layout};
ghost use Rattle.sa_operators.specs.Operators.{range_of};
ghost use Rattle.sa_cells.specs.Grounds.{IsGround};
ghost use Rattle.sa_cells.specs.Sizes.{size, capped, extent, extents_from, all_extents, among, fields_of, Covers};
ghost use Rattle.sa_cells.specs.Spots.{all_slots, AreCores};
ghost use Rattle.sa_cells.specs.Stretches.{stretches, next_at, next_for, moved_next, sort_test, bare_slots};

use crate::OutOfMemory;
use crate::sizes::shape_extent;
use crate::slots::{Core, Slot, cores, slots};
use sa_base::Num;
use sa_interval::Interval;
use sa_typed::{FieldDef, Home, Program, Var};
use sqlite_items::Items;
use std::alloc::Global;

/// How many cells and how many elements there are. A number that doesn't fit is the greatest that does.
#[derive(Clone, Copy, Debug, PartialEq, Eq)]
pub struct Extent {
    pub cells: usize,
    pub elements: usize,
}

/// Where the cells of a variable stand: the number of the first, and how many there are.
#[derive(Clone, Copy, Debug, PartialEq, Eq)]
pub struct Stretch {
    pub first: usize,
    pub cells: usize,
}

/// Of each cell its type's range and whether it stands for several elements. Of each variable where its cells stand. Of each
/// structure what stands before each field, and last what stands in all of them; and a simpler type with the same cells, if
/// there is one.
#[derive(Debug, Drop)]
pub struct Ground {
    pub tops: Items<Interval>,
    pub starred: Items<bool>,
    pub vars: Items<Stretch>,
    pub structs: Items<Items<Extent>>,
    pub cores: Items<Option<Core>>,
}

impl Ground {
    /// What is fixed of a program that has at most 65,536 cells.
    pub fn of(alloc: Global, program: &Program) -> Result<Ground, OutOfMemory>
        requires { length (cells program.now) ≤ 65536 }
        ensures { IfOk result (λ g. IsGround program.now g) }
    {
        let structs = struct_table(alloc, program)?;
        let vars = stretches(alloc, program, structs.as_slice())?;
        let cores = cores(alloc, program)?;
        let slots = bare_slots(alloc, program, structs.as_slice(), cores.as_slice())?;
        Ok(Ground {
            tops: tops(alloc, &slots)?,
            starred: stars(alloc, &slots)?,
            vars,
            structs,
            cores,
        })
    }
}

/// Of each structure what stands before each field, and in all.
fn struct_table(alloc: Global, program: &Program) -> Result<Items<Items<Extent>>, OutOfMemory>
    ensures { IfOk result (λ r. r ≡ all_extents (reverse program.now.structs)) }
{
    let structs = program.structs.as_slice();
    let mut table = Vec::with_capacity(alloc, structs.len())?;
    for k in 0..structs.len() {
        let extents = field_extents(alloc, program, &table, k, structs[k].fields.as_slice())?;
        table.push(extents)?;
    }
    Ok(Items::from_vec(table))
}

/// What stands before each of these fields, which hold the first `structs` structures, and in all.
fn field_extents(
    alloc: Global,
    program: &Program,
    table: &[Items<Extent>],
    structs: usize,
    fields: &[FieldDef],
) -> Result<Items<Extent>, OutOfMemory>
    requires { Covers program.now.structs structs table.now }
    ensures { IfOk result (λ r. r ≡ extents_from 0 0 (fields_of program.now.structs structs fields.now)) }
{
    let mut extents = Vec::with_capacity(alloc, fields.len().saturating_add(1))?;
    let mut before = Extent {
        cells: 0,
        elements: 0,
    };
    for field in fields {
        extents.push(before)?;
        before = together(before, shape_extent(program, table, structs, &field.shape));
    }
    extents.push(before)?;
    Ok(Items::from_vec(extents))
}

fn together(a: Extent, b: Extent) -> Extent
    ensures { result ≡ extent (a.cells + b.cells) (a.elements + b.elements) }
{
    Extent {
        cells: a.cells.saturating_add(b.cells),
        elements: a.elements.saturating_add(b.elements),
    }
}

/// Where variables live, apart from which function a local is of.
#[derive(Clone, Copy, Debug)]
enum Sort {
    Global,
    Static,
    Local,
}

/// Where the next variables' cells begin, by where these live.
#[derive(Clone, Copy, Debug)]
struct Next {
    globals: usize,
    statics: usize,
    locals: usize,
}

/// Of each variable where its cells stand.
fn stretches(
    alloc: Global,
    program: &Program,
    table: &[Items<Extent>],
) -> Result<Items<Stretch>, OutOfMemory>
    requires few { length (cells program.now) ≤ 65536 }
    requires table { Covers program.now.structs (length program.now.structs) table.now }
    ensures { IfOk result (λ r. r ≡ stretches program.now 0 program.now.vars) }
{
    let vars = program.vars.as_slice();
    let mut all = Vec::with_capacity(alloc, vars.len())?;
    let mut next = first_cells(program, table);
    for k in 0..vars.len() {
        let var = &vars[k];
        let cells = shape_extent(program, table, program.structs.len(), &var.shape).cells;
        let first = next_for(next, var.home);
        all.push(Stretch { first, cells })?;
        next = moved(next, var.home, cells);
    }
    Ok(Items::from_vec(all))
}

/// Where the cells of the first variables begin.
fn first_cells(program: &Program, table: &[Items<Extent>]) -> Next
    requires few { length (cells program.now) ≤ 65536 }
    requires table { Covers program.now.structs (length program.now.structs) table.now }
    ensures { result ≡ next_at program.now 0 }
{
    let globals = count(program, table, Sort::Global);
    let statics = count(program, table, Sort::Static);
    Next {
        globals: 0,
        statics: globals,
        locals: globals.saturating_add(statics),
    }
}

/// How many cells the variables of a sort have.
fn count(program: &Program, table: &[Items<Extent>], sort: Sort) -> usize
    requires few { length (cells program.now) ≤ 65536 }
    requires table { Covers program.now.structs (length program.now.structs) table.now }
    ensures { result ≡ length (cells_at program.now (sort_test sort) 0 program.now.vars) }
{
    let mut cells = 0;
    for var in program.vars.as_slice() {
        cells = with_cells(program, table, sort, var, cells);
    }
    cells
}

/// With the cells of a variable, if it is of the sort.
fn with_cells(
    program: &Program,
    table: &[Items<Extent>],
    sort: Sort,
    var: &Var,
    cells: usize,
) -> usize
    requires { Covers program.now.structs (length program.now.structs) table.now }
    ensures { result ≡ (if sort_test sort var.now.home then capped (cells + capped (size (among program.now.structs (length program.now.structs) var.now.shape))) else cells) }
{
    if is_of(sort, var.home) {
        let extent = shape_extent(program, table, program.structs.len(), &var.shape);
        cells.saturating_add(extent.cells)
    } else {
        cells
    }
}

fn is_of(sort: Sort, home: Home) -> bool
    ensures { result ≡ sort_test sort home }
{
    match sort {
        Sort::Global => matches!(home, Home::Global),
        Sort::Static => matches!(home, Home::Static),
        Sort::Local => matches!(home, Home::Local(_)),
    }
}

fn next_for(next: Next, home: Home) -> usize
    ensures { result ≡ next_for next home }
{
    match home {
        Home::Global => next.globals,
        Home::Static => next.statics,
        Home::Local(_) => next.locals,
    }
}

/// Behind the cells of a variable.
fn moved(next: Next, home: Home, cells: usize) -> Next
    ensures { result ≡ moved_next next home cells }
{
    match home {
        Home::Global => Next {
            globals: next.globals.saturating_add(cells),
            ..next
        },
        Home::Static => Next {
            statics: next.statics.saturating_add(cells),
            ..next
        },
        Home::Local(_) => Next {
            locals: next.locals.saturating_add(cells),
            ..next
        },
    }
}

/// All cells in their order, without their initial values.
fn bare_slots(
    alloc: Global,
    program: &Program,
    table: &[Items<Extent>],
    cores: &[Option<Core>],
) -> Result<Vec<Slot>, OutOfMemory>
    requires table { Covers program.now.structs (length program.now.structs) table.now }
    requires cores { AreCores program.now.structs cores.now }
    ensures { IfOk result (λ r. r.items ≡ bare_slots (cells program.now)) }
{
    let mut all = Vec::new(alloc);
    push_sort(alloc, program, table, cores, Sort::Global, &mut all)?;
    push_sort(alloc, program, table, cores, Sort::Static, &mut all)?;
    push_sort(alloc, program, table, cores, Sort::Local, &mut all)?;
    Ok(all)
}

/// Adds the cells of the variables of a sort.
fn push_sort(
    alloc: Global,
    program: &Program,
    table: &[Items<Extent>],
    cores: &[Option<Core>],
    sort: Sort,
    all: &mut Vec<Slot>,
) -> Result<(), OutOfMemory>
    requires table { Covers program.now.structs (length program.now.structs) table.now }
    requires cores { AreCores program.now.structs cores.now }
    ensures { OnOk result (all.new.items ≡ all.old.items ++ bare_slots (cells_at program.now (sort_test sort) 0 program.now.vars)) }
{
    for var in program.vars.as_slice() {
        push_var(alloc, program, table, cores, sort, var, all)?;
    }
    Ok(())
}

/// Adds the cells of a variable, if it is of the sort.
fn push_var(
    alloc: Global,
    program: &Program,
    table: &[Items<Extent>],
    cores: &[Option<Core>],
    sort: Sort,
    var: &Var,
    all: &mut Vec<Slot>,
) -> Result<(), OutOfMemory>
    requires table { Covers program.now.structs (length program.now.structs) table.now }
    requires cores { AreCores program.now.structs cores.now }
    ensures { OnOk result (all.new.items ≡ all.old.items ++ (if sort_test sort var.now.home then all_slots [] (shape_layout program.now.structs var.now.shape) else [])) }
{
    if is_of(sort, var.home) {
        let more = slots(alloc, program, table, cores, &var.shape, &[])?;
        all.extend_from_slice(&more)?;
    }
    Ok(())
}

/// Of each cell its type's range.
fn tops(alloc: Global, slots: &[Slot]) -> Result<Items<Interval>, OutOfMemory>
    ensures { IfOk result (λ r. r ≡ map (λ s. range_of s.num) slots.now) }
{
    let mut tops = Vec::with_capacity(alloc, slots.len())?;
    for slot in slots {
        tops.push(range_of(slot.num))?;
    }
    Ok(Items::from_vec(tops))
}

/// The range of a type.
fn range_of(num: Num) -> Interval
    ensures { result ≡ range_of num }
{
    Interval::new(num.lo(), num.hi())
}

/// Of each cell whether it stands for several elements.
fn stars(alloc: Global, slots: &[Slot]) -> Result<Items<bool>, OutOfMemory>
    ensures { IfOk result (λ r. r ≡ map (λ s. s.starred) slots.now) }
{
    let mut stars = Vec::with_capacity(alloc, slots.len())?;
    for slot in slots {
        stars.push(slot.starred)?;
    }
    Ok(Items::from_vec(stars))
}
