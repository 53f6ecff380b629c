//! Where the cells of variables stand.

ghost use Rattle.std.specs.Prelude.{◌≡◌, ◌<◌, ◌≤◌, ◌+◌, ◌&&◌, not, ℕ, if◌then◌else◌, length, get_or, replicate, reverse, slice_get, false, IfOk, OnOk, Some};
ghost use Rattle.sa_typed.specs.Frames.{is_reference, same_home};
ghost use Rattle.sa_typed.specs.declared.program.Home.{Home};
ghost use Rattle.sa_ir.specs.Sizes.{all_extents};
ghost use Rattle.sa_ir.specs.Tables.{with_param, with_params, with_funcs, empty, pushed, section_of, seat_at, AreSections, IsTable};

use crate::OutOfMemory;
use crate::sizes::{Extent, shape_extent, struct_table};
use crate::slots::{Core, cores};
use sa_typed::{Func, Home, Param, Program, Var};
use sqlite_items::{Items, at};
use std::alloc::{AllocError, Global};

/// Of a variable how many cells of its home stand before its own, and how many it has.
#[derive(Clone, Copy, Debug, PartialEq, Eq)]
pub struct Seat {
    pub offset: usize,
    pub cells: usize,
}

/// The variables of one home that have cells, in the order of their declarations, and how many cells these are.
#[derive(Debug, Drop)]
pub struct Section {
    pub cells: usize,
    pub vars: Items<u32>,
}

/// The sections of globals, of static locals, and of the functions' locals.
#[derive(Debug, Drop)]
pub struct Sections {
    pub globals: Section,
    pub statics: Section,
    pub locals: Vec<Section>,
}

/// What is fixed of a program's objects: of each structure what stands before each field, and last what stands in all of them;
/// a simpler type with the same cells, if there is one; of each variable where its cells stand; and the sections.
#[derive(Debug, Drop)]
pub struct Table {
    pub structs: Items<Items<Extent>>,
    pub cores: Items<Option<Core>>,
    pub seats: Items<Seat>,
    pub sections: Sections,
}

// ---- references

#[tactic(auto, unfolding(crate::specs::Tables::with_param))]
fn with_param(flags: &mut [bool], param: Param)
    ensures { flags.new ≡ with_param param flags.old }
{
    if param.reference && (param.var as usize) < flags.len() {
        flags[param.var as usize] = true;
    }
}

fn with_params(flags: &mut [bool], params: &[Param])
    ensures { flags.new ≡ with_params params.now flags.old }
{
    for param in params {
        with_param(flags, *param);
    }
}

fn with_funcs(flags: &mut [bool], funcs: &[Func])
    ensures { flags.new ≡ with_funcs funcs.now flags.old }
{
    for func in funcs {
        with_params(flags, func.params.as_slice());
    }
}

/// Of each variable whether it is a parameter that stands for another object.
fn references(alloc: Global, program: &Program) -> Result<Vec<bool>, OutOfMemory>
    ensures { IfOk result (λ r. r.items ≡ with_funcs program.now.funcs (replicate (length program.now.vars) false)) }
{
    let mut flags = vec![in alloc; false; program.vars.len()]?;
    with_funcs(&mut flags, program.funcs.as_slice());
    Ok(flags)
}

// ---- sections

impl Section {
    fn new(alloc: Global) -> Section
        ensures { result ≡ empty }
    {
        Section {
            cells: 0,
            vars: Items::new(alloc),
        }
    }
}

/// One more variable with so many cells.
fn push(section: &mut Section, var: u32, cells: usize) -> Result<(), OutOfMemory>
    ensures { OnOk result (section.new ≡ pushed section.old var cells) }
{
    section.vars.push(var)?;
    section.cells = section.cells.saturating_add(cells);
    Ok(())
}

/// As many sections as it takes for one with this number.
fn grow(alloc: Global, locals: &mut Vec<Section>, f: u32) -> Result<(), OutOfMemory>
    ensures same { (g : ℕ) → get_or locals.new.items g empty ≡ get_or locals.old.items g empty }
    ensures long { OnOk result (f < length locals.new.items) }
{
    while locals.len() <= f as usize {
        locals.push(Section::new(alloc))?;
    }
    Ok(())
}

impl Sections {
    fn new(alloc: Global) -> Sections
        ensures { (h : Home) → section_of result h ≡ empty }
    {
        Sections {
            globals: Section::new(alloc),
            statics: Section::new(alloc),
            locals: Vec::new(alloc),
        }
    }

    /// How many cells there are so far.
    pub fn cells(&self, home: Home) -> usize
        ensures { result ≡ (section_of self.now home).cells }
    {
        match home {
            Home::Global => self.globals.cells,
            Home::Static => self.statics.cells,
            Home::Local(f) => match at(self.locals.as_slice(), f as usize) {
                None => 0,
                Some(section) => section.cells,
            },
        }
    }

    /// The variables that have cells and live there.
    pub fn vars(&self, home: Home) -> &[u32]
        ensures { result.now ≡ (section_of self.now home).vars }
    {
        match home {
            Home::Global => self.globals.vars.as_slice(),
            Home::Static => self.statics.vars.as_slice(),
            Home::Local(f) => match at(self.locals.as_slice(), f as usize) {
                None => &[],
                Some(section) => section.vars.as_slice(),
            },
        }
    }
}

/// A number as a `u32`. A list of more than those count is more than memory holds.
pub fn number(n: usize) -> Result<u32, OutOfMemory>
    ensures value { IfOk result (λ r. r ≡ n) }
    ensures few { OnOk result (n ≤ 4294967295) }
{
    if n > 0xffff_ffff {
        return Err(AllocError);
    }
    Ok(n as u32)
}

/// One more variable with so many cells, in the section of its home.
fn add(
    alloc: Global,
    sections: &mut Sections,
    home: Home,
    var: u32,
    cells: usize,
) -> Result<(), OutOfMemory>
    ensures { OnOk result ((h : Home) → section_of sections.new h ≡ (if same_home h home then pushed (section_of sections.old h) var cells else section_of sections.old h)) }
{
    match home {
        Home::Global => push(&mut sections.globals, var, cells),
        Home::Static => push(&mut sections.statics, var, cells),
        Home::Local(f) => {
            grow(alloc, &mut sections.locals, f)?;
            push(&mut sections.locals[f as usize], var, cells)
        }
    }
}

/// One more variable: where its cells stand.
fn add_var(
    alloc: Global,
    program: &Program,
    structs: &Items<Items<Extent>>,
    reference: bool,
    var: u32,
    sections: &mut Sections,
) -> Result<Seat, OutOfMemory>
    requires structs { structs.now ≡ all_extents (reverse program.now.structs) }
    requires inside { var < length program.now.vars }
    requires reference { reference ≡ is_reference program.now var }
    requires sections { AreSections program.now var sections.old }
    ensures seat { IfOk result (λ s. Some s ≡ seat_at program.now var) }
    ensures sections { OnOk result (AreSections program.now (var + 1) sections.new) }
{
    let known = &program.vars.as_slice()[var as usize];
    let extent = shape_extent(
        program,
        structs.as_slice(),
        program.structs.len(),
        &known.shape,
    );
    let offset = sections.cells(known.home);
    if !reference {
        add(alloc, sections, known.home, var, extent.cells)?;
    }
    Ok(Seat {
        offset,
        cells: extent.cells,
    })
}

/// Where the cells of each variable stand, and the sections.
fn seats(
    alloc: Global,
    program: &Program,
    structs: &Items<Items<Extent>>,
    references: &[bool],
    sections: &mut Sections,
) -> Result<Vec<Seat>, OutOfMemory>
    requires structs { structs.now ≡ all_extents (reverse program.now.structs) }
    requires references { references.now ≡ with_funcs program.now.funcs (replicate (length program.now.vars) false) }
    requires sections { (h : Home) → section_of sections.old h ≡ empty }
    ensures seats { IfOk result (λ r. (v : ℕ) → slice_get r.items v ≡ seat_at program.now v) }
    ensures sections { OnOk result (AreSections program.now (length program.now.vars) sections.new) }
{
    let mut seats = Vec::new(alloc);
    for var in 0..program.vars.len() {
        let number = number(var)?;
        let seat = add_var(alloc, program, structs, references[var], number, sections)?;
        seats.push(seat)?;
    }
    Ok(seats)
}

impl Table {
    /// What is fixed of a program's objects.
    pub fn of(alloc: Global, program: &Program) -> Result<Table, OutOfMemory>
        ensures { IfOk result (IsTable program.now) }
    {
        let structs = struct_table(alloc, program)?;
        let cores = cores(alloc, program)?;
        let references = references(alloc, program)?;
        let mut sections = Sections::new(alloc);
        let seats = seats(alloc, program, &structs, &references, &mut sections)?;
        Ok(Table {
            structs,
            cores,
            seats: Items::from_vec(seats),
            sections,
        })
    }

    /// Where the cells of a variable stand.
    pub fn seat(&self, var: u32) -> Option<Seat>
        ensures { result ≡ slice_get self.now.seats var }
    {
        self.seats.get(var as usize).copied()
    }
}
