//! Names of cells and loops.

ghost use Rattle.std.specs.Prelude.{◌≡◌, ◌++◌, ◌≤◌, ◌∷◌, length, reverse, Some, IfOk, OnOk};
ghost use Rattle.sa_typed.specs.declared.shape.Plain.TheVariants.{Struct};
ghost use Rattle.sa_ir.specs.Names.{pos_text, path_before, place_text, var_text, call_text, loop_text};
ghost use Rattle.sa_ir.specs.Naming.{inside_layout, IsInside, inside_name, IsNext, Steps, HasField, IsField, index_text, star_text, dot_text};
ghost use Rattle.sa_ir.specs.Sizes.{among, no_array, all_extents};

use crate::OutOfMemory;
use crate::sizes::Extent;
use sa_base::Pos;
use sa_typed::{Home, Plain, Program, Var};
use sqlite_items::Items;
use std::alloc::Global;

/// A cell within an object: the dimensions that are left of the object's shape, what they are around, which may hold the first
/// `structs` structures, how many cells it has, and the number of the cell among them.
#[derive(Clone, Copy)]
pub struct Inside<'a> {
    pub dims: &'a [u32],
    pub plain: Plain,
    pub structs: usize,
    pub cells: usize,
    pub number: usize,
}

/// `[3]`
#[tactic(auto, unfolding(crate::specs::Naming::index_text))]
fn push_index(alloc: Global, text: &mut Vec<u8>, index: usize) -> Result<(), OutOfMemory>
    ensures { OnOk result (text.new.items ≡ text.old.items ++ index_text index) }
{
    let part = format!(in alloc; "[{index}]")?;
    text.extend_from_slice(part.as_bytes())
}

/// `[*]`
#[tactic(auto, unfolding(crate::specs::Naming::star_text))]
fn push_star(text: &mut Vec<u8>) -> Result<(), OutOfMemory>
    ensures { OnOk result (text.new.items ≡ text.old.items ++ star_text) }
{
    text.extend_from_slice("[*]".as_bytes())
}

/// `.f`
#[tactic(auto, unfolding(crate::specs::Naming::dot_text))]
fn push_dot(text: &mut Vec<u8>, name: &[u8]) -> Result<(), OutOfMemory>
    ensures { OnOk result (text.new.items ≡ text.old.items ++ dot_text name.now) }
{
    text.extend_from_slice(".".as_bytes())?;
    text.extend_from_slice(name)
}

/// The step to the element of an array in which the cell is. Those of more than 128 are one cell together.
fn push_element<'a>(
    alloc: Global,
    text: &mut Vec<u8>,
    program: &Program,
    n: u32,
    rest: &'a [u32],
    at: Inside<'a>,
) -> Result<Inside<'a>, OutOfMemory>
    requires at { IsInside program.now at }
    requires array { at.dims.now ≡ n ∷ rest.now }
    ensures { IfOk result (λ next. IsNext program.now text.old.items text.new.items at.entry next) }
{
    if n > 128 {
        push_star(text)?;
        return Ok(Inside { dims: rest, ..at });
    }
    let cells = at.cells / n as usize;
    push_index(alloc, text, at.number / cells)?;
    Ok(Inside {
        dims: rest,
        plain: at.plain,
        structs: at.structs,
        cells,
        number: at.number % cells,
    })
}

/// The field in which the cell with this number is, of a structure whose fields begin so.
fn field_at(extents: &[Extent], number: usize) -> usize
    requires { HasField extents.now number }
    ensures { IsField extents.now number result }
{
    let mut low = 0;
    let mut high = extents.len() - 1;
    while high - low > 1 {
        let middle = low + (high - low) / 2;
        if extents[middle].cells <= number {
            low = middle;
        } else {
            high = middle;
        }
    }
    low
}

/// The step to the field of a structure in which the cell is.
fn push_field<'a>(
    text: &mut Vec<u8>,
    program: &'a Program,
    structs: &Items<Items<Extent>>,
    k: u32,
    at: Inside<'a>,
) -> Result<Inside<'a>, OutOfMemory>
    requires structs { structs.now ≡ all_extents (reverse program.now.structs) }
    requires at { IsInside program.now at }
    requires shape { inside_layout program.now at ≡ among program.now.structs at.structs (no_array (Struct k)) }
    ensures { IfOk result (λ next. IsNext program.now text.old.items text.new.items at.entry next) }
{
    let made = &program.structs.as_slice()[k as usize];
    let extents = structs.as_slice()[k as usize].as_slice();
    let f = field_at(extents, at.number);
    let field = &made.fields.as_slice()[f];
    push_dot(text, field.name.bytes())?;
    Ok(Inside {
        dims: field.shape.dims.as_slice(),
        plain: field.shape.plain,
        structs: k as usize,
        cells: extents[f + 1].cells - extents[f].cells,
        number: at.number - extents[f].cells,
    })
}

/// One step of the way to a cell, and where it goes on; None where the way is over.
fn push_step<'a>(
    alloc: Global,
    text: &mut Vec<u8>,
    program: &'a Program,
    structs: &Items<Items<Extent>>,
    at: Inside<'a>,
) -> Result<Option<Inside<'a>>, OutOfMemory>
    requires structs { structs.now ≡ all_extents (reverse program.now.structs) }
    requires at { IsInside program.now at }
    ensures { IfOk result (Steps program.now text.old.items text.new.items at.entry) }
{
    if let [n, rest @ ..] = at.dims {
        let next = push_element(alloc, text, program, *n, rest, at)?;
        return Ok(Some(next));
    }
    match at.plain {
        Plain::Scalar(_) => Ok(None),
        Plain::Struct(k) => {
            let next = push_field(text, program, structs, k, at)?;
            Ok(Some(next))
        }
    }
}

/// The steps to a cell.
pub fn push_steps<'a>(
    alloc: Global,
    text: &mut Vec<u8>,
    program: &'a Program,
    structs: &Items<Items<Extent>>,
    start: Inside<'a>,
) -> Result<(), OutOfMemory>
    requires structs { structs.now ≡ all_extents (reverse program.now.structs) }
    requires start { IsInside program.now start }
    ensures { OnOk result (text.new.items ≡ text.old.items ++ inside_name program.now start.entry) }
{
    let mut at = start;
    while let Some(next) = push_step(alloc, text, program, structs, at)? {
        at = next;
    }
    Ok(())
}

/// `3:5`
pub fn push_pos(alloc: Global, text: &mut Vec<u8>, pos: Pos) -> Result<(), OutOfMemory>
    ensures { OnOk result (text.new.items ≡ text.old.items ++ pos_text pos) }
{
    let line = pos.line;
    let col = pos.col;
    let part = format!(in alloc; "{line}:{col}")?;
    text.extend_from_slice(part.as_bytes())
}

/// `@3:5` of a variable that isn't global.
fn push_place(alloc: Global, text: &mut Vec<u8>, home: Home, pos: Pos) -> Result<(), OutOfMemory>
    ensures { OnOk result (text.new.items ≡ text.old.items ++ place_text home pos) }
{
    match home {
        Home::Global => Ok(()),
        Home::Static | Home::Local(_) => {
            text.extend_from_slice("@".as_bytes())?;
            push_pos(alloc, text, pos)
        }
    }
}

/// The path to a local.
fn push_path(text: &mut Vec<u8>, prefix: &[u8], home: Home) -> Result<(), OutOfMemory>
    ensures { OnOk result (text.new.items ≡ text.old.items ++ path_before prefix.now home) }
{
    match home {
        Home::Global | Home::Static => Ok(()),
        Home::Local(_) => text.extend_from_slice(prefix),
    }
}

/// The name of a variable in a call to which the path with this text leads.
#[tactic(auto, unfolding(crate::specs::Names::var_text))]
pub fn push_var(
    alloc: Global,
    text: &mut Vec<u8>,
    prefix: &[u8],
    var: &Var,
) -> Result<(), OutOfMemory>
    ensures { OnOk result (text.new.items ≡ text.old.items ++ var_text prefix.now (Some var.now)) }
{
    push_path(text, prefix, var.home)?;
    text.extend_from_slice(var.name.bytes())?;
    push_place(alloc, text, var.home, var.pos)
}
