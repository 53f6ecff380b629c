//! The cells of objects and calls.

ghost use Rattle.std.specs.Prelude.{◌≡◌, ◌<◌, ◌≤◌, ◌++◌, ◌∷◌, [], length, slice_get, Some, OnOk};
ghost use Rattle.std.specs.List.{flat_map};
ghost use Rattle.sa_typed.specs.Frames.{result_of};
ghost use Rattle.sa_typed.specs.WellTyped.{type_of};
ghost use Rattle.sa_ir.specs.Frames.{hidden, object_cells, cells_of_home, arg_cells, result_cells, call_cells};
ghost use Rattle.sa_ir.specs.Lists.{links_after, cell_at, step_cells};
ghost use Rattle.sa_ir.specs.Names.{var_text};
ghost use Rattle.sa_ir.specs.Naming.{IsInside, inside_name};
ghost use Rattle.sa_ir.specs.Tables.{IsTable};

use crate::OutOfMemory;
use crate::ir::Cell;
use crate::names::{Inside, push_steps, push_var};
use crate::slots::{Slot, slots};
use crate::table::Table;
use sa_base::{Num, Text};
use sa_typed::{Arg, Expr, Home, Link, Program, Step};
use std::alloc::{AllocError, Global};

/// A cell that no report names.
pub fn push_hidden(alloc: Global, num: Num, cells: &mut Vec<Cell>) -> Result<(), OutOfMemory>
    ensures { OnOk result (cells.new.items ≡ cells.old.items ++ hidden num ∷ []) }
{
    let name = Text::of_bytes(alloc, &[])?;
    cells.push(Cell {
        name,
        num,
        starred: false,
        hidden: true,
    })?;
    Ok(())
}

// ---- types of indices

/// The type that operators leave, of operands that follow one of this type.
fn links_after(first: Num, links: &[Link]) -> Num
    ensures { result ≡ links_after first links.now }
{
    let mut num = first;
    for link in links {
        num = link.op.result_type(link.num);
    }
    num
}

/// The type of an expression.
#[tactic(auto, using(crate::proofs::TypeLemmas::of_types))]
pub fn type_of(e: &Expr) -> Num
    ensures { result ≡ type_of e.now }
{
    match e {
        Expr::Number(_, num) | Expr::Read(_, num) | Expr::Input(_, num) => *num,
        Expr::Prefix(op, _, num, _) => op.result_type(*num),
        Expr::Cast(_, num, _) | Expr::Choice(_, _, _, num) => *num,
        Expr::Chain(first, links) => links_after(type_of(first.get()), links.as_slice()),
        Expr::And(_, _) | Expr::Or(_, _) => Num::I32,
    }
}

// ---- objects

/// More cells than a `u32` counts are more than memory holds.
fn few(n: usize) -> Result<(), OutOfMemory>
    ensures { OnOk result (n ≤ 4294967295) }
{
    if n > 0xffff_ffff {
        return Err(AllocError);
    }
    Ok(())
}

/// The cell of an object with this number, and the object's name before its own.
fn push_cell(
    alloc: Global,
    program: &Program,
    table: &Table,
    name: &[u8],
    slot: Slot,
    at: Inside<'_>,
    cells: &mut Vec<Cell>,
) -> Result<(), OutOfMemory>
    requires table { IsTable program.now table.now }
    requires at { IsInside program.now at }
    ensures { OnOk result (cells.new.items ≡ cells.old.items ++ cell_at (name.now ++ inside_name program.now at.entry) slot ∷ []) }
{
    let mut text = Vec::from_slice(alloc, name)?;
    push_steps(alloc, &mut text, program, &table.structs, at)?;
    let name = Text::of_bytes(alloc, &text)?;
    cells.push(Cell {
        name,
        num: slot.num,
        starred: slot.starred,
        hidden: false,
    })?;
    Ok(())
}

/// The cells of a variable, in a call to which the path with this text leads.
fn push_object(
    alloc: Global,
    program: &Program,
    table: &Table,
    prefix: &[u8],
    var: u32,
    cells: &mut Vec<Cell>,
) -> Result<(), OutOfMemory>
    requires table { IsTable program.now table.now }
    ensures { OnOk result (cells.new.items ≡ cells.old.items ++ object_cells program.now prefix.now var) }
{
    let Some(known) = program.vars.get(var as usize) else {
        return Ok(());
    };
    let all = slots(
        alloc,
        program,
        table.structs.as_slice(),
        table.cores.as_slice(),
        &known.shape,
        &[],
    )?;
    let slots = all.as_slice();
    few(slots.len())?;
    let mut name = Vec::new(alloc);
    push_var(alloc, &mut name, prefix, known)?;
    for number in 0..slots.len() {
        let at = Inside {
            dims: known.shape.dims.as_slice(),
            plain: known.shape.plain,
            structs: program.structs.len(),
            cells: slots.len(),
            number,
        };
        push_cell(alloc, program, table, &name, slots[number], at, cells)?;
    }
    Ok(())
}

/// The cells of the variables that live there.
pub fn push_home(
    alloc: Global,
    program: &Program,
    table: &Table,
    prefix: &[u8],
    home: Home,
    cells: &mut Vec<Cell>,
) -> Result<(), OutOfMemory>
    requires table { IsTable program.now table.now }
    ensures { OnOk result (cells.new.items ≡ cells.old.items ++ cells_of_home program.now prefix.now home) }
{
    for var in table.sections.vars(home) {
        push_object(alloc, program, table, prefix, *var, cells)?;
    }
    Ok(())
}

// ---- calls

/// The hidden cell of an index.
#[tactic(auto, using(crate::proofs::CallLemmas::of_steps))]
fn push_index(alloc: Global, step: &Step, cells: &mut Vec<Cell>) -> Result<(), OutOfMemory>
    ensures { OnOk result (cells.new.items ≡ cells.old.items ++ step_cells step.now) }
{
    match step {
        Step::At(_, _, index) => push_hidden(alloc, type_of(index.get()), cells),
        Step::Field(_) => Ok(()),
    }
}

/// The hidden cells of indices.
fn push_indices(alloc: Global, steps: &[Step], cells: &mut Vec<Cell>) -> Result<(), OutOfMemory>
    ensures { OnOk result (cells.new.items ≡ cells.old.items ++ flat_map step_cells steps.now) }
{
    for step in steps {
        push_index(alloc, step, cells)?;
    }
    Ok(())
}

#[tactic(auto, using(crate::proofs::CallLemmas::of_steps))]
fn push_arg(alloc: Global, arg: &Arg, cells: &mut Vec<Cell>) -> Result<(), OutOfMemory>
    ensures { OnOk result (cells.new.items ≡ cells.old.items ++ arg_cells arg.now) }
{
    match arg {
        Arg::Value(_, _) => Ok(()),
        Arg::Object(access) => push_indices(alloc, access.steps.as_slice(), cells),
    }
}

fn push_args(alloc: Global, args: &[Arg], cells: &mut Vec<Cell>) -> Result<(), OutOfMemory>
    ensures { OnOk result (cells.new.items ≡ cells.old.items ++ flat_map arg_cells args.now) }
{
    for arg in args {
        push_arg(alloc, arg, cells)?;
    }
    Ok(())
}

fn push_result(alloc: Global, num: Option<Num>, cells: &mut Vec<Cell>) -> Result<(), OutOfMemory>
    ensures { OnOk result (cells.new.items ≡ cells.old.items ++ result_cells num) }
{
    match num {
        None => Ok(()),
        Some(num) => push_hidden(alloc, num, cells),
    }
}

/// The type of a function's result.
pub fn result_of(program: &Program, f: u32) -> Option<Num>
    ensures { result ≡ result_of (slice_get program.now.funcs f) }
{
    match program.funcs.get(f as usize) {
        None => None,
        Some(func) => func.result,
    }
}

/// The cells of a call of the function with this number, to which the path with this text leads.
pub fn push_call(
    alloc: Global,
    program: &Program,
    table: &Table,
    prefix: &[u8],
    f: u32,
    args: &[Arg],
    cells: &mut Vec<Cell>,
) -> Result<(), OutOfMemory>
    requires table { IsTable program.now table.now }
    ensures { OnOk result (cells.new.items ≡ cells.old.items ++ call_cells program.now prefix.now f args.now) }
{
    push_home(alloc, program, table, prefix, Home::Local(f), cells)?;
    push_args(alloc, args, cells)?;
    push_result(alloc, result_of(program, f), cells)
}
