//! The cells that a place may name.

ghost use Rattle.std.specs.Prelude.{◌≡◌, ◌++◌, ◌≤◌, [], ◌∷◌, IfOk, OnOk};
ghost use Rattle.std.specs.List.{flat_map};
ghost use Rattle.sa_ir.specs.Occurrences.{is_constant, every, led};
ghost use Rattle.sa_ir.specs.Shown.{with_all};
ghost use Rattle.sa_lower.specs.Rows.{all_are_constant, links_are_constant, row_leads, rows_lead};

use crate::OutOfMemory;
use sa_ir::{IrExpr, IrLink, Row};
use std::alloc::{AllocError, Global};
use std::collections::BTreeSet;

/// Whether it is made of literals, operators and casts alone.
#[cycle(constants)]
#[tactic(auto, using(crate::proofs::RowLaws::of_constants))]
fn is_constant(e: &IrExpr) -> bool
    ensures { result ≡ is_constant e.now }
{
    match e {
        IrExpr::Number(_, _) => true,
        IrExpr::Read(_, _) | IrExpr::Input(_, _) => false,
        IrExpr::Prefix(_, _, _, operand) => is_constant(operand.get()),
        IrExpr::Cast(_, _, operand) => is_constant(operand.get()),
        IrExpr::Chain(first, links) => is_constant(first.get())
            && links_are_constant(links.as_slice()),
        IrExpr::And(first, rest) => is_constant(first.get()) && all_are_constant(rest.as_slice()),
        IrExpr::Or(first, rest) => is_constant(first.get()) && all_are_constant(rest.as_slice()),
        IrExpr::Choice(test, first, second, _) => {
            is_constant(test.get()) && is_constant(first.get()) && is_constant(second.get())
        }
    }
}

#[cycle(constants)]
#[tactic(auto, using(crate::proofs::RowLaws::of_all))]
fn all_are_constant(operands: &[IrExpr]) -> bool
    ensures { result ≡ all_are_constant operands.now }
{
    for operand in operands {
        if !is_constant(operand) {
            return false;
        }
    }
    true
}

#[cycle(constants)]
#[tactic(auto, using(crate::proofs::RowLaws::of_links))]
fn links_are_constant(links: &[IrLink]) -> bool
    ensures { result ≡ links_are_constant links.now }
{
    for link in links {
        if !is_constant(&link.operand) {
            return false;
        }
    }
    true
}

/// The number of a cell. More cells than a `u32` counts are more than memory holds.
fn number(cell: usize) -> Result<u32, OutOfMemory>
    ensures { IfOk result (λ r. r ≡ cell) }
{
    if cell > 0xffff_ffff {
        return Err(AllocError);
    }
    Ok(cell as u32)
}

/// So many cells from one on, each further than the one before by the stride.
pub(crate) fn push_every(
    n: u32,
    stride: u32,
    first: u32,
    cells: &mut Vec<u32>,
) -> Result<(), OutOfMemory>
    ensures { OnOk result (cells.new.items ≡ cells.old.items ++ every n stride first) }
{
    let mut next = first as usize;
    for _turn in 0..n {
        let cell = number(next)?;
        cells.push(cell)?;
        next = cell as usize + stride as usize;
    }
    Ok(())
}

/// The cells to which an index leads from some cells, by steps of a stride.
fn spread(alloc: Global, n: u32, stride: u32, from: &[u32]) -> Result<Vec<u32>, OutOfMemory>
    ensures { IfOk result (λ r. r.items ≡ flat_map (every n stride) from.now) }
{
    let mut cells = Vec::new(alloc);
    for cell in from {
        push_every(n, stride, *cell, &mut cells)?;
    }
    Ok(cells)
}

/// The cells to which an index leads.
fn led(alloc: Global, n: u32, stride: u32, from: Vec<u32>) -> Result<Vec<u32>, OutOfMemory>
    ensures { IfOk result (λ r. r.items ≡ led n stride from.items) }
{
    if stride == 0 {
        return Ok(from);
    }
    spread(alloc, n, stride, &from)
}

/// The cells to which an index of a place leads. A constant one that wasn't folded names no element.
#[tactic(auto, using(crate::proofs::RowLaws::of_row))]
fn row_leads(alloc: Global, row: &Row, from: Vec<u32>) -> Result<Vec<u32>, OutOfMemory>
    ensures { IfOk result (λ r. r.items ≡ row_leads row.now from.items) }
{
    match row {
        Row::At(_, n, stride, index) => {
            if is_constant(index.get()) {
                return Ok(Vec::new(alloc));
            }
            led(alloc, *n, *stride, from)
        }
        Row::Kept(_, n, stride) => led(alloc, *n, *stride, from),
    }
}

/// The cells to which the indices of a place lead.
pub(crate) fn rows_lead(
    alloc: Global,
    rows: &[Row],
    from: Vec<u32>,
) -> Result<Vec<u32>, OutOfMemory>
    ensures { IfOk result (λ r. r.items ≡ rows_lead rows.now from.items) }
{
    let mut cells = from;
    for row in rows {
        cells = row_leads(alloc, row, cells)?;
    }
    Ok(cells)
}

/// Cells put into a set.
pub(crate) fn add_all(more: &[u32], cells: &mut BTreeSet<u32>) -> Result<(), OutOfMemory>
    ensures { OnOk result (cells.new.keys ≡ with_all cells.old.keys more.now) }
{
    for cell in more {
        cells.insert(*cell)?;
    }
    Ok(())
}
