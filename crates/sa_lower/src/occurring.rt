//! Which cells occur in what is lowered, put into a set.

ghost use Rattle.std.specs.Prelude.{◌≡◌, ◌++◌, IfOk, OnOk};
ghost use Rattle.std.specs.List.{flat_map};
ghost use Rattle.sa_ir.specs.Occurrences.{every, expr_cells, place_cells, assign_cells, some_expr_cells, some_assign_cells, node_cells};
ghost use Rattle.sa_ir.specs.Shown.{with_all};
ghost use Rattle.sa_lower.specs.Rows.{rows_lead};
ghost use Rattle.sa_lower.specs.Occurring.{link_cells, row_cells, body_cells};

use crate::OutOfMemory;
use crate::named::{add_all, push_every, rows_lead};
use sa_ir::{IrAssign, IrExpr, IrGroup, IrLink, IrPlace, Node, Row};
use std::alloc::Global;
use std::collections::BTreeSet;

// ---- places

/// The cells of an object of so many that stands at a place.
fn named(alloc: Global, count: u32, place: &IrPlace) -> Result<Vec<u32>, OutOfMemory>
    ensures { IfOk result (λ r. r.items ≡ rows_lead place.now.rows (every count 1 place.now.first)) }
{
    let mut cells = Vec::new(alloc);
    push_every(count, 1, place.first, &mut cells)?;
    rows_lead(alloc, place.rows.as_slice(), cells)
}

fn add_named(
    alloc: Global,
    count: u32,
    place: &IrPlace,
    cells: &mut BTreeSet<u32>,
) -> Result<(), OutOfMemory>
    ensures { OnOk result (cells.new.keys ≡ with_all cells.old.keys (rows_lead place.now.rows (every count 1 place.now.first))) }
{
    let more = named(alloc, count, place)?;
    add_all(&more, cells)
}

/// The cells of an object of so many that stands at a place, and those in the indices of the place.
#[cycle(occurring)]
#[tactic(auto, using(crate::proofs::OccurringLaws::of_place))]
fn add_place(
    alloc: Global,
    count: u32,
    place: &IrPlace,
    cells: &mut BTreeSet<u32>,
) -> Result<(), OutOfMemory>
    ensures { OnOk result (cells.new.keys ≡ with_all cells.old.keys (place_cells count place.now)) }
{
    add_named(alloc, count, place, cells)?;
    add_indices(alloc, place.rows.as_slice(), cells)
}

#[cycle(occurring)]
fn add_indices(alloc: Global, rows: &[Row], cells: &mut BTreeSet<u32>) -> Result<(), OutOfMemory>
    ensures { OnOk result (cells.new.keys ≡ with_all cells.old.keys (flat_map row_cells rows.now)) }
{
    for row in rows {
        add_index(alloc, row, cells)?;
    }
    Ok(())
}

#[cycle(occurring)]
#[tactic(auto, using(crate::proofs::OccurringLaws::of_index))]
fn add_index(alloc: Global, row: &Row, cells: &mut BTreeSet<u32>) -> Result<(), OutOfMemory>
    ensures { OnOk result (cells.new.keys ≡ with_all cells.old.keys (row_cells row.now)) }
{
    match row {
        Row::At(_, _, _, index) => add_expr(alloc, index.get(), cells),
        Row::Kept(_, _, _) => Ok(()),
    }
}

// ---- expressions

/// The cells that occur in an expression.
#[cycle(occurring)]
#[tactic(auto, using(crate::proofs::OccurringLaws::of_expr))]
pub fn add_expr(alloc: Global, e: &IrExpr, cells: &mut BTreeSet<u32>) -> Result<(), OutOfMemory>
    ensures { OnOk result (cells.new.keys ≡ with_all cells.old.keys (expr_cells e.now)) }
{
    match e {
        IrExpr::Number(_, _) | IrExpr::Input(_, _) => Ok(()),
        IrExpr::Read(place, _) => add_place(alloc, 1, place, cells),
        IrExpr::Prefix(_, _, _, operand) => add_expr(alloc, operand.get(), cells),
        IrExpr::Cast(_, _, operand) => add_expr(alloc, operand.get(), cells),
        IrExpr::Chain(first, links) => {
            add_expr(alloc, first.get(), cells)?;
            add_links(alloc, links.as_slice(), cells)
        }
        IrExpr::And(first, rest) => {
            add_expr(alloc, first.get(), cells)?;
            add_exprs(alloc, rest.as_slice(), cells)
        }
        IrExpr::Or(first, rest) => {
            add_expr(alloc, first.get(), cells)?;
            add_exprs(alloc, rest.as_slice(), cells)
        }
        IrExpr::Choice(test, first, second, _) => {
            add_expr(alloc, test.get(), cells)?;
            add_expr(alloc, first.get(), cells)?;
            add_expr(alloc, second.get(), cells)
        }
    }
}

#[cycle(occurring)]
fn add_exprs(alloc: Global, exprs: &[IrExpr], cells: &mut BTreeSet<u32>) -> Result<(), OutOfMemory>
    ensures { OnOk result (cells.new.keys ≡ with_all cells.old.keys (flat_map expr_cells exprs.now)) }
{
    for e in exprs {
        add_expr(alloc, e, cells)?;
    }
    Ok(())
}

#[cycle(occurring)]
fn add_links(alloc: Global, links: &[IrLink], cells: &mut BTreeSet<u32>) -> Result<(), OutOfMemory>
    ensures { OnOk result (cells.new.keys ≡ with_all cells.old.keys (flat_map link_cells links.now)) }
{
    for link in links {
        add_expr(alloc, &link.operand, cells)?;
    }
    Ok(())
}

// ---- statements

/// The cells that occur in what changes cells.
#[tactic(auto, using(crate::proofs::OccurringLaws::of_assign))]
pub fn add_assign(alloc: Global, a: &IrAssign, cells: &mut BTreeSet<u32>) -> Result<(), OutOfMemory>
    ensures { OnOk result (cells.new.keys ≡ with_all cells.old.keys (assign_cells a.now)) }
{
    match a {
        IrAssign::Value(place, _, _, value) => {
            add_place(alloc, 1, place, cells)?;
            add_expr(alloc, value, cells)
        }
        IrAssign::Compound(place, _, _, _, _, value) => {
            add_place(alloc, 1, place, cells)?;
            add_expr(alloc, value, cells)
        }
        IrAssign::Copy(to, from, count) => {
            add_place(alloc, *count, to, cells)?;
            add_place(alloc, *count, from, cells)
        }
        IrAssign::Any(_, _) | IrAssign::Items(_, _) => Ok(()),
        IrAssign::Keep(_, _, _, index) => add_expr(alloc, index, cells),
    }
}

/// The cells that occur in a loop's condition.
#[tactic(auto, using(crate::proofs::OccurringLaws::of_none))]
pub fn add_condition(
    alloc: Global,
    condition: &Option<IrExpr>,
    cells: &mut BTreeSet<u32>,
) -> Result<(), OutOfMemory>
    ensures { OnOk result (cells.new.keys ≡ with_all cells.old.keys (some_expr_cells condition.now)) }
{
    match condition {
        None => Ok(()),
        Some(e) => add_expr(alloc, e, cells),
    }
}

/// The cells that occur in a loop's step.
#[tactic(auto, using(crate::proofs::OccurringLaws::of_none))]
pub fn add_step(
    alloc: Global,
    step: &Option<IrAssign>,
    cells: &mut BTreeSet<u32>,
) -> Result<(), OutOfMemory>
    ensures { OnOk result (cells.new.keys ≡ with_all cells.old.keys (some_assign_cells step.now)) }
{
    match step {
        None => Ok(()),
        Some(a) => add_assign(alloc, a, cells),
    }
}

/// The cells that occur in a statement.
#[cycle(nodes)]
#[tactic(auto, using(crate::proofs::OccurringLaws::of_node))]
pub fn add_node(alloc: Global, node: &Node, cells: &mut BTreeSet<u32>) -> Result<(), OutOfMemory>
    ensures { OnOk result (cells.new.keys ≡ with_all cells.old.keys (node_cells node.now)) }
{
    match node {
        Node::Assign(a) => add_assign(alloc, a, cells),
        Node::Block(all) => add_nodes(alloc, all.as_slice(), cells),
        Node::If(condition, first, second, _) => {
            add_expr(alloc, condition, cells)?;
            add_node(alloc, first.get(), cells)?;
            add_node(alloc, second.get(), cells)
        }
        Node::Switch(e, _, groups, _) => {
            add_expr(alloc, e, cells)?;
            add_groups(alloc, groups.as_slice(), cells)
        }
        Node::Loop(_, _, condition, body, step) => {
            add_condition(alloc, condition, cells)?;
            add_node(alloc, body.get(), cells)?;
            add_step(alloc, step, cells)
        }
        Node::Known(e) | Node::Assert(_, e) => add_expr(alloc, e, cells),
        Node::Wait | Node::Break => Ok(()),
    }
}

/// The cells that occur in statements.
#[cycle(nodes)]
pub fn add_nodes(
    alloc: Global,
    nodes: &[Node],
    cells: &mut BTreeSet<u32>,
) -> Result<(), OutOfMemory>
    ensures { OnOk result (cells.new.keys ≡ with_all cells.old.keys (flat_map node_cells nodes.now)) }
{
    for node in nodes {
        add_node(alloc, node, cells)?;
    }
    Ok(())
}

#[cycle(nodes)]
fn add_groups(
    alloc: Global,
    groups: &[IrGroup],
    cells: &mut BTreeSet<u32>,
) -> Result<(), OutOfMemory>
    ensures { OnOk result (cells.new.keys ≡ with_all cells.old.keys (flat_map body_cells groups.now)) }
{
    for group in groups {
        add_node(alloc, group.body.get(), cells)?;
    }
    Ok(())
}
