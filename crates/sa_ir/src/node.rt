//! Lowered statements.

use crate::expr::{IrExpr, IrPlace};
use crate::ir::Ends;
use sa_base::{Num, Pos};
use sa_typed::{Label, LoopKind, Operator};
use sqlite_items::{Boxed, Items};

/// What changes cells and does nothing else.
#[derive(Drop)]
pub enum IrAssign {
    /// The place and its type, the place of the `=`, and the value, which is converted there. The value of an argument stands at
    /// the bracket or comma before it, and that of a result at its `return`.
    Value(IrPlace, Num, Pos, IrExpr),
    /// The place and its type, the operator, its place and the type in which it works, and the right operand.
    Compound(IrPlace, Num, Operator, Pos, Num, IrExpr),
    /// To so many cells from the first place on the numbers of those from the second place on, one by one. A constant index that
    /// names no element stays a row, so a place with a row here is one that errs.
    Copy(IrPlace, IrPlace, u32),
    /// From this cell on so many may be any numbers of their types.
    Any(u32, u32),
    /// The cells from this one on may be the numbers between these ends, one for each cell.
    Items(u32, Items<Ends>),
    /// The hidden cell, the place of the bracket, how many elements the dimension has, and the index of a reference's argument,
    /// which is checked and kept.
    Keep(u32, Pos, u32, IrExpr),
}

/// A lowered statement.
///
/// A call is no node: in the list of its block stand, one after the other, an assignment for each argument (for a reference one
/// for each index of it), a block with the called body, and, where the result is stored, an assignment from the hidden cell of
/// the result. `return` is an assignment to that cell.
#[cycle(nodes)]
#[derive(Drop)]
pub enum Node {
    Assign(IrAssign),
    Block(Items<Node>),
    /// The condition, both branches, of which the second may be an empty block, and whether the partition directive stands
    /// before it.
    If(IrExpr, Boxed<Node>, Boxed<Node>, bool),
    /// The expression, its promoted type, the groups, and whether the partition directive stands before it.
    Switch(IrExpr, Num, Items<IrGroup>, bool),
    /// The loop's number, its form, the condition (without one the loop has no end of its own), the body, and the step of a
    /// `for`.
    Loop(u32, LoopKind, Option<IrExpr>, Boxed<Node>, Option<IrAssign>),
    /// A condition that is taken to hold: where it doesn't, the execution is blocked.
    Known(IrExpr),
    /// The place of the directive's word, and the condition.
    Assert(Pos, IrExpr),
    /// The wait for the clock.
    Wait,
    /// Leaves the nearest loop.
    Break,
}

/// Labels that follow one another, and what is done from each of them.
#[cycle(nodes)]
#[derive(Drop)]
pub struct IrGroup {
    pub labels: Items<Label>,
    pub body: Boxed<Node>,
}
