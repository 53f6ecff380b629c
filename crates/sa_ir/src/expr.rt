//! Lowered expressions and places.

use sa_base::{Num, Pos};
use sa_typed::{Operator, Prefix};
use sqlite_items::{Boxed, Items};

/// A typed expression with cells in place of variables.
#[cycle(lowered)]
#[derive(Drop)]
pub enum IrExpr {
    /// A literal, and its type.
    Number(u64, Num),
    /// The number of the cell that a place leads to, and its type.
    Read(IrPlace, Num),
    /// The next number of an input, by the input's number, and its type.
    Input(u32, Num),
    /// The operator, its place, the type in which it works, and its operand. Of `!` the result is an `int`.
    Prefix(Prefix, Pos, Num, Boxed<IrExpr>),
    /// A cast, with the place of its bracket, and the type.
    Cast(Pos, Num, Boxed<IrExpr>),
    /// Operands with operators of one level between, which group to the left.
    Chain(Boxed<IrExpr>, Items<IrLink>),
    /// Operands with `&&` between. Each one is evaluated only where those before it are not 0, and the result is an `int`.
    And(Boxed<IrExpr>, Items<IrExpr>),
    /// Operands with `||` between. Each one is evaluated only where those before it are 0, and the result is an `int`.
    Or(Boxed<IrExpr>, Items<IrExpr>),
    /// `?:`: the condition, the two results, of which one is evaluated, and the type to which that one is converted.
    Choice(Boxed<IrExpr>, Boxed<IrExpr>, Boxed<IrExpr>, Num),
}

/// An operator, its place, the type in which it works, and its right operand. Both operands are converted to that type, but
/// not the count of a shift. Of a comparison the result is an `int`.
#[cycle(lowered)]
#[derive(Drop)]
pub struct IrLink {
    pub op: Operator,
    pub pos: Pos,
    pub num: Num,
    pub operand: IrExpr,
}

/// A first cell by its number, and the indices that aren't folded into it. Each step of an index of a row leads so many cells
/// further as its stride says. A place without rows is one cell.
#[cycle(lowered)]
#[derive(Drop)]
pub struct IrPlace {
    pub first: u32,
    pub rows: Items<Row>,
}

/// An index of a place. Its stride is in cells, and 0 where one cell stands for all elements of the dimension.
#[cycle(lowered)]
#[derive(Drop)]
pub enum Row {
    /// The place of the bracket, how many elements the dimension has, the stride, and the index.
    At(Pos, u32, u32, Boxed<IrExpr>),
    /// The index that a reference's argument had when the call began: the hidden cell that keeps it, how many elements the
    /// dimension has, and the stride.
    Kept(u32, u32, u32),
}
