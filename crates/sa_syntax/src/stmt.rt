//! Statements.

use crate::decl::{Declr, Init, Name, Specifiers};
use crate::expr::{Expr, Place};
use sa_base::Pos;
use sqlite_items::{Boxed, Items};

/// A compound assignment (ISO C 6.5.16.2).
#[derive(Clone, Copy, Debug, PartialEq, Eq)]
pub enum Compound {
    Plus,
    Minus,
    Times,
    Divide,
    Remainder,
    ShiftLeft,
    ShiftRight,
    BitAnd,
    BitXor,
    BitOr,
}

/// `++` or `--`.
#[derive(Clone, Copy, Debug, PartialEq, Eq)]
pub enum Update {
    Increment,
    Decrement,
}

/// An assignment.
#[derive(Drop)]
pub enum Simple {
    /// `x = e`, with the place of the `=`.
    Assign(Place, Pos, Expr),
    /// `x += e` and the like, with the place of the operator.
    Compound(Place, Compound, Pos, Expr),
    /// `x++` or `x--`, with the place of the operator.
    After(Place, Update, Pos),
    /// `++x` or `--x`, with the place of the operator.
    Before(Update, Pos, Place),
}

/// A call: the function's name, and its arguments.
#[derive(Drop)]
pub struct Call {
    pub name: Name,
    pub args: Items<Arg>,
}

/// An argument, with the place of the `(` or `,` before it.
#[derive(Drop)]
pub struct Arg {
    pub before: Pos,
    pub value: ArgValue,
}

/// What an argument is.
#[derive(Drop)]
pub enum ArgValue {
    Value(Expr),
    /// `&x`, with the place of the mark.
    Reference(Pos, Place),
}

/// A directive of the analysis.
#[derive(Drop)]
pub enum Directive {
    /// `__ASTREE_wait_for_clock(())`
    Wait,
    /// `__ASTREE_partition(())`
    Partition,
    /// `__ASTREE_known_fact((e))`
    KnownFact(Expr),
    /// `__ASTREE_assert((e))`
    Assert(Expr),
}

/// What stands first in the head of a `for`.
#[derive(Drop)]
pub enum First {
    Nothing,
    Simple(Simple),
    /// A declaration with its initial value, and the place of the `=`.
    Declares(Specifiers, Declr, Pos, Expr),
}

/// A label of a switch, with the place of its word.
#[derive(Drop)]
pub enum Label {
    Case(Pos, Expr),
    Default(Pos),
}

/// A declaration in a block.
#[derive(Drop)]
pub struct Local {
    pub ty: Specifiers,
    pub declrs: Items<LocalDeclr>,
}

/// A declared name of a block, and what it begins with.
#[derive(Drop)]
pub struct LocalDeclr {
    pub declr: Declr,
    pub start: LocalStart,
}

/// What a declared name of a block begins with.
#[derive(Drop)]
pub enum LocalStart {
    Nothing,
    /// `= init`, with the place of the `=`.
    Init(Pos, Init),
    /// `= f(..)`, with the place of the `=`.
    Call(Pos, Call),
}

/// A statement, with the place of its first token where its parts don't have it.
#[cycle(statement)]
#[derive(Drop)]
pub enum Stmt {
    Block(Block),
    /// `;`
    Empty(Pos),
    Simple(Simple),
    /// `x = f(..);`, with the place of the `=`.
    Gives(Place, Pos, Call),
    Call(Call),
    If(Pos, Expr, Boxed<Stmt>),
    IfElse(Pos, Expr, Boxed<Stmt>, Boxed<Stmt>),
    While(Pos, Expr, Boxed<Stmt>),
    DoWhile(Pos, Boxed<Stmt>, Expr),
    For(Pos, First, Option<Expr>, Option<Simple>, Boxed<Stmt>),
    Switch(Pos, Expr, Items<Group>),
    Break(Pos),
    Return(Pos, Option<Expr>),
    Directive(Pos, Directive),
}

/// `{ .. }`, with the places of its braces.
#[cycle(statement)]
#[derive(Drop)]
pub struct Block {
    pub open: Pos,
    pub items: Items<BlockItem>,
    pub close: Pos,
}

/// What stands in a block.
#[cycle(statement)]
#[derive(Drop)]
pub enum BlockItem {
    Local(Local),
    Stmt(Stmt),
}

/// The labels of a switch that follow one another, and the statements after them.
#[cycle(statement)]
#[derive(Drop)]
pub struct Group {
    pub labels: Items<Label>,
    pub body: Items<Stmt>,
}
