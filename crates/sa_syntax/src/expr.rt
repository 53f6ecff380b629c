//! Expressions and places.

use crate::decl::{Name, Specifiers};
use sa_base::Pos;
use sqlite_items::{Boxed, Items};

/// An operator before its operand (ISO C 6.5.3.3).
#[derive(Clone, Copy, Debug, PartialEq, Eq)]
pub enum Prefix {
    /// `-`
    Minus,
    /// `+`
    Plus,
    /// `~`
    Complement,
    /// `!`
    Not,
}

/// A binary operator (ISO C 6.5.5 to 6.5.14).
#[derive(Clone, Copy, Debug, PartialEq, Eq)]
pub enum Operator {
    Or,
    And,
    BitOr,
    BitXor,
    BitAnd,
    Equal,
    NotEqual,
    Less,
    LessEqual,
    Greater,
    GreaterEqual,
    ShiftLeft,
    ShiftRight,
    Plus,
    Minus,
    Times,
    Divide,
    Remainder,
}

/// An expression.
#[cycle(tree)]
#[derive(Drop)]
pub enum Expr {
    /// An integer constant: its value, whether it has a `u`, how many `l`, whether it is decimal, its first byte.
    Number(u64, bool, u8, bool, Pos),
    Place(Place),
    /// `(e)`, with the place of the bracket.
    Bracket(Pos, Boxed<Expr>),
    /// The operator, its place, and its operand.
    Prefix(Prefix, Pos, Boxed<Expr>),
    /// `(type) e`, with the place of the bracket.
    Cast(Pos, Boxed<Specifiers>, Boxed<Expr>),
    /// Operands with operators of one level between, which group to the left.
    Chain(Boxed<Expr>, Items<Link>),
    /// `c ? a : b`, with the place of the mark.
    Choice(Boxed<Expr>, Pos, Boxed<Expr>, Boxed<Expr>),
}

/// An operator, its place, and its right operand.
#[cycle(tree)]
#[derive(Drop)]
pub struct Link {
    pub op: Operator,
    pub pos: Pos,
    pub operand: Expr,
}

/// A place in memory: where it begins, and the steps from there.
#[cycle(tree)]
#[derive(Drop)]
pub struct Place {
    pub base: PlaceBase,
    pub steps: Items<Step>,
}

/// Where a place begins.
#[derive(Drop)]
pub enum PlaceBase {
    /// `x`
    Name(Name),
    /// `(*p)`, with the places of the bracket and the star.
    Through(Pos, Pos, Name),
    /// `*p`, which no step follows, with the place of the star.
    Star(Pos, Name),
}

/// A step within a place.
#[cycle(tree)]
#[derive(Drop)]
pub enum Step {
    /// `[e]`, with the place of the bracket.
    Index(Pos, Boxed<Expr>),
    /// `.f`, with the place of the dot.
    Field(Pos, Name),
    /// `->f`, with the place of the arrow.
    Arrow(Pos, Name),
}
