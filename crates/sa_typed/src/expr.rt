//! Typed expressions and places.

use sa_base::{Num, Pos};
use sqlite_items::{Boxed, Items};

/// An operator before its operand (ISO C 6.5.3.3).
#[derive(Clone, Copy, Debug, PartialEq, Eq)]
pub enum Prefix {
    /// `-`
    Minus,
    /// `+`
    Plus,
    /// `~`
    Complement,
    /// `!`
    Not,
}

/// A binary operator that evaluates both of its operands (ISO C 6.5.5 to 6.5.12).
#[derive(Clone, Copy, Debug, PartialEq, Eq)]
pub enum Operator {
    Plus,
    Minus,
    Times,
    Divide,
    Remainder,
    ShiftLeft,
    ShiftRight,
    BitAnd,
    BitXor,
    BitOr,
    Equal,
    NotEqual,
    Less,
    LessEqual,
    Greater,
    GreaterEqual,
}

/// An expression with a number as its value.
#[cycle(typed)]
#[derive(Drop)]
pub enum Expr {
    /// A literal, and its type.
    Number(u64, Num),
    /// The number at a place, and its type.
    Read(Access, Num),
    /// The next number of an input, by the input's number, and its type.
    Input(u32, Num),
    /// The operator, its place, the type in which it works, and its operand. Of `!` the result is an `int`.
    Prefix(Prefix, Pos, Num, Boxed<Expr>),
    /// A cast, with the place of its bracket, and the type.
    Cast(Pos, Num, Boxed<Expr>),
    /// Operands with operators of one level between, which group to the left.
    Chain(Boxed<Expr>, Items<Link>),
    /// Operands with `&&` between. Each one is evaluated only where those before it are not 0, and the result is an `int`.
    And(Boxed<Expr>, Items<Expr>),
    /// Operands with `||` between. Each one is evaluated only where those before it are 0, and the result is an `int`.
    Or(Boxed<Expr>, Items<Expr>),
    /// `?:`: the condition, the two results, of which one is evaluated, and the type to which that one is converted.
    Choice(Boxed<Expr>, Boxed<Expr>, Boxed<Expr>, Num),
}

/// An operator, its place, the type in which it works, and its right operand. Both operands are converted to that type, but
/// not the count of a shift. Of a comparison the result is an `int`.
#[cycle(typed)]
#[derive(Drop)]
pub struct Link {
    pub op: Operator,
    pub pos: Pos,
    pub num: Num,
    pub operand: Expr,
}

/// A variable by its number, and the steps from there.
#[cycle(typed)]
#[derive(Drop)]
pub struct Access {
    pub var: u32,
    pub steps: Items<Step>,
}

/// A step into an object.
#[cycle(typed)]
#[derive(Drop)]
pub enum Step {
    /// The place of the bracket, how many elements there are, and the index.
    At(Pos, u32, Boxed<Expr>),
    /// The field with this number.
    Field(u32),
}
