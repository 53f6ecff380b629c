//! Typed statements.

use crate::expr::{Access, Expr, Operator};
use sa_base::{Num, Pos};
use sqlite_items::{Boxed, Items};

/// What a local begins with when its declaration is reached.
#[derive(Drop)]
pub enum Start {
    /// Numbers of the tape, one for each element.
    Any,
    /// The value of an expression, converted at the `=`.
    Value(Pos, Expr),
    /// The initial values of the variable.
    Items,
}

/// A statement that changes the store alone.
#[derive(Drop)]
pub enum Simple {
    /// A local by its number.
    Declare(u32, Start),
    /// The place and its type, the place of the `=`, and the value.
    Assign(Access, Num, Pos, Expr),
    /// The place and its type, the operator, its place and the type in which it works, and the right operand. `++` and `--`
    /// are `+= 1` and `-= 1` at their own place.
    Compound(Access, Num, Operator, Pos, Num, Expr),
    /// The number of the structure, the place on the left, the place of the `=`, and the place on the right.
    Copy(u32, Access, Pos, Access),
}

/// What a call gives a parameter.
#[derive(Drop)]
pub enum Arg {
    /// The place of the bracket or comma before it, and a value that is converted to the parameter's type there.
    Value(Pos, Expr),
    /// The object that the parameter stands for during the call.
    Object(Access),
}

/// Where the result of a call goes: the place, its type, and the place of the `=`, at which it is converted.
#[derive(Drop)]
pub struct Destination {
    pub place: Access,
    pub num: Num,
    pub pos: Pos,
}

/// A label of a group in a `switch`.
#[derive(Clone, Copy, Debug, PartialEq, Eq)]
pub enum Label {
    /// The value, converted to the promoted type of the switch's expression.
    Case(i128),
    Default,
}

/// The forms of a loop.
#[derive(Clone, Copy, Debug, PartialEq, Eq)]
pub enum LoopKind {
    /// The loop around the wait for the clock, which nothing but its last tick ends.
    Clock,
    /// `while` and `for`: the condition comes before the body.
    While,
    /// `do`: the condition comes after the body.
    Do,
}

/// A statement. Empty statements, partition directives, a group's closing `break` and `return` without a value are none.
#[cycle(statements)]
#[derive(Drop)]
pub enum Stmt {
    Simple(Simple),
    /// From here on the local with this number is in scope. Nothing is done: the local is static, or a call that follows gives
    /// it its value.
    Scope(u32),
    Block(Items<Stmt>),
    /// The place of the called name, the function's number, an argument for each parameter, and where the result goes.
    Call(Pos, u32, Items<Arg>, Option<Destination>),
    /// The condition, both branches, of which the second may be an empty block, and whether the partition directive stands
    /// before it.
    If(Expr, Boxed<Stmt>, Boxed<Stmt>, bool),
    /// The expression, its promoted type, the groups, and whether the partition directive stands before it.
    Switch(Expr, Num, Items<Group>, bool),
    /// The place of the word, the form, the condition (without one the loop has no end of its own), the body, and the step of
    /// a `for`. A first part of a `for` is a statement of its own before.
    Loop(Pos, LoopKind, Option<Expr>, Boxed<Stmt>, Option<Simple>),
    /// A condition that is taken to hold: where it doesn't, the execution is blocked.
    Known(Expr),
    /// The place of the directive's word, and the condition.
    Assert(Pos, Expr),
    /// The wait for the clock.
    Wait,
    /// Leaves the nearest loop.
    Break,
    /// The place of the word, the result's type, and the value, which is converted there.
    Return(Pos, Num, Expr),
}

/// Labels that follow one another, and what is done from each of them.
#[cycle(statements)]
#[derive(Drop)]
pub struct Group {
    pub labels: Items<Label>,
    pub body: Boxed<Stmt>,
}
