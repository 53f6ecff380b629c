//! Typed programs.

use crate::shape::{Part, Shape, StructDef};
use crate::stmt::Stmt;
use sa_base::{Num, Path, Pos, Text};
use sqlite_items::Items;

/// Where a variable lives.
#[derive(Clone, Copy, Debug, PartialEq, Eq)]
pub enum Home {
    Global,
    /// A local that stays from call to call.
    Static,
    /// A local or parameter of the function with this number.
    Local(u32),
}

/// A variable: its name and where that stands, what it is made of, where it lives, whether it is `const`, and the initial
/// values of its elements in their order, without the zeros at the end.
#[derive(Drop)]
pub struct Var {
    pub name: Text,
    pub pos: Pos,
    pub shape: Shape,
    pub home: Home,
    pub constant: bool,
    pub initial: Items<i128>,
}

/// A parameter: its variable, and whether it stands for another object.
#[derive(Clone, Copy, Debug, PartialEq, Eq)]
pub struct Param {
    pub var: u32,
    pub reference: bool,
}

/// A function. Without a result it is void.
#[derive(Drop)]
pub struct Func {
    pub name: Text,
    pub params: Items<Param>,
    pub result: Option<Num>,
    pub body: Items<Stmt>,
}

/// An element: the calls that lead to its variable, the variable, and the steps into it.
#[derive(Drop)]
pub struct Place {
    pub path: Path,
    pub var: u32,
    pub parts: Items<Part>,
}

/// A volatile input of the file scope, and its type.
#[derive(Drop)]
pub struct Input {
    pub name: Text,
    pub num: Num,
}

/// A typed program. Structures, variables and inputs are numbered in the order of their declarations, each by itself.
/// `entry` is the number of `main`; `thresholds` are the literals that stand beside a comparison, in the order of the text.
#[derive(Drop)]
pub struct Program {
    pub structs: Items<StructDef>,
    pub vars: Items<Var>,
    pub inputs: Items<Input>,
    pub funcs: Items<Func>,
    pub entry: u32,
    pub thresholds: Items<u64>,
}
