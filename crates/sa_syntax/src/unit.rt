//! A whole source.

use crate::decl::{InitDeclr, Name, Specifiers, Struct};
use crate::stmt::Block;
use sa_base::Pos;
use sqlite_items::Items;

/// A source.
#[derive(Drop)]
pub struct Unit {
    pub items: Items<Item>,
}

/// What stands at the top of a source.
#[derive(Drop)]
pub enum Item {
    /// `typedef type name;`, with the place of the word.
    Typedef(Pos, Specifiers, Name),
    /// `struct .. { .. };`, with the place of the word.
    Struct(Pos, Struct),
    Global(Specifiers, Items<InitDeclr>),
    Proto(Specifiers, Name, Params),
    Func(Specifiers, Name, Params, Block),
}

/// What stands between the brackets of a function's head.
#[derive(Drop)]
pub enum Params {
    /// `()`
    Empty,
    /// `(void)`
    Void,
    /// One parameter or more.
    List(Items<Param>),
}

/// A parameter.
#[derive(Drop)]
pub struct Param {
    pub ty: Specifiers,
    /// The place of the `*`, where there is one.
    pub star: Option<Pos>,
    pub name: Option<Name>,
}
