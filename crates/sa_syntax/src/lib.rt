//! The syntax tree of a source, with one variant for each alternative of the grammar, and the grammar itself.
//!
//! It stands on values and tokens. `specs/` has the grammar as a relation between tokens and trees. Where the tree reaches
//! itself it goes through `Items` and `Boxed`; a chain of operators of one level is a list, so that no long sum is deep.
#![tactic(auto)]

mod decl;
mod display;
mod expr;
mod forms;
mod laws;
mod stmt;
mod unit;

pub use decl::{
    Base, Bound, Declr, Field, Init, InitDeclr, Name, Qualified, Qualifier, ScalarWord, Specifiers,
    Start, Struct,
};
pub use expr::{Expr, Link, Operator, Place, PlaceBase, Prefix, Step};
pub use forms::{is_main, is_wait};
pub use laws::{
    has_one_tree, more_room_reads_the_same, more_room_reads_the_same_source, places_rise,
    readings_are_expressions, readings_are_sources, reads_declrs, reads_expressions, reads_places,
    reads_sources, reads_statements, reads_types, tells_depth, tells_place,
};
pub use stmt::{
    Arg, ArgValue, Block, BlockItem, Call, Compound, Directive, First, Group, Label, Local,
    LocalDeclr, LocalStart, Simple, Stmt, Update,
};
pub use unit::{Item, Param, Params, Unit};
