//! What declarations are typed as: variables, inputs and locals, and the initial values of objects.
//!
//! It stands on `sa_scopes` and `sa_operands`. The walk above calls `declare_globals` and `declare_locals`, whose clauses name
//! `declared` and `local` of `specs/Declarations.antt`. A name is declared after its whole item, its initialiser included. Of
//! initial values the zeros at the end are only counted (`specs/Initialisers.antt`), so an object's size costs nothing.
#![tactic(auto)]

mod beginning;
mod declaration;
mod initial;

pub use declaration::{declare, declare_globals, declare_locals, is_struct};
