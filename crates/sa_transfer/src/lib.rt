//! Expressions and assignments over intervals: what they make of an environment, and the alarms that they may raise.
//!
//! It stands on environments. Each call is proved equal to its rule of the reference analysis. `values` walks expressions,
//! `fixed` accesses with constant indices, `cells` changes cells in place, and `assign` puts them together for a statement.
//! `specs/Lists.antt` has the rules over lists, as code goes over them; `proofs/` ties them to the rows of a tree.
#![tactic(auto)]

mod assign;
mod cells;
mod fixed;
mod values;

pub use assign::simple;
pub use std::alloc::AllocError as OutOfMemory;
pub use values::value;
