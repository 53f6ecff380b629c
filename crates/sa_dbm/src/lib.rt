//! Octagon matrices: bounds on sums and differences of up to eight variables, with joins and closure.
//!
//! It stands on lemmas of `sa_numbers`. The layer above uses that a matrix is a table of bounds, that each call gives the
//! table that its definition in `specs/` names, and that `close` gives the closed form and loses no point.
//! A change must keep that an entry and its twin are equal and that the bound of a node on itself is 0.
#![tactic(auto)]

mod closing;
mod entries;
mod matrix;
mod node;
mod operations;
mod stored;

pub use closing::Closing;
pub use matrix::Matrix;
/// Want of memory, the one answer that no clause ties to anything.
pub use std::alloc::AllocError as OutOfMemory;
