//! Lists of slots as balanced trees that share what they have in common, frozen parts and layers over them.
//!
//! It stands on `sa_steps` for the count of visited nodes, on the kit's `smallvec` for the way to a slot, and on its
//! `sqlite_items` for the values, which stand apart from their nodes. The layers above use that a root stands for a
//! list: `set`, `put`, `change`, `join` and `combine` give roots of new lists, and every older root keeps its list, also
//! after want of memory. A change must keep that a node names older nodes alone, that no node is changed once it
//! stands, and that all lists of one layer are alike slot by slot.
#![tactic(auto)]

mod build;
mod frozen;
mod layer;
mod nodes;
mod range;
mod slot;
mod trees;
mod walks;
mod way;

pub use frozen::Frozen;
pub use layer::Layer;
pub use nodes::Root;
pub use slot::Slot;
pub use walks::{Change, Combine, Fold};
/// Want of memory, the one answer that no clause ties to anything.
pub use std::alloc::AllocError as OutOfMemory;
