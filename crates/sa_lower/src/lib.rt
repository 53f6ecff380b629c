//! How a typed program is lowered: which cells occur in what is lowered, and which of them a loop shows.
//!
//! It stands on the types and definitions of `sa_ir`.
#![tactic(auto)]

mod frames;
mod kept;
mod laws;
mod named;
mod occurring;
mod shown;
mod targets;
mod texts;

pub use frames::{kept_from, push_reference};
pub use kept::{access_indices, all_kept};
pub use laws::lengths_are_counts;
pub use occurring::{add_assign, add_condition, add_expr, add_node, add_nodes, add_step};
pub use shown::shown_cells;
pub use std::alloc::AllocError as OutOfMemory;
pub use targets::target;
pub use texts::{call_path, loop_name};
