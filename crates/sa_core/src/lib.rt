//! The dispatch machine of a job's branches, as plain values: who holds which branch, which were filed or given back, and
//! the merge of the parts so far. No thread and no clock; every order of events is a list.
//!
//! It stands on `sa_steps` for the counter that a part is made with. The layers above take `replay` (or `open` and `step`),
//! whose clauses say that the merged part depends only on which branches were filed or swept, and never on the order.
//! What a change must keep: a branch's part is merged exactly once, by the event that makes the branch filed or swept.
#![tactic(auto)]

mod event;
mod machine;
mod work;

pub use event::{Branch, CoreError, Event};
pub use machine::{Core, lists_go_on, order_is_free, replay};
pub use std::alloc::AllocError as OutOfMemory;
pub use work::{Job, Work};
