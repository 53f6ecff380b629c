//! What the calls of a typed program lead to: which call leads back to its own function, how deep calls go, and how much the
//! inlined program holds.
//!
//! It stands on `sa_base` and `sa_typed`. `specs/` says when a call leads back and how deep calls go. `first_back` gives the first
//! call that leads back, and the laws say that without one functions are ranked; `first_over` gives the first limit that the
//! inlined program is over. The program is never inlined for it: each body is counted from what the bodies that it calls bring, so
//! the time grows with the text alone.
#![tactic(auto)]

mod graph;
mod laws;
mod recursion;
mod rooms;
mod weights;

pub use graph::Call;
pub use laws::{ranked_leads_nowhere_back, ranks_are_there};
pub use recursion::first_back;
pub use rooms::frame_cells;
pub use std::alloc::AllocError as OutOfMemory;
pub use weights::{Weight, first_over};
