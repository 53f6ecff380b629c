//! The reference analysis, on flat lists: what one thread makes of a lowered program, node by node, over any abstract domain.
//!
//! It stands on lowered programs (`sa_ir`), intervals and the operators on them. `specs/` has what the walk knows of a domain
//! (`Domain`), what expressions mean in an environment (`Forms`, `Meanings`, `Expressions`), the passes of a loop (`Passes`), the
//! statements (`Assignments`, `Pieces`, `Nodes`), the whole analysis (`Reference`) and the domain of intervals (`Intervals`).
//! Nothing in the walk looks into an environment but by the domain's operations.
#![tactic(auto)]

mod found;

pub use found::{Found, LoopFacts};
pub use sa_env::{Form, Term};
