//! The analysis of a program: the walk over its statements, the passes of its clock loop, and the checking walk.
//!
//! It stands on environments and assignments. What `analyze` finds is what the reference analysis finds.
#![tactic(auto)]

mod passes;

pub use passes::{Analysis, LoopFacts, analyze};
pub use std::alloc::AllocError as OutOfMemory;
