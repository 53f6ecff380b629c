//! Environments of a program: which cells an access names, what environments begin with, their merge, order and widening.
//!
//! It stands on the reference analysis, whose operations its calls are proved equal to.
#![tactic(auto)]

mod env;
mod ground;
mod place;
mod sizes;
mod slots;

pub use env::{copy, initial, le, merge, set_items, set_ranges, tick, top, widen};
pub use ground::{Extent, Ground, Stretch};
pub use place::named;
pub use std::alloc::AllocError as OutOfMemory;
