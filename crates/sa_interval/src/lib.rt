//! Intervals of whole numbers, the first of the analyzer's domains, and the thresholds of its widening.
//!
//! It stands on the lemmas of `sa_numbers`. The layers above use that each call gives its row of
//! `specs/Rows.antt`, and that the result holds the cut of every result of operands that lie in the
//! operands' intervals. A change must keep that bounds are at most 2^100 in size: a bound there means
//! that there is none on that side, and it is what makes every sum fit an `i128`.
#![tactic(auto)]

mod interval;
mod thresholds;

/// Want of memory, the one answer that no clause ties to anything.
pub use interval::Interval;
pub use std::alloc::AllocError as OutOfMemory;
pub use thresholds::Thresholds;
