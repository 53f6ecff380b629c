//! Plain values that every layer shares: texts, positions, call paths, kinds of alarm, number types,
//! codes of refusals, limits and statuses.
//!
//! It stands on nothing. The layers above use that a `Text` is its list of bytes, that a `Path` is its
//! list of call positions, and that each number, word and code is the one of its table in `specs/`.
//! A table has one place: a new code, kind or limit is added to the enum and to its definition.
//! `OutOfMemory` is want of memory, the one answer that no clause ties to anything.
#![tactic(auto)]

mod alarm;
mod limit;
mod num;
mod path;
mod pos;
mod refusal;
mod status;
#[cfg(test)]
mod tests;
mod text;

pub use alarm::{Alarm, Kind};
pub use limit::Limit;
pub use num::Num;
pub use path::Path;
pub use pos::Pos;
pub use refusal::{Code, Refusal};
pub use status::Status;
pub use std::alloc::AllocError as OutOfMemory;
pub use text::Text;
