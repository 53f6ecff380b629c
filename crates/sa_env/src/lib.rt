//! Environments of the analysis: an interval for the clock and a list of slots, as trees that share what they have in
//! common (`sa_shared`), or dead.
//!
//! The layers above use that what an environment stands for is a flat one (`flat_of`), that each call of a shop gives
//! the operation of `specs/Flat.antt` on flat ones, and that every older environment stands for what it stood for
//! (`Keeps`), also after want of memory. Nothing here knows a program. A change must keep that nothing but `slot.rt`
//! knows what stands in a slot, that nothing outside the crate opens an environment, and that fair environments stay
//! fair: the clock is one that may be, and each cell's numbers are in its range.
#![tactic(auto)]

mod bounds;
mod env;
mod form;
mod frame;
mod laws;
mod shop;
mod slot;
mod walks;

pub use env::Env;
pub use form::{Form, Term};
pub use frame::Frame;
pub use laws::{environments_are_ordered, environments_stay_fair};
pub use shop::Shop;
pub use slot::SlotValue;
/// Want of memory, the one answer that no clause ties to anything.
pub use std::alloc::AllocError as OutOfMemory;
