//! The effects of lowered expressions and assignments on environments.
//!
//! It stands on lowered programs (`sa_ir`), environments (`sa_env`) and the definitions of the reference analysis (`sa_flat`).
//! The layers above use that an environment stands for one of the reference analysis (`state_of`), and that each operation on
//! environments is the operation there (`environments_are_flat`). A change must keep that nothing here knows what stands in a
//! slot.
#![tactic(auto)]

mod form;
mod guard;
mod laws;
mod read;
mod value;

pub use laws::environments_are_flat;
/// Want of memory, the one answer that no clause ties to anything.
pub use std::alloc::AllocError as OutOfMemory;
pub use value::Value;
