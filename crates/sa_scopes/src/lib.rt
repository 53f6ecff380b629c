//! What typing has seen so far, and what it decides without a walk: names and tags, types, structures, constants, refusals.
//!
//! It stands on `sa_syntax` and `sa_typed`. `specs/Typing.antt` says what a step of typing is: `Yields` ties a call that gets
//! the `Typer` to a function over the same state, and the crates above name it in nearly every clause. A step never stops at a
//! refusal: it notes it in the state, and `least_of` says in the end which of them is told. `proofs/WalkLaws.antt` has what any
//! step owes (`Leads`): what was seen before stays, and sizes, names and shapes fit one another.
#![tactic(auto)]

pub mod constant;
pub mod first;
pub mod form;
pub mod scope;
pub mod structs;
pub mod typer;
pub mod types;
