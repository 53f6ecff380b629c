//! Expressions, places, types and initialisers, from tokens.
//!
//! It stands on the cursor. Each method of `Grammar` reads one rule of the grammar from the front of the tokens, where so many
//! more brackets, prefix operators and choices may be open as `room` says, and is proved against the function of `sa_syntax`
//! that reads that rule. Nothing here knows a statement.
#![tactic(auto)]

mod expr;
mod initialiser;

pub use expr::Grammar;
