//! Statements, from tokens: the body of a function.
//!
//! It stands on the reader of expressions. Each function reads one rule of the grammar from the front of the tokens, where so
//! many more may be open as `room` says, and is proved against the function of `sa_syntax` that reads that rule. Nothing here
//! knows an item of a source.
#![tactic(auto)]

mod body;
mod parts;
mod stmt;

pub use body::function_body;
