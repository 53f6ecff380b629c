//! The parser: from tokens to the tree of the source.
//!
//! It stands on the readers of statements and of expressions. The layer above uses that it answers the tree that the grammar
//! gives, and a refusal only where there is none. It goes down the grammar with one token ahead and never backs up.
#![tactic(auto)]

mod fault;
mod source;
mod unit;

pub use fault::ParseFault;
pub use source::parse;
