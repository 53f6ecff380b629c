//! A cursor over the tokens of a source, and what its reader takes by single tokens: marks, names, words.
//!
//! It stands on tokens and on the grammar's function that reads. `specs/Outcome.antt` says what a step of the parser is: `Reads`
//! ties a call that gets the cursor to that function over the tokens that are left, and the crates above name it in nearly
//! every clause. Nothing here knows an expression or a statement.
#![tactic(auto)]

mod cursor;
mod fault;
mod names;
mod words;

pub use cursor::Tokens;
pub use fault::Stop;
pub use names::TypeNames;
pub use words::{
    LOOSEST, compound_of, level_of, operator_of, prefix_of, qualifier_of, scalar_of, update_of,
};
