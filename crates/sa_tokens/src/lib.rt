//! Tokens of a source (ISO C 6.4), as far as the language has them.
//!
//! It stands on `sa_base`. The layers above use that `tokens` gives exactly the tokens of the pieces that a source is made of,
//! each at its position, or else the first place that begins no piece. What a text begins with has one definition, in
//! `specs/Pieces.antt`: the code follows it, and a new mark, keyword or form of comment goes there first.
#![tactic(auto)]

mod bytes;
mod comment;
mod fault;
mod keyword;
mod laws;
mod lexer;
mod mark;
mod number;
mod piece;
mod punct;
mod token;
mod word;

pub use fault::TokenFault;
pub use keyword::Keyword;
pub use laws::{counts_places, ends_first, reads_once, takes_longest};
pub use lexer::{end_of, tokens};
pub use punct::Punct;
pub use token::{Token, Word};
