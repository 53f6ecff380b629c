//! Tests of the board. They stand apart from `sa_book`, since tests within a crate prove all of its functions once
//! more.
#![tactic(auto)]

#[cfg(test)]
mod tests;
