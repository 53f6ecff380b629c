//! Tests of the operators of intervals. They stand apart from `sa_operators`, since tests within a crate prove all of
//! its functions once more.
#![tactic(auto)]

#[cfg(test)]
mod tests;
