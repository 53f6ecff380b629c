//! Tests of shared trees. They stand apart from `sa_shared`, since tests within a crate prove all of its functions once
//! more.
#![tactic(auto)]

#[cfg(test)]
mod tests;
