//! Tests of triples. They stand apart from `sa_clocked`, since tests within a crate prove all of its functions once
//! more.
#![tactic(auto)]

#[cfg(test)]
mod tests;
