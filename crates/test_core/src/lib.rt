//! Tests of the sequencing core. They stand apart from `sa_core`, since tests within a crate prove all of its functions
//! once more.
#![tactic(auto)]

#[cfg(test)]
mod tests;
