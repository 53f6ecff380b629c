//! Tests of typed programs. They stand apart from `sa_typed`, since tests within a crate prove all of its functions
//! once more.
#![tactic(auto)]

#[cfg(test)]
mod tests;
