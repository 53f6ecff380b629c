//! Tests of environments. They stand apart from `sa_env`, since tests within a crate prove all of its functions once
//! more.
#![tactic(auto)]

#[cfg(test)]
mod tests;
