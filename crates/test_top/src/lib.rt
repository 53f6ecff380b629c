//! Tests of the top call. They stand apart from `sa_top`, since tests within a crate prove all of its functions once
//! more.
#![tactic(auto)]

#[cfg(test)]
mod tests;
