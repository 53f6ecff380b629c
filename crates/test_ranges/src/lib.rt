//! Tests of the ranges file. They stand apart from `sa_ranges`, since tests within a crate prove all of its functions once more.
#![tactic(auto)]

#[cfg(test)]
mod tests;
