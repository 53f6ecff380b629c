//! Tests of difference-bound matrices. They stand apart from `sa_dbm`, since tests within a crate prove all of its
//! functions once more.
#![tactic(auto)]

#[cfg(test)]
mod tests;
