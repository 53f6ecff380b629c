//! Tests of calls. They stand apart from `sa_calls`, since tests within a crate prove all of its functions once more.
#![tactic(auto)]

#[cfg(test)]
mod tests;
