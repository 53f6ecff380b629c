//! Tests of tokens. They stand apart from `sa_tokens`, since tests within a crate prove all of its functions once more.
#![tactic(auto)]

#[cfg(test)]
mod tests;
